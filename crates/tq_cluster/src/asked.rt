//! A call of any part in its cell.

ghost use Rattle.std.specs.Prelude.{◌≡◌, ◌++◌, ◌⊎◌, max, IfOk, IfErr, OnErr};
ghost use Rattle.tq_cells.specs.Passes.{IsToldByOneOf};
ghost use Rattle.tq_cluster.specs.Told.{exchanges_of};

use crate::recorded::Recorded;
use std::alloc::Global;
use std::sync::Wait;
use tq_cells::{Cell, Gate, Pass, Settings, Twice, Untaken};
use tq_shape::{Answered, AskFault, Entry, Part};
use tq_txn::Exchange;

/// An ask with its reply, and the number of their entry.
#[derive(Drop)]
pub(crate) struct Numbered<A, R> {
    pub(crate) number: u64,
    pub(crate) ask: A,
    pub(crate) reply: R,
}

/// Asks the part of that name and of these settings in its cell, and puts the exchange behind those that the caller was
/// told. Want of memory is not told of.
pub(crate) fn ask_part<P: Recorded, S: Settings<P>, R: Wait, G: Gate>(
    rt: &R,
    alloc: Global,
    cell: &Cell<P>,
    gate: &G,
    part: Part,
    settings: &S,
    pass: &mut Pass<P>,
    told: &mut Vec<Exchange>,
    ask: P::Ask,
) -> Result<Numbered<P::Ask, P::Reply>, AskFault>
    requires { part ≡ cell.now }
    ensures exchanges { told.new.items
        ≡ told.old.items ++ exchanges_of (P.exchange part) ask result }
    ensures same { IfOk result (λ t. t.ask ≡ ask) }
    ensures reply { IfOk result (λ t.
        IsToldByOneOf (S.are_of settings.now) P.reply P.after P.opening t.number t.ask t.reply) }
    ensures seen { IfOk result (λ t. pass.new.seen ≡ max pass.old.seen t.number) }
    ensures not_told { OnErr result (pass.new.seen ≡ pass.old.seen) }
    ensures fault { IfErr result (λ f. (f ≡ AskFault.Memory) ⊎ (f ≡ AskFault.JournalFull part)) }
{
    told.reserve(1)?;
    match cell.tell(rt, alloc, pass, gate, settings, ask) {
        Ok(twice) => {
            let Twice {
                number,
                kept,
                told: entry,
            } = twice;
            let Entry { ask, reply } = kept;
            told.push_reserved(P::record(part, ask, Ok(Answered { number, reply })));
            let Entry { ask, reply } = entry;
            Ok(Numbered { number, ask, reply })
        }
        Err(Untaken::Memory) => Err(AskFault::Memory),
        Err(Untaken::JournalFull { ask }) => {
            let fault = AskFault::JournalFull { part };
            told.push_reserved(P::record(part, ask, Err(fault)));
            Err(fault)
        }
    }
}
