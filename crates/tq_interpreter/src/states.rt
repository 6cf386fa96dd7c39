//! The states of a transaction, as its lines want them.
ghost use Rattle.std.specs.{Prelude.{◌≡◌, ◌++◌, OnOk, OnErr, IfOk}, Option.option_map};
ghost use Rattle.tq_text.specs.Print.{Extends, printed_line, Prints, decided_text};
ghost use Rattle.tq_interpreter.specs.{Known.{IsKept, ending_in}, Recorded.RecorderView};
ghost use Rattle.tq_txn.specs.Told.{levels_of};
ghost use Rattle.tq_interpreter.specs.TxnAsked as spec;

use crate::txn_slot::{Ending, TxnSlot};
use std::alloc::Global;
use tq_asks::Verdict;
use tq_shape::{Limits, Memory};
use tq_text::{push_decided, say_fault};
use tq_txn::{LineFault, Open, Txn, Voting};

/// A transaction that gathers votes, or one that does not, which was said.
#[derive(Drop)]
pub(crate) enum Closed {
    Voting(Voting),
    Said(Txn),
}

/// Puts how a transaction ended behind the text, as a line.
pub(crate) fn say_decided(text: &mut Vec<u8>, verdict: &Verdict) -> Result<(), Memory>
    ensures text { OnOk result (Prints text.old text.new (decided_text verdict.now)) }
    ensures kept { OnErr result (Extends text.old.items text.new.items) }
{
    push_decided(text, verdict)?;
    text.push(b'\n')?;
    Ok(())
}

/// A transaction that stands in for one that is taken out, until that is put back.
pub(crate) fn stand_in(alloc: Global, txn: &Txn) -> Txn
    ensures { (now : RecorderView) → levels_of txn.now ≡ now.journals.levels → IsKept now result }
{
    Txn::Open(Open::new(alloc, txn.levels(), Limits::full(), 0))
}

/// The transaction as it gathers votes, if it has an operation and did not end.
#[inline(always)]
pub(crate) fn voting_of(txn: Txn, text: &mut Vec<u8>) -> Result<Closed, Memory>
    ensures closed { IfOk result (λ state. spec.IsClosed txn state text.old.items text.new.items) }
    ensures kept { OnErr result (Extends text.old.items text.new.items) }
{
    match txn {
        Txn::Open(open) => close(open, text),
        Txn::Voting(voting) => Ok(Closed::Voting(voting)),
        Txn::Ended(ended) => {
            say_decided(text, ended.verdict())?;
            Ok(Closed::Said(Txn::Ended(ended)))
        }
    }
}

fn close(still_open: Open, text: &mut Vec<u8>) -> Result<Closed, Memory>
    ensures closed { IfOk result (λ state.
        spec.IsClosed (Txn.Open still_open) state text.old.items text.new.items) }
    ensures kept { OnErr result (Extends text.old.items text.new.items) }
{
    match still_open.close() {
        Ok(voting) => Ok(Closed::Voting(voting)),
        Err(back) => {
            say_fault(text, &[], LineFault::Txn(back.1))?;
            Ok(Closed::Said(Txn::Open(back.0)))
        }
    }
}

/// The verdict that ended the transaction or, before that, was told, and the entry to cite.
pub(crate) fn ending_of(kept: &TxnSlot) -> Result<Option<Ending>, Memory>
    ensures { IfOk result (λ ending. ending ≡ ending_in kept.now) }
{
    match &kept.txn {
        Txn::Ended(ended) => Ok(Some(cited_ending(ended.verdict(), ended.cite())?)),
        _ => match &kept.told {
            Some(told) => {
                let ending = told.get();
                Ok(Some(cited_ending(&ending.verdict, ending.cite)?))
            }
            None => Ok(None),
        },
    }
}

fn cited_ending(verdict: &Verdict, cite: u64) -> Result<Ending, Memory>
    ensures { IfOk result (λ ending. ending ≡ record { verdict = verdict.now; cite = cite }) }
{
    let verdict = verdict.clone()?;
    Ok(Ending { verdict, cite })
}
