//! The abort of a transaction.

ghost use Rattle.std.specs.Prelude.{◌≡◌, Some};
ghost use Rattle.tq_txn.specs.Commits as spec;
ghost use Rattle.tq_txn.specs.Dialogue as line;
ghost use Rattle.tq_txn.specs.Told as states;
ghost use Rattle.tq_txn.specs.Told.{IsEndTold, IsEnding, Knows};

use crate::endings::end_at_each;
use crate::fault::is_commit;
use crate::{Abortion, Asker, DeskTold, Ended, LineFault, Txn};
use std::alloc::Global;
use tq_asks::Verdict;
use tq_desk::{DeskAsk, DeskReply};
use tq_shape::Part;

/// The transaction as a verdict on it ends it, which the desk's entry of that number told; one that has ended keeps its
/// own. It takes no memory.
#[inline(always)]
fn ended_by(txn: Txn, verdict: Verdict, cite: u64) -> Ended
    ensures { Txn.Ended result ≡ spec.resolved_with txn cite (Some verdict) }
{
    match txn {
        Txn::Open(open) => open.end_by(verdict, cite),
        Txn::Voting(voting) => voting.end_by(verdict, cite),
        Txn::Ended(ended) => ended,
    }
}

/// The ending of a transaction that aborted.
fn end_aborted<A: Asker>(asker: &mut A, alloc: Global, ended: Ended) -> Abortion
    requires tree { ended.levels ≡ A.levels asker.old }
    requires told { IsEndTold (A.told asker.old) ended }
    ensures asks { line.Follows (spec.ending_of ended)
        (A.told asker.old) (A.told asker.new) (line.ended_by result.answer result.txn) }
    ensures same { result.txn ≡ Txn.Ended ended }
    ensures tree { A.levels asker.new ≡ A.levels asker.old }
{
    let answer = end_at_each(asker, alloc, &ended, ended.servers());
    Abortion {
        answer,
        txn: Txn::Ended(ended),
    }
}

/// Aborts a transaction at the desk, and then ends it at the servers that granted it a lock. One that committed is
/// answered with its verdict, and has no ending.
/// After any fault it comes back in its state, with the votes that it had gathered, or ended as the desk told.
pub fn abort<A: Asker>(asker: &mut A, alloc: Global, txn: Txn) -> Abortion
    requires tree { states.levels_of txn ≡ A.levels asker.old }
    requires knows { Knows (A.told asker.old) txn }
    ensures asks { line.Follows (spec.abort_line txn)
        (A.told asker.old) (A.told asker.new) (line.ended_by result.answer result.txn) }
    ensures levels { states.levels_of result.txn ≡ states.levels_of txn }
    ensures ending { IsEnding txn (A.told asker.old) (A.told asker.new) result.txn }
    ensures tree { A.levels asker.new ≡ A.levels asker.old }
{
    let number = txn.number();
    match asker.desk(alloc, DeskAsk::Resolve { txn: number }) {
        Ok(told) => resolve_and_end(asker, alloc, txn, told),
        Err(fault) => Abortion {
            answer: Err(LineFault::from(fault)),
            txn,
        },
    }
}

/// The transaction after the desk's answer, and the ending, where that is an abort. It takes no memory for what the desk
/// told.
fn resolve_and_end<A: Asker>(asker: &mut A, alloc: Global, txn: Txn, told: DeskTold) -> Abortion
    requires tree { states.levels_of txn ≡ A.levels asker.old }
    requires asked { told.ask ≡ DeskAsk.Resolve (states.number_of txn) }
    requires knows { Knows (A.told asker.old) (spec.txn_after_resolve txn told) }
    ensures asks { line.Follows (spec.abort_end told.reply (spec.txn_after_resolve txn told))
        (A.told asker.old) (A.told asker.new) (line.ended_by result.answer result.txn) }
    ensures value { result.txn ≡ spec.txn_after_resolve txn told }
    ensures tree { A.levels asker.new ≡ A.levels asker.old }
{
    let DeskTold {
        number,
        ask: _,
        reply,
    } = told;
    match reply {
        DeskReply::Verdict(verdict) => {
            let committed = is_commit(&verdict);
            let ended = ended_by(txn, verdict, number);
            if committed {
                return Abortion {
                    answer: Err(LineFault::Ended { committed }),
                    txn: Txn::Ended(ended),
                };
            }
            end_aborted(asker, alloc, ended)
        }
        DeskReply::Refused(refusal) => Abortion {
            answer: Err(LineFault::from(refusal)),
            txn,
        },
        _ => Abortion {
            answer: Err(LineFault::WrongReply { part: Part::Desk }),
            txn,
        },
    }
}
