//! What comes of a close: the journals and their order.

ghost use Rattle.std.specs.Prelude.{◌≡◌, MatchOption, IfOk, IfErr, IfNone};
ghost use Rattle.tq_core.specs.{Steps.run, Headline.HasCommittedReads};
ghost use Rattle.tq_tables.specs.{Parts.AreLegal, Tables.tables_of};
ghost use Rattle.tq_merge.specs.{Order.{Explains, asks_of}, Told.{AreKept, IsCloseFault, IsNoOrder}};
ghost use Rattle.tq_merge.specs.Told as spec;
ghost use Rattle.tq_mirror.specs.Prefixes.{AllBegin, IsFirstAstray};
ghost use Rattle.tq_cluster.specs.Cluster.{AreTablesOfPrefixes};

use crate::live_board::LiveBoard;
use std::alloc::Global;
use tq_merge::{CloseFault, Comparison, Fault, Order, compare, explain_legal, found};
use tq_shape::{Part, Seq};
use tq_tables::Journals;
use tq_txn::Exchange;

/// What comes of a cluster that is closed.
#[derive(Drop)]
pub struct Explained {
    /// The entries of all parts.
    pub journals: Journals,
    /// An order in which each part's entries come as journaled, and all that an entry cites stands before it.
    pub order: Order,
    /// Of so many entries no caller was told.
    pub unclaimed: u64,
}

impl Explained {
    /// The first part, the servers upwards, then the desk, then the view, whose journal does not begin with what the
    /// board pulled of it; none where each begins so. Then the board's tables are those over prefixes of these journals.
    /// It takes no memory.
    pub fn begins(&self, board: &LiveBoard) -> Option<Part>
        requires levels { board.now.levels ≡ self.now.journals.levels }
        requires limits { board.now.limits ≡ self.now.journals.limits }
        ensures first { MatchOption result (AllBegin board.now self.now.journals)
            (IsFirstAstray board.now self.now.journals) }
        ensures tables { IfNone result
            (AreTablesOfPrefixes self.now.journals (tables_of board.now)) }
    {
        board.prefixes.first_astray(&self.journals)
    }
}

/// Compares what these callers were told with journals, and finds an order of the journals' entries. At Ok all that was
/// told stands in the journals, and these are those of one run: of the asks of the entries, in that order.
pub(crate) fn settle(
    alloc: Global,
    journals: Journals,
    callers: &[Seq<Exchange>],
) -> Result<Explained, CloseFault>
    requires { AreLegal journals }
    ensures journals { IfOk result (λ e. e.journals ≡ journals) }
    ensures kept { IfOk result (λ e. AreKept journals callers.now) }
    ensures unclaimed { IfOk result (λ e. e.unclaimed ≡ spec.unclaimed journals callers.now) }
    ensures order { IfOk result (λ e. Explains journals e.order) }
    ensures run { IfOk result (λ e.
        run journals.levels journals.limits (asks_of journals e.order) ≡ journals) }
    ensures committed_reads { IfOk result (λ e. HasCommittedReads journals) }
    ensures fault { IfErr result (IsCloseFault journals callers.now) }
{
    match compare(alloc, &journals, callers)? {
        Comparison::Kept { unclaimed } => explained_in_order(alloc, journals, unclaimed),
        Comparison::Differs(name) => {
            let found = found(&journals, name)?;
            Err(CloseFault::Receipt {
                part: name.part,
                number: name.number,
                found,
            })
        }
    }
}

/// The journals with an order of their entries.
fn explained_in_order(
    alloc: Global,
    journals: Journals,
    unclaimed: u64,
) -> Result<Explained, CloseFault>
    requires { AreLegal journals }
    ensures journals { IfOk result (λ e. e.journals ≡ journals) }
    ensures unclaimed { IfOk result (λ e. e.unclaimed ≡ unclaimed) }
    ensures order { IfOk result (λ e. Explains journals e.order) }
    ensures run { IfOk result (λ e.
        run journals.levels journals.limits (asks_of journals e.order) ≡ journals) }
    ensures committed_reads { IfOk result (λ e. HasCommittedReads journals) }
    ensures fault { IfErr result (IsNoOrder journals) }
{
    match explain_legal(alloc, &journals) {
        Ok(order) => Ok(Explained {
            journals,
            order,
            unclaimed,
        }),
        Err(Fault::Memory) => Err(CloseFault::Memory),
        Err(Fault::Stuck { placed }) => Err(CloseFault::Stuck { journals, placed }),
        Err(Fault::Wrong { part: _, number: _ }) => unreachable!(),
    }
}
