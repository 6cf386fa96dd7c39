//! The search for an order.

ghost use Rattle.std.specs.Prelude.{◌≡◌, IfOk, IfErr};
ghost use Rattle.tq_core.specs.{Steps.run, Headline.HasCommittedReads};
ghost use Rattle.tq_tables.specs.{Journals.AreJournals, Parts.AreLegal};
ghost use Rattle.tq_merge.specs.{Order.{Explains, asks_of}, Wrong.{IsFault, BlamesNone}};
ghost use Rattle.tq_merge.specs.OneCost.{HasEqualCosts, AgreesByOne};

use crate::Fault;
use crate::placing::Placing;
use crate::wrong::{WrongEntry, first_wrong};
use std::alloc::Global;
use tq_shape::{Part, Seq};
use tq_tables::Journals;

/// Parts, as often as they have entries: the first naming of a part stands for its first entry, and so on.
pub type Order = Seq<Part>;

/// An order of the entries of the journals in which each part's entries come as journaled and all that an entry cites stands
/// before it. Or why there is none: an entry that its part would not have given, or, where all would be given, how many
/// entries can be placed. Any entries may be handed in; nothing is known of them but their types.
#[tactic(auto, using(crate::proofs::OneCost::agrees))]
pub fn explain(alloc: Global, journals: &Journals) -> Result<Order, Fault>
    ensures order { IfOk result (λ order. Explains journals.now order) }
    ensures fault { IfErr result (IsFault journals.now) }
    ensures legal { AreLegal journals.now → IfErr result BlamesNone }

    // The asks in that order, run one after another, make these journals; so what holds of each run holds of them.
    ensures run { IfOk result (λ order.
        run journals.now.levels journals.now.limits (asks_of journals.now order) ≡ journals.now) }
    ensures committed_reads { IfOk result (λ order. HasCommittedReads journals.now) }

    // Where each SetCost has two equal costs, what is an order, a wrong entry or stuck is what it was while a server had one.
    ensures one_cost { HasEqualCosts journals.now → AgreesByOne journals.now }
{
    if let Some(entry) = first_wrong(alloc, journals)? {
        let WrongEntry { part, number } = entry;
        return Err(Fault::Wrong { part, number });
    }
    explain_legal(alloc, journals)
}

/// An order of the entries of journals that are legal, as `explain` finds it, which asks each part anew to see that they are:
/// here no part is asked. The fault is never an entry that is wrong.
pub fn explain_legal(alloc: Global, journals: &Journals) -> Result<Order, Fault>
    requires legal { AreLegal journals.now }
    ensures order { IfOk result (λ order. Explains journals.now order) }
    ensures fault { IfErr result (IsFault journals.now) }
    ensures blames_none { IfErr result BlamesNone }
    ensures run { IfOk result (λ order.
        run journals.now.levels journals.now.limits (asks_of journals.now order) ≡ journals.now) }
    ensures committed_reads { IfOk result (λ order. HasCommittedReads journals.now) }
{
    show_bounds(journals);
    let mut placing = Placing::new(alloc, journals)?;
    placing.place_all(alloc)?;
    if placing.is_whole() {
        return Ok(Seq::from_vec(placing.into_order()));
    }
    let placed = placing.into_counts();
    Err(Fault::Stuck { placed })
}

/// There is one list of entries for each server, and each list is within the limit.
fn show_bounds(journals: &Journals)
    ensures { AreJournals journals.now }
{
    let _servers = journals.servers();
    let _desk = journals.desk();
    let _view = journals.view();
}
