//! The close of a cluster: an order of all entries, or why there is none.

ghost use Rattle.std.specs.Prelude.{◌≡◌, map, IfOk, IfErr};
ghost use Rattle.tq_core.specs.{Steps.run, Headline.HasCommittedReads};
ghost use Rattle.tq_merge.specs.{Order.{Explains, asks_of}, Told.AreKept};
ghost use Rattle.tq_merge.specs.Told as kept_words;
ghost use Rattle.tq_cluster.specs.Cluster.{IsClosedBy};

use crate::caller::Caller;
use crate::cluster::Cluster;
use crate::explained::{Explained, settle};
use std::alloc::Global;
use tq_cells::Gate;
use tq_merge::CloseFault;
use tq_shape::{Memory, Seq};
use tq_txn::Exchange;

impl<G: Gate + Drop> Cluster<G> {
    /// Opens all cells, once no thread asks the parts any more, compares what these callers were told with the journals,
    /// and finds an order of the entries.
    ///
    /// At Ok all that they were told stands in the journals, each entry told once, and at each part in rising order to
    /// each of them; of `unclaimed` entries none of them was told. The order explains the journals: so these are the
    /// journals of one run, of the asks in that order, and each read of a commit is the file's last committed write.
    ///
    /// What callers that are not given were told is compared with nothing. At a fault the cluster and the callers are gone.
    pub fn close(self, alloc: Global, callers: Vec<Caller>) -> Result<Explained, CloseFault>
        ensures levels { IfOk result (λ e. e.journals.levels ≡ self.levels) }
        ensures limits { IfOk result (λ e. e.journals.limits ≡ self.limits) }
        ensures kept { IfOk result (λ e.
            AreKept e.journals (map (λ caller. caller.told) callers.items)) }
        ensures unclaimed { IfOk result (λ e. e.unclaimed
            ≡ kept_words.unclaimed e.journals (map (λ caller. caller.told) callers.items)) }
        ensures order { IfOk result (λ e. Explains e.journals e.order) }
        ensures run { IfOk result (λ e.
            run e.journals.levels e.journals.limits (asks_of e.journals e.order) ≡ e.journals) }
        ensures committed_reads { IfOk result (λ e. HasCommittedReads e.journals) }
        ensures fault { IfErr result (IsClosedBy self (map (λ caller. caller.told) callers.items)) }
    {
        let told = told_to_all(alloc, callers)?;
        let journals = self.into_journals(alloc, Vec::new(alloc))?;
        match settle(alloc, journals, told.as_slice()) {
            Ok(explained) => Ok(explained),
            Err(fault) => Err(fault),
        }
    }
}

/// What each of the callers was told of its asks. Answers an error only where memory is refused.
fn told_to_all(alloc: Global, callers: Vec<Caller>) -> Result<Vec<Seq<Exchange>>, Memory>
    ensures { IfOk result (λ told. told.items ≡ map (λ caller. caller.told) callers.items) }
{
    let mut told = Vec::new(alloc);
    for caller in callers {
        told.push(caller.into_told())?;
    }
    Ok(told)
}
