//! How transactions ended.

ghost use Rattle.std.specs.{Prelude.{◌≡◌, ◌+◌, ◌<◌, ◌≤◌, IfOk, OnOk}, Option.option_copied};
ghost use Rattle.std.specs.FinMap as fin;

use indexmap::IndexMap;
use std::alloc::Global;
use std::marker::Model;
use tq_asks::Verdict;
use tq_shape::Memory;

/// How each transaction ended that has.
#[derive(Drop)]
pub(crate) struct Finals {
    verdicts: IndexMap<u64, Verdict>,
}

impl Model for Finals {
    ghost use Rattle.std.specs.FinMap as map;
    ghost use Rattle.indexmap.specs.IndexMap.{spare};
    ghost use Rattle.tq_desk.specs.DeskJournal.{FinalsView, finals_view_code};
    ghost use Rattle.tq_asks.specs.contracts.ask.Verdict as verdict_type;

    ghost Value = { FinalsView };

    ghost coded = { finals_view_code verdict_type.the_row.coded };

    ghost view = { λ a. record {
      finals = map.from_entries a.verdicts.entries;
      room = spare a.verdicts;
    } };
}

impl Finals {
    pub(crate) fn new(alloc: Global) -> Finals
        ensures { result.finals ≡ fin.empty }
    {
        Finals {
            verdicts: IndexMap::new(alloc),
        }
    }

    /// The same ends, in memory of their own.
    pub(crate) fn copy(&self) -> Result<Finals, Memory>
        ensures { IfOk result (λ copy. copy.finals ≡ self.now.finals) }
    {
        let verdicts = self.verdicts.clone()?;
        Ok(Finals { verdicts })
    }

    /// How a transaction ended, if it has.
    pub(crate) fn get(&self, txn: u64) -> Option<&Verdict>
        ensures { option_copied result ≡ fin.get self.now.finals txn }
    {
        self.verdicts.get(&txn)
    }

    /// How many transactions ended.
    pub(crate) fn len(&self) -> usize
        ensures most { fin.len self.now.finals ≤ result }
        ensures small { result < 9223372036854775808 }
    {
        self.verdicts.len()
    }

    /// Makes room for this many calls of `keep`.
    pub(crate) fn reserve(&mut self, additional: usize) -> Result<(), Memory>
        ensures finals { self.new.finals ≡ self.old.finals }
        ensures room { OnOk result (additional ≤ self.new.room) }
    {
        self.verdicts.reserve(additional)
    }

    /// Keeps how a transaction ended.
    pub(crate) fn keep(&mut self, txn: u64, verdict: Verdict)
        requires { 0 < self.old.room }
        ensures finals { self.new.finals ≡ fin.insert self.old.finals txn verdict }
        ensures room { self.old.room ≤ self.new.room + 1 }
    {
        let _replaced = self.verdicts.insert(txn, verdict).unwrap();
    }
}
