//! The locks that a vote lists, by file.

ghost use Rattle.std.specs.{Prelude.{◌≡◌, IfOk, OnOk}, Option.option_copied};
ghost use Rattle.std.specs.FinMap as fin;
ghost use Rattle.tq_evidence.specs.Evidence as spec;

use std::alloc::Global;
use std::collections::BTreeMap;
use std::marker::Model;
use tq_asks::HeldLock;
use tq_shape::Memory;
use tq_store::FileName;

/// For each file that a vote lists, the least number that it is held since. The names stand in order, so that a look-up
/// is bounded whichever they are.
#[derive(Drop)]
pub(crate) struct HeldSince {
    least: BTreeMap<FileName, u64>,
}

impl Model for HeldSince {
    ghost use Rattle.std.specs.FinMap as map;
    ghost use Rattle.tq_evidence.specs.Evidence.{LeastSince, least_code};

    ghost Value = { LeastSince };

    ghost coded = { least_code };

    ghost view = { λ a. map.from_entries a.least.entries };
}

impl HeldSince {
    /// The table of the locks listed.
    pub(crate) fn of(alloc: Global, held: &[HeldLock]) -> Result<HeldSince, Memory>
        ensures { IfOk result (λ table. table ≡ spec.least_since held.now) }
    {
        let mut table = HeldSince {
            least: BTreeMap::new(alloc),
        };
        for lock in held {
            table.note(lock.file, lock.since)?;
        }
        Ok(table)
    }

    /// Whether the file is held from no later than that number.
    pub(crate) fn holds(&self, file: FileName, number: u64) -> bool
        ensures { result ≡ spec.is_since (fin.get self.now file) number }
    {
        match self.get(file) {
            Some(since) => *since <= number,
            None => false,
        }
    }

    fn get(&self, file: FileName) -> Option<&u64>
        ensures { option_copied result ≡ fin.get self.now file }
    {
        self.least.get(&file)
    }

    fn note(&mut self, file: FileName, since: u64) -> Result<(), Memory>
        ensures { OnOk result (self.new ≡ spec.with_since self.old file since) }
    {
        let least = self.least_with(file, since);
        let _replaced = self.least.insert(file, least)?;
        Ok(())
    }

    fn least_with(&self, file: FileName, since: u64) -> u64
        ensures { result ≡ spec.lesser (fin.get self.now file) since }
    {
        match self.get(file) {
            Some(known) => since.min(*known),
            None => since,
        }
    }
}
