//! A log in memory.

use crate::log::Log;
use std::alloc::Global;
use std::marker::Model;
use tq_devices::Failed;

/// A log in memory. One of its calls may fail.
#[derive(Drop)]
pub struct MemoryLog {
    bytes: Vec<u8>,
    synced: usize,
    calls: u64,
    fails_at: Option<u64>,
    failures: u64,
}

impl Model for MemoryLog {
    ghost use Rattle.std.specs.Prelude.{◌≤◌, take, length};
    ghost use Rattle.tq_host.specs.Told.{KnownLog};

    ghost Value = { KnownLog };

    ghost view = { λ log. record {
      kept = log.bytes.items;
      synced = take log.synced log.bytes.items;
      calls = log.calls;
      fails_at = log.fails_at;
      failed = log.failures;
    } };

    ghost invariant = { λ log. log.synced ≤ length log.bytes.items };
}

impl MemoryLog {
    ghost use Rattle.std.specs.Prelude.{◌≡◌};
    ghost use Rattle.tq_host.specs.Told.{new_log};

    /// An empty log. The call that `fails_at` counts, the first being 0, fails.
    pub fn new(alloc: Global, fails_at: Option<u64>) -> MemoryLog
        ensures { result ≡ new_log fails_at }
    {
        MemoryLog {
            bytes: Vec::new(alloc),
            synced: 0,
            calls: 0,
            fails_at,
            failures: 0,
        }
    }

    /// The bytes that it keeps.
    pub fn bytes(&self) -> &[u8]
        ensures { result.now ≡ self.now.kept }
    {
        self.bytes.as_slice()
    }

    /// Those of them that are synced.
    pub fn synced(&self) -> &[u8]
        ensures { result.now ≡ self.now.synced }
    {
        &self.bytes.as_slice()[..self.synced]
    }
}

impl Log for MemoryLog {
    ghost use Rattle.std.specs.Prelude.{Some};

    ghost kept = { λ log. Some log.kept };

    ghost synced = { λ log. Some log.synced };

    ghost failed = { λ log. log.failed };

    fn failures(&self) -> u64 {
        self.failures
    }

    fn append(&mut self, bytes: &[u8]) -> Result<(), Failed> {
        let call = self.calls;
        self.calls = call.saturating_add(1);
        if self.fails_at == Some(call) {
            self.failures += 1;
            return Err(Failed);
        }
        match self.bytes.extend_from_slice(bytes) {
            Ok(()) => Ok(()),
            Err(_) => {
                self.failures += 1;
                Err(Failed)
            }
        }
    }

    fn sync(&mut self) -> Result<(), Failed> {
        let call = self.calls;
        self.calls = call.saturating_add(1);
        if self.fails_at == Some(call) {
            self.failures += 1;
            return Err(Failed);
        }
        self.synced = self.bytes.len();
        Ok(())
    }
}
