//! A vote as a server gave it.

ghost use Rattle.std.specs.Prelude.{◌≡◌};
ghost use Rattle.tq_evidence.specs.Evidence as spec;

use crate::Grant;
use tq_asks::HeldLock;
use tq_shape::{ExactClone, SharedSeq};
use tq_store::{FileName, Write};

/// A server's vote, as it was answered.
#[derive(Clone, PartialEq)]
pub struct Vote {
    pub server: u64,
    /// The number of the server's entry that gave the vote.
    pub number: u64,
    /// The locks that the transaction held there.
    pub held: SharedSeq<HeldLock>,
    /// The writes that it asked that server to make.
    pub writes: SharedSeq<Write>,
}

// Written out, so that a crate above lets go of one by a call.
impl Drop for Vote {
    fn drop(self) {
        let Self {
            server: _,
            number: _,
            held: _,
            writes: _,
        } = self;
    }
}

impl Vote {
    /// Whether it is of the grant's server, comes after the grant, and holds the file from no later than the grant.
    pub fn covers(&self, file: FileName, grant: &Grant) -> bool
        ensures { result ≡ spec.covers file grant.now self.now }
    {
        self.server == grant.server
            && grant.number < self.number
            && self.holds_since(file, grant.number)
    }

    /// Whether it lists a lock of the file from no later than that number.
    pub fn holds_since(&self, file: FileName, number: u64) -> bool
        ensures { result ≡ spec.holds_since self.now file number }
    {
        let held = self.held.as_slice();
        held.iter()
            .any(|lock| lock.file == file && lock.since <= number)
    }
}

impl ExactClone for Vote {
    ghost use Rattle.std.proofs.Common.{rules};

    ghost clones = { Prim.search rules };
}
