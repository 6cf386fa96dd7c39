//! A lock that stands in a list that others share.

ghost use Rattle.std.specs.Prelude.{◌≡◌, ◌<◌, length};
ghost use Rattle.tq_intents.specs.Sharing.{lock_at};

use crate::KeptLock;
use std::alloc::AllocError;
use std::marker::Model;
use tq_asks::HeldLock;
use tq_shape::{ExactClone, SharedSeq};

/// A lock that stands in a list: it cites the list, which others share, and its place there, and has the version of its
/// file's copy when it was granted. Contracts see the lock alone, as a vote keeps it.
pub struct SharedLock {
    held: SharedSeq<HeldLock>,
    place: usize,
    version: u64,
}

// Written out, so that a crate above lets go of one by a call.
impl Drop for SharedLock {
    fn drop(self) {
        let Self {
            held: _,
            place: _,
            version: _,
        } = self;
    }
}

impl Model for SharedLock {
    ghost use Rattle.std.specs.Prelude.{◌<◌, length};
    ghost use Rattle.tq_intents.specs.declared.record.KeptLock.{KeptLock as lock_value};
    ghost use Rattle.tq_intents.specs.contracts.record.KeptLock as lock_type;

    ghost Value = { lock_value };

    ghost coded = { lock_type.the_row.coded };

    ghost use Rattle.tq_intents.specs.Sharing.{lock_at};

    ghost view = { λ a. lock_at a.held a.place a.version };

    ghost invariant = { λ a. a.place < length a.held };
}

impl SharedLock {
    /// The lock at a place of a list, with this version.
    pub fn at(held: SharedSeq<HeldLock>, place: usize, version: u64) -> SharedLock
        requires { place < length held }
        ensures { result ≡ lock_at held place version }
    {
        SharedLock {
            held,
            place,
            version,
        }
    }

    /// The lock.
    pub fn get(&self) -> KeptLock
        ensures { result ≡ self.now }
    {
        let held = &self.held.as_slice()[self.place];
        KeptLock {
            file: held.file,
            mode: held.mode,
            since: held.since,
            version: self.version,
        }
    }
}

impl Clone for SharedLock {
    ghost use Rattle.std.specs.Prelude.{◌≡◌};

    ghost is_clone = { λ x y. y ≡ x };

    fn clone(&self) -> Result<Self, AllocError> {
        Ok(SharedLock {
            held: self.held.clone()?,
            place: self.place,
            version: self.version,
        })
    }
}

impl ExactClone for SharedLock {
    ghost clones = { λ x y h. h };
}
