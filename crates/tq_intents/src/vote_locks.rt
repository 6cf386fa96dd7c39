//! The locks that a vote keeps.

ghost use Rattle.std.specs.Prelude.{◌≡◌, ◌<◌, length, get_or, IfOk};
ghost use Rattle.tq_intents.specs.Sharing.{kept_each};

use crate::SharedLock;
use smallvec::SmallVec;
use std::alloc::AllocError;
use std::marker::Model;
use tq_asks::HeldLock;
use tq_shape::{ExactClone, SharedSeq};

/// The versions of the copies of a vote's locks. Up to four of them need no allocation.
pub type LockVersions = SmallVec<u64, 4>;

/// The locks that a vote keeps: the list of them that its reply shares, and the versions of their files' copies. Contracts
/// see the locks alone.
pub struct VoteLocks {
    held: SharedSeq<HeldLock>,
    /// One for each lock: the version of its file's copy when it was granted.
    versions: LockVersions,
}

// Written out, so that a crate above lets go of one by a call.
impl Drop for VoteLocks {
    fn drop(self) {
        let Self {
            held: _,
            versions: _,
        } = self;
    }
}

impl Model for VoteLocks {
    ghost use Rattle.std.specs.{Prelude.{◌≡◌, List, length}, Coded.coded_list};
    ghost use Rattle.tq_intents.specs.declared.record.KeptLock.{KeptLock as lock_value};
    ghost use Rattle.tq_intents.specs.contracts.record.KeptLock as lock_type;

    ghost Value = { List lock_value };

    ghost coded = { coded_list lock_type.the_row.coded };

    ghost use Rattle.tq_intents.specs.Sharing.{kept_each};

    ghost view = { λ a. kept_each a.held a.versions.items };

    ghost invariant = { λ a. length a.held ≡ length a.versions.items };
}

impl VoteLocks {
    /// Locks, each with its version.
    pub fn new(held: SharedSeq<HeldLock>, versions: LockVersions) -> VoteLocks
        requires { length held ≡ length versions.items }
        ensures { result ≡ kept_each held versions.items }
    {
        VoteLocks { held, versions }
    }

    /// How many locks there are.
    pub fn len(&self) -> usize
        ensures { result ≡ length self.now }
    {
        self.versions.len()
    }

    /// The lock at a place.
    pub fn get(&self, place: usize) -> Result<SharedLock, AllocError>
        requires { place < length self.now }
        ensures { IfOk result (λ lock. lock ≡ get_or self.now place lock) }
    {
        let version = version_at(self.versions.as_slice(), place);
        Ok(SharedLock::at(self.held.clone()?, place, version))
    }
}

/// The version at a place.
fn version_at(versions: &[u64], place: usize) -> u64
    requires { place < length versions.now }
    ensures { result ≡ get_or versions.now place 0 }
{
    versions[place]
}

impl Clone for VoteLocks {
    ghost use Rattle.std.specs.Prelude.{◌≡◌};

    ghost is_clone = { λ x y. y ≡ x };

    fn clone(&self) -> Result<Self, AllocError> {
        Ok(VoteLocks {
            held: self.held.clone()?,
            versions: LockVersions::from_slice(
                *self.versions.allocator(),
                self.versions.as_slice(),
            )?,
        })
    }
}

impl ExactClone for VoteLocks {
    ghost clones = { λ x y h. h };
}
