//! A lock as a server granted it.

use tq_locks::Mode;
use tq_shape::ExactClone;
use tq_store::Content;

/// A lock as a server granted it, with the copy that it answered.
#[derive(Clone, PartialEq)]
pub struct Grant {
    pub server: u64,
    /// The number of the server's entry that granted the lock.
    pub number: u64,
    pub mode: Mode,
    pub version: u64,
    pub content: Content,
}

// Written out, so that a crate above lets go of one by a call.
impl Drop for Grant {
    fn drop(self) {
        let Self {
            server: _,
            number: _,
            mode: _,
            version: _,
            content: _,
        } = self;
    }
}

impl ExactClone for Grant {
    ghost use Rattle.std.proofs.Common.{rules};

    ghost clones = { Prim.search rules };
}
