//! A refusal as a reply keeps it.

ghost use Rattle.std.specs.Prelude.{◌≡◌, IfOk};

use crate::NodeRefusal;
use std::alloc::{AllocError, Global};
use std::marker::Model;
use tq_shape::{ExactClone, Memory, Shared};
use tq_store::FileName;

/// Why a server refuses, as its reply keeps it: only a reason that names a file takes memory. Contracts see the reason
/// alone.
pub struct Reason {
    kept: Kept,
}

/// The reasons, with the file's name in a block of its own: in place it would make every reply longer.
#[derive(Drop, Clone)]
enum Kept {
    Down,
    AlreadyUp,
    AlreadyDown,
    Held { by: u64 },
    Prepared,
    NotLocked { file: Shared<FileName> },
    BadWrites,
    NotNewer,
    NothingHere,
}

impl Model for Reason {
    ghost use Rattle.tq_asks.specs.{declared.ask.NodeRefusal.NodeRefusal as refusal_value, Reasons.reason_of};
    ghost use Rattle.tq_asks.specs.contracts.ask.NodeRefusal as refusal_type;

    ghost Value = { refusal_value };

    ghost coded = { refusal_type.the_row.coded };

    ghost view = { λ a. reason_of a.kept };
}

impl Reason {
    /// Keeps a reason.
    ///
    /// # Errors
    ///
    /// Refuses where there is no memory for the name of a file.
    #[inline]
    pub fn new(alloc: Global, refusal: NodeRefusal) -> Result<Reason, Memory>
        ensures { IfOk result (λ reason. reason ≡ refusal) }
    {
        let kept = match refusal {
            NodeRefusal::Down => Kept::Down,
            NodeRefusal::AlreadyUp => Kept::AlreadyUp,
            NodeRefusal::AlreadyDown => Kept::AlreadyDown,
            NodeRefusal::Held { by } => Kept::Held { by },
            NodeRefusal::Prepared => Kept::Prepared,
            NodeRefusal::NotLocked { file } => {
                let file = Shared::new(alloc, file)?;
                Kept::NotLocked { file }
            }
            NodeRefusal::BadWrites => Kept::BadWrites,
            NodeRefusal::NotNewer => Kept::NotNewer,
            NodeRefusal::NothingHere => Kept::NothingHere,
        };
        Ok(Reason { kept })
    }

    /// The reason.
    #[inline]
    pub fn get(&self) -> NodeRefusal
        ensures { result ≡ self.now }
    {
        match &self.kept {
            Kept::Down => NodeRefusal::Down,
            Kept::AlreadyUp => NodeRefusal::AlreadyUp,
            Kept::AlreadyDown => NodeRefusal::AlreadyDown,
            Kept::Held { by } => NodeRefusal::Held { by: *by },
            Kept::Prepared => NodeRefusal::Prepared,
            Kept::NotLocked { file } => NodeRefusal::NotLocked { file: *file.get() },
            Kept::BadWrites => NodeRefusal::BadWrites,
            Kept::NotNewer => NodeRefusal::NotNewer,
            Kept::NothingHere => NodeRefusal::NothingHere,
        }
    }
}

// Written out, so that a crate above lets go of one by a call.
impl Drop for Reason {
    #[inline]
    fn drop(self) {
        let Self { kept: _ } = self;
    }
}

impl Clone for Reason {
    ghost use Rattle.std.specs.Prelude.{◌≡◌};

    ghost is_clone = { λ x y. y ≡ x };

    #[inline]
    fn clone(&self) -> Result<Self, AllocError> {
        Ok(Reason {
            kept: self.kept.clone()?,
        })
    }
}

impl ExactClone for Kept {
    ghost use Rattle.std.proofs.Common.{rules};

    ghost clones = { Prim.search rules };
}

impl ExactClone for Reason {
    ghost clones = { λ x y h. h };
}
