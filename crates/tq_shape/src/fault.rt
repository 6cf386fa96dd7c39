//! Why an ask is not taken.

ghost use Rattle.std.specs.Prelude.{◌≡◌};

use crate::Part;
use std::alloc::AllocError;
use thiserror::Error;

/// Why a part did not take an ask. Then the part and its journal are as they were.
#[derive(Clone, Copy, Debug, PartialEq, Eq, Error)]
pub enum Fault {
    /// Memory was refused.
    #[error("out of memory")]
    Memory,
    /// The journal has as many entries as its limit.
    #[error("the journal is full")]
    JournalFull,
}

impl From<AllocError> for Fault {
    ghost use Rattle.tq_shape.specs.declared.fault.Fault.TheVariants as variants;

    ghost from_gives = { λ _ fault. fault ≡ variants.Memory };

    fn from(_refused: AllocError) -> Fault {
        Fault::Memory
    }
}

/// Why an ask of one of several parts was not taken. It left everything as it was.
#[derive(Clone, Copy, Debug, PartialEq, Eq, Error)]
pub enum AskFault {
    /// Memory was refused.
    #[error("out of memory")]
    Memory,
    /// The part's journal has as many entries as its limit.
    #[error("the journal is full: {part:?}")]
    JournalFull { part: Part },
    /// The ask cites an entry that does not stand there with that content: this is the first such.
    #[error("there is no such entry {number}: {part:?}")]
    Unfounded { part: Part, number: u64 },
}

impl From<AllocError> for AskFault {
    ghost use Rattle.tq_shape.specs.declared.fault.AskFault.TheVariants as variants;

    ghost from_gives = { λ _ fault. fault ≡ variants.Memory };

    fn from(_refused: AllocError) -> AskFault {
        AskFault::Memory
    }
}
