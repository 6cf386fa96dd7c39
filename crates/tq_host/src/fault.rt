//! How a host ends, and why the lines of a log lead to no part.

use std::alloc::AllocError;
use thiserror::Error;

/// Why a host ended before its source did.
#[derive(Clone, Copy, Debug, PartialEq, Eq, Error)]
pub enum HostFault {
    /// Memory was refused.
    #[error("fault memory")]
    Memory,
    /// The source failed.
    #[error("fault read")]
    Read,
    /// The sink failed.
    #[error("fault write")]
    Write,
    /// A line has more bytes than are taken.
    #[error("fault too long")]
    TooLong,
    /// The log failed.
    #[error("fault log")]
    Log,
}

impl From<AllocError> for HostFault {
    ghost use Rattle.std.specs.Prelude.{◌≡◌};
    ghost use Rattle.tq_host.specs.declared.fault.HostFault.TheVariants as variants;

    ghost from_gives = { λ _ fault. fault ≡ variants.Memory };

    fn from(_refused: AllocError) -> HostFault {
        HostFault::Memory
    }
}

/// Why the lines of a log lead to no part.
#[derive(Clone, Copy, Debug, PartialEq, Eq, Error)]
pub enum ReplayFault {
    /// Memory was refused.
    #[error("out of memory")]
    Memory,
    /// The part would not have given the entry of that number there.
    #[error("wrong entry {number}")]
    Wrong { number: u64 },
    /// The line of that number is no entry.
    #[error("unreadable entry {number}")]
    Unreadable { number: u64 },
}

impl From<AllocError> for ReplayFault {
    ghost use Rattle.std.specs.Prelude.{◌≡◌};
    ghost use Rattle.tq_host.specs.declared.fault.ReplayFault.TheVariants as variants;

    ghost from_gives = { λ _ fault. fault ≡ variants.Memory };

    fn from(_refused: AllocError) -> ReplayFault {
        ReplayFault::Memory
    }
}
