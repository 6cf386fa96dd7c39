//! How a run ends before its source does.

use std::alloc::AllocError;
use thiserror::Error;

/// Why a run ended before its source did.
#[derive(Clone, Copy, Debug, PartialEq, Eq, Error)]
pub enum RunFault {
    /// Memory was refused.
    #[error("fault memory")]
    Memory,
    /// The source failed.
    #[error("fault read")]
    Read,
    /// The sink failed.
    #[error("fault write")]
    Write,
    /// The source gave more bytes than are taken.
    #[error("fault too long")]
    TooLong,
}

impl From<AllocError> for RunFault {
    ghost use Rattle.std.specs.Prelude.{◌≡◌};
    ghost use Rattle.tq_devices.specs.declared.fault.RunFault.TheVariants as variants;

    ghost from_gives = { λ _ fault. fault ≡ variants.Memory };

    fn from(_error: AllocError) -> RunFault {
        RunFault::Memory
    }
}
