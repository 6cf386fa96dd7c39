//! Why a text gives no value.

use json::Invalid;
use std::alloc::AllocError;
use thiserror::Error;

/// Why a text gives no value.
#[derive(Clone, Copy, Debug, Error, PartialEq, Eq)]
pub enum NotRead {
    /// Memory was refused.
    #[error("out of memory")]
    Memory,
    /// The bytes are no JSON.
    #[error("not JSON")]
    NotJson,
}

impl From<Invalid> for NotRead {
    ghost use Rattle.tq_json.specs.declared.fault.NotRead.TheVariants as variants;
    ghost use Rattle.std.specs.Prelude.{◌≡◌};

    ghost from_gives = { λ _ e. e ≡ variants.NotJson };

    fn from(_invalid: Invalid) -> NotRead {
        NotRead::NotJson
    }
}

impl From<AllocError> for NotRead {
    ghost use Rattle.tq_json.specs.declared.fault.NotRead.TheVariants as variants;
    ghost use Rattle.std.specs.Prelude.{◌≡◌};

    ghost from_gives = { λ _ e. e ≡ variants.Memory };

    fn from(_refused: AllocError) -> NotRead {
        NotRead::Memory
    }
}
