//! Why a scenario ends.

use std::alloc::AllocError;
use thiserror::Error;

/// Why a scenario ends before it is done.
#[derive(Clone, Copy, Debug, PartialEq, Eq, Error)]
pub(crate) enum Wrong {
    /// Memory was refused for the words or the input, or for a call twice.
    #[error("fault memory")]
    Memory,
    /// There is no such scenario, or the input holds no journals that an order explains.
    #[error("fault input")]
    Input,
    /// A call that was refused memory changed what it was made on.
    #[error("changed where memory was refused")]
    Changed,
    /// A call answered otherwise than it does where memory is there.
    #[error("answered otherwise")]
    Otherwise,
}

impl From<AllocError> for Wrong {
    fn from(_refused: AllocError) -> Wrong {
        Wrong::Memory
    }
}
