//! Why a test fails.

ghost use Rattle.std.specs.Prelude.{◌≡◌, true, OnOk};

use std::alloc::{AllocError, AllocFailed};

/// Why a test fails: memory was refused, or something is not as it must be. It holds nothing that is dropped, so that
/// each way out of a test is cheap to prove.
#[derive(Clone, Copy, Debug)]
pub enum Wrong {
    /// Memory was refused.
    Memory,
    /// What is not as it must be.
    Is(&'static str),
}

impl From<AllocError> for Wrong {
    fn from(_: AllocError) -> Wrong {
        Wrong::Memory
    }
}

impl<T: Drop> From<AllocFailed<T>> for Wrong {
    fn from(_: AllocFailed<T>) -> Wrong {
        Wrong::Memory
    }
}

impl From<&'static str> for Wrong {
    fn from(what: &'static str) -> Wrong {
        Wrong::Is(what)
    }
}

/// Fails where it does not hold, and says what is wrong.
pub fn check(holds: bool, what: &'static str) -> Result<(), Wrong>
    ensures { OnOk result (holds ≡ true) }
{
    if holds { Ok(()) } else { Err(Wrong::Is(what)) }
}
