//! Why a text gives no scripts.

ghost use Rattle.std.specs.Prelude.{◌≡◌};
ghost use Rattle.tq_syntax.specs.declared.fault.ScriptFault.TheVariants as variants;

use thiserror::Error;
use tq_shape::Memory;

/// Why a text gives no scripts.
#[derive(Clone, Copy, Debug, PartialEq, Eq, Error)]
pub enum ScriptFault {
    /// Memory was refused.
    #[error("fault memory")]
    Memory,
    /// The text is bad. All lines are counted, from 1.
    #[error("bad script line {line}")]
    Bad { line: u64 },
}

impl From<Memory> for ScriptFault {
    ghost from_gives = { λ _ fault. fault ≡ variants.Memory };

    fn from(_refused: Memory) -> ScriptFault {
        ScriptFault::Memory
    }
}
