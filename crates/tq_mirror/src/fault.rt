//! Why nothing was pulled.

use crate::entries::Entries;
use std::alloc::AllocError;
use tq_shape::Part;

/// Why nothing was pulled of a part. Then all is as it was.
#[derive(Drop)]
pub enum PullFault {
    /// Memory was refused.
    Memory,
    /// These entries, which were got of the part, are not those that come next: the part, where the entries that were
    /// pulled of it leave it, would not give them, or more of them were to be there.
    Foreign { part: Part, entries: Entries },
}

impl From<AllocError> for PullFault {
    ghost use Rattle.std.specs.Prelude.{◌≡◌};
    ghost use Rattle.tq_mirror.specs.declared.fault.PullFault.TheVariants as variants;

    ghost from_gives = { λ _ fault. fault ≡ variants.Memory };

    fn from(_refused: AllocError) -> PullFault {
        PullFault::Memory
    }
}
