//! What tables follow.
ghost use Rattle.std.specs.Prelude.{◌≡◌, IfOk};

use crate::file_table::FileTable;
use crate::holders::Holders;
use crate::parts::Parts;
use std::alloc::Global;
use tq_shape::Memory;

/// The parts that tables follow, and the rows of files.
// All are boxed, so that what is moved or let go of is three words and not a dozen containers.
#[derive(Drop)]
pub(crate) struct Followed {
    pub(crate) parts: Box<Parts>,
    pub(crate) files: Box<FileTable>,
    /// Each server that has a copy of a file with no row is one of these that may have.
    pub(crate) holders: Box<Holders>,
}

impl Followed {
    ghost use Rattle.tq_tables.specs.Reserved.{AreCopied};

    /// Equal ones, with memory of their own.
    pub(crate) fn copy(&self, alloc: Global) -> Result<Followed, Memory>
        ensures { IfOk result (λ copy. AreCopied self.now copy) }
    {
        let parts = self.parts.copy(alloc)?;
        let parts = Box::new(alloc, parts)?;
        let files = self.files.copy(alloc)?;
        let files = Box::new(alloc, files)?;
        let holders = self.holders.copy()?;
        let holders = Box::new(alloc, holders)?;
        Ok(Followed {
            parts,
            files,
            holders,
        })
    }
}
