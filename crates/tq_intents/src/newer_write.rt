//! A write whose copy is to be installed.

ghost use Rattle.std.specs.Prelude.{◌≡◌, IfOk};

use crate::SharedWrite;
use std::alloc::AllocError;
use std::marker::Model;
use tq_shape::ExactClone;
use tq_store::Content;

/// A write that is to be installed, with its content at hand: to install it takes no memory. Contracts see the write alone.
#[derive(Drop)]
pub struct NewerWrite {
    write: SharedWrite,
    content: Content,
}

impl Model for NewerWrite {
    ghost use Rattle.std.specs.Prelude.{◌≡◌};
    ghost use Rattle.tq_store.specs.declared.write.Write.{Write as write_value};
    ghost use Rattle.tq_store.specs.contracts.write.Write as write_type;

    ghost Value = { write_value };

    ghost coded = { write_type.the_row.coded };

    ghost view = { λ a. a.write };

    ghost invariant = { λ a. a.content ≡ a.write.content };
}

impl NewerWrite {
    /// The write, with its content at hand.
    pub fn of(write: SharedWrite) -> Result<NewerWrite, AllocError>
        ensures { IfOk result (λ newer. newer ≡ write) }
    {
        let content = write.content().clone()?;
        Ok(NewerWrite { write, content })
    }

    /// The write.
    pub fn get(&self) -> &SharedWrite
        ensures { result.now ≡ self.now }
    {
        &self.write
    }

    /// The write and its content.
    pub fn parts(self) -> (SharedWrite, Content)
        ensures write { result.0 ≡ self }
        ensures content { result.1 ≡ self.content }
    {
        let content = self.content;
        let write = self.write;
        (write, content)
    }
}

impl Clone for NewerWrite {
    ghost use Rattle.std.specs.Prelude.{◌≡◌};

    ghost is_clone = { λ x y. y ≡ x };

    fn clone(&self) -> Result<Self, AllocError> {
        Ok(NewerWrite {
            write: self.write.clone()?,
            content: self.content.clone()?,
        })
    }
}

impl ExactClone for NewerWrite {
    ghost clones = { λ x y h. h };
}
