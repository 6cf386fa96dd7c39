//! Values that their clones share.

ghost use Rattle.std.specs.Prelude.{◌≡◌, IfOk};

use crate::{ExactClone, Memory};
use std::alloc::{AllocError, Global};
use std::marker::Model;
use std::sync::Arc;

/// A value on the heap that its clones share: what holds it stays small, and a clone is a count, not a copy. Contracts see
/// the value alone.
pub struct Shared<T> {
    value: Arc<T>,
}

// Written out, so that a crate above lets go of one by a call.
impl<T: Drop> Drop for Shared<T> {
    #[inline]
    fn drop(self) {
        let Self { value: _ } = self;
    }
}

impl<T> Model for Shared<T> {
    ghost use Rattle.std.specs.Arc.{arc_value};

    ghost Value = { T };

    ghost coded = { T.code };

    ghost view = { λ a. arc_value a.value };
}

impl<T> Shared<T> {
    /// The value.
    pub fn get(&self) -> &T
        ensures { result.now ≡ self.now }
    {
        &self.value
    }
}

impl<T: Drop> Shared<T> {
    /// The value, on the heap.
    ///
    /// # Errors
    ///
    /// Refuses where there is no memory for it.
    #[inline(always)]
    pub fn new(alloc: Global, value: T) -> Result<Self, Memory>
        ensures { IfOk result (λ shared. shared ≡ value) }
    {
        let value = Arc::new(alloc, value)?;
        Ok(Shared { value })
    }
}

impl<T: Drop> Clone for Shared<T> {
    ghost use Rattle.std.specs.Prelude.{◌≡◌};

    ghost is_clone = { λ x y. y ≡ x };

    fn clone(&self) -> Result<Self, AllocError> {
        Ok(Shared {
            value: self.value.clone()?,
        })
    }
}

impl<T: Drop> ExactClone for Shared<T> {
    ghost clones = { λ x y h. h };
}
