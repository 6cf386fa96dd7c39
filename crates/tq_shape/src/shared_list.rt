//! Lists that their clones share.

ghost use Rattle.std.specs.Prelude.{◌≡◌, [], IfErr, IfOk, length, ◌↔◌, IsTrue};

use crate::ExactClone;
use std::alloc::{AllocError, AllocFailed};
use std::marker::Model;
use std::sync::Arc;

/// A list of values that its clones share: a clone is a count, not a copy. Contracts see it as the list alone, as they
/// see a `Seq`.
pub struct SharedSeq<T> {
    items: Arc<Vec<T>>,
}

// Written out, so that a crate above lets go of one by a call.
impl<T: Drop> Drop for SharedSeq<T> {
    #[inline(always)]
    fn drop(self) {
        let Self { items: _ } = self;
    }
}

impl<T> Model for SharedSeq<T> {
    ghost use Rattle.std.specs.{Prelude.{List, vec_items}, Coded.coded_list, Arc.arc_value};

    ghost Value = { List T };

    ghost coded = { coded_list T.code };

    ghost view = { λ a. vec_items (arc_value a.items) };
}

impl<T> SharedSeq<T> {
    /// The values, in order.
    pub fn as_slice(&self) -> &[T]
        ensures { result.now ≡ self.now }
    {
        self.items.as_slice()
    }

    /// How many values there are.
    pub fn len(&self) -> usize
        ensures { result ≡ length self.now }
    {
        self.as_slice().len()
    }

    /// Whether there is no value.
    pub fn is_empty(&self) -> bool
        ensures { IsTrue result ↔ (self.now ≡ []) }
    {
        self.as_slice().is_empty()
    }
}

impl<T: Drop> SharedSeq<T> {
    /// The list that a vector holds.
    ///
    /// # Errors
    ///
    /// Gives the vector back where there is no memory for what clones will share.
    pub fn from_vec(items: Vec<T>) -> Result<Self, AllocFailed<Vec<T>>>
        ensures list { IfOk result (λ list. list ≡ items.items) }
        ensures back { IfErr result (λ refused. refused.value ≡ items) }
    {
        let items = Arc::new(*items.allocator(), items)?;
        Ok(SharedSeq { items })
    }
}

impl<T: Drop> Clone for SharedSeq<T> {
    ghost use Rattle.std.specs.Prelude.{◌≡◌};

    ghost is_clone = { λ x y. y ≡ x };

    fn clone(&self) -> Result<Self, AllocError> {
        Ok(SharedSeq {
            items: self.items.clone()?,
        })
    }
}

impl<T: PartialEq> PartialEq for SharedSeq<T> {
    ghost use Rattle.std.specs.Cmp.Lexicographic.{lists_per, pointwise};

    ghost eq = { pointwise T.eq };

    ghost laws = { lists_per T.laws };

    fn eq(&self, other: &Self) -> bool {
        self.as_slice() == other.as_slice()
    }
}

impl<T: Drop> ExactClone for SharedSeq<T> {
    ghost clones = { λ x y h. h };
}
