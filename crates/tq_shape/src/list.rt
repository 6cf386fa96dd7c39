//! Lists that contracts see as lists.

ghost use Rattle.std.specs.Prelude.{◌≡◌, [], length, ◌↔◌, IsTrue};

use std::alloc::{AllocError, Global};
use std::marker::Model;

/// A type whose clones are equal to their source, as contracts see them.
pub trait ExactClone: Clone {
    ghost use Rattle.std.specs.Prelude.{◌≡◌};

    ghost clones: { (x y : Self) → Self.is_clone x y → y ≡ x };
}

/// A list of values. Contracts see it as the list alone, so that equal lists are equal values.
#[derive(Debug)]
pub struct Seq<T> {
    items: Vec<T>,
}

// Written out, so that a crate above lets go of one by a call.
impl<T: Drop> Drop for Seq<T> {
    #[inline]
    fn drop(self) {
        let Self { items: _ } = self;
    }
}

impl<T> Model for Seq<T> {
    ghost use Rattle.std.specs.{Prelude.List, Coded.coded_list};

    ghost Value = { List T };

    ghost coded = { coded_list T.code };

    ghost view = { λ a. a.items.items };
}

impl<T> Seq<T> {
    /// The list that a vector holds. It takes no memory.
    pub fn from_vec(items: Vec<T>) -> Self
        ensures { result ≡ items.items }
    {
        Seq { items }
    }

    /// The vector that the list was made of.
    pub fn into_vec(self) -> Vec<T>
        ensures { result.items ≡ self }
    {
        let Self { items } = self;
        items
    }

    /// The values, in order.
    pub fn as_slice(&self) -> &[T]
        ensures { result.now ≡ self.now }
    {
        self.items.as_slice()
    }

    /// How many values there are.
    pub fn len(&self) -> usize
        ensures { result ≡ length self.now }
    {
        self.items.len()
    }

    /// Whether there is no value.
    pub fn is_empty(&self) -> bool
        ensures { IsTrue result ↔ (self.now ≡ []) }
    {
        self.items.is_empty()
    }
}

impl<T: ExactClone> Clone for Seq<T> {
    ghost is_clone = { λ x y. y ≡ x };

    fn clone(&self) -> Result<Self, AllocError> {
        Ok(Seq {
            items: self.items.clone()?,
        })
    }
}

impl<T: PartialEq> PartialEq for Seq<T> {
    ghost use Rattle.std.specs.Cmp.Lexicographic.{lists_per, pointwise};

    ghost eq = { pointwise T.eq };

    ghost laws = { lists_per T.laws };

    fn eq(&self, other: &Self) -> bool {
        self.items.as_slice() == other.items.as_slice()
    }
}

impl<T: ExactClone> ExactClone for Seq<T> {
    ghost clones = { λ x y h. h };
}

impl ExactClone for u64 {
    ghost use Rattle.std.proofs.Common.{rules};

    ghost clones = { Prim.search rules };
}
