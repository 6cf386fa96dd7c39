//! The contents of files.

ghost use Rattle.std.specs.Prelude.{◌≡◌, ◌↔◌, ◌≤◌, [], IfOk, IfSome, IsSome, IsTrue, length, nat_eq};
ghost use Rattle.std.specs.Cmp.Lexicographic.{pointwise};

use std::alloc::AllocError;
use std::marker::Model;
use std::sync::ArcSlice;
use tq_shape::ExactClone;

/// The most bytes that a content has.
pub const MAX_CONTENT: usize = 4000;

/// What a file holds: up to `MAX_CONTENT` bytes, of any kind. Clones share the bytes: a clone is a count, not a copy.
pub struct Content {
    /// None where there is no byte.
    bytes: Option<ArcSlice<u8>>,
}

// Written out, so that a crate above lets go of one by a call.
impl Drop for Content {
    #[inline]
    fn drop(self) {
        let Self { bytes: _ } = self;
    }
}

impl Model for Content {
    ghost use Rattle.std.specs.{Prelude.{◌≤◌, List, ℕ, [], length}, Coded.{coded_list, coded_ℕ}, Arc.arc_slice_items};
    ghost use Rattle.std.specs.Option.{option_map_or};

    ghost Value = { List ℕ };

    ghost coded = { coded_list coded_ℕ };

    ghost view = { λ a. option_map_or arc_slice_items a.bytes [] };

    ghost invariant = { λ a. length (option_map_or arc_slice_items a.bytes []) ≤ 4000 };
}

impl Content {
    /// The content of a file that was never written.
    pub fn empty() -> Content
        ensures { result ≡ [] }
    {
        Content { bytes: None }
    }

    /// The content of these bytes, unless there are too many.
    ///
    /// # Errors
    ///
    /// Refuses where there is no memory for what clones will share.
    pub fn new(bytes: Vec<u8>) -> Result<Option<Content>, AllocError>
        ensures exact { IfOk result (λ content. IsSome content ↔ (length bytes.items ≤ 4000)) }
        ensures value { IfOk result (λ content. IfSome content (λ content. content ≡ bytes.items)) }
    {
        if bytes.len() > MAX_CONTENT {
            return Ok(None);
        }
        if bytes.is_empty() {
            return Ok(Some(Content::empty()));
        }
        let bytes = Some(ArcSlice::from_vec(bytes)?);
        Ok(Some(Content { bytes }))
    }

    /// The bytes, in order.
    pub fn as_bytes(&self) -> &[u8]
        ensures value { result.now ≡ self.now }
        ensures short { length self.now ≤ 4000 }
    {
        match &self.bytes {
            Some(bytes) => bytes.as_slice(),
            None => &[],
        }
    }

    /// How many bytes there are.
    pub fn len(&self) -> usize
        ensures value { result ≡ length self.now }
        ensures short { result ≤ 4000 }
    {
        self.as_bytes().len()
    }

    /// Whether there is no byte.
    pub fn is_empty(&self) -> bool
        ensures { IsTrue result ↔ (self.now ≡ []) }
    {
        self.as_bytes().is_empty()
    }
}

impl Clone for Content {
    ghost use Rattle.std.specs.Prelude.{◌≡◌};

    ghost is_clone = { λ x y. y ≡ x };

    fn clone(&self) -> Result<Self, AllocError> {
        Ok(Content {
            bytes: self.bytes.clone()?,
        })
    }
}

impl PartialEq for Content {
    ghost use Rattle.std.{specs.{Prelude.nat_eq, Cmp.Lexicographic.pointwise}, proofs.Common.rules};

    ghost eq = { pointwise nat_eq };

    ghost laws = { Prim.search rules };

    fn eq(&self, other: &Self) -> bool
        ensures test { result ≡ pointwise nat_eq self.now other.now }
        ensures exact { IsTrue result ↔ (self.now ≡ other.now) }
    {
        self.as_bytes() == other.as_bytes()
    }
}

impl ExactClone for Content {
    ghost clones = { λ x y h. h };
}
