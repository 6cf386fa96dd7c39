//! The words of bits that a set of servers is made of.

ghost use Rattle.std.specs.Prelude.{◌≡◌, ◌∷◌, ◌+◌, ◌<◌, IfOk, length, replicate, slice_index, slice_set};

use crate::Memory;
use std::alloc::{AllocError, Global};
use std::marker::Model;

/// A list of words that never has none, nor another length. The first word stands in place, the others in one block; where
/// there are no others, there is no block.
///
/// Contracts see it as the list.
pub(crate) struct Words {
    first: u64,
    more: Vec<u64>,
}

// Written out, so that a crate above lets go of one by a call.
impl Drop for Words {
    fn drop(self) {
        let Self { first: _, more: _ } = self;
    }
}

impl Model for Words {
    ghost use Rattle.std.specs.{Prelude.{ℕ, List, ◌∷◌}, Coded.{coded_list, coded_ℕ}};

    ghost Value = { List ℕ };

    ghost coded = { coded_list coded_ℕ };

    ghost view = { λ words. words.first ∷ words.more.items };
}

impl Words {
    /// One word and so many more, all 0. It takes memory where there are more.
    ///
    /// # Errors
    ///
    /// Refuses where there is no memory for the others.
    pub(crate) fn zeros(alloc: Global, more: usize) -> Result<Words, Memory>
        ensures { IfOk result (λ words. words ≡ replicate (more + 1) 0) }
    {
        let more = vec![in alloc; 0; more]?;
        Ok(Words { first: 0, more })
    }

    /// The word at that place.
    pub(crate) fn get(&self, place: usize) -> u64
        requires { place < length self.now }
        ensures { result ≡ slice_index self.now place }
    {
        if place == 0 {
            return self.first;
        }
        self.more[place - 1]
    }

    /// Puts another word at that place.
    pub(crate) fn put(&mut self, place: usize, word: u64)
        requires { place < length self.old }
        ensures { self.new ≡ slice_set self.old place word }
    {
        if place == 0 {
            self.first = word;
            return;
        }
        self.more[place - 1] = word;
    }

    /// Makes all words 0.
    pub(crate) fn clear(&mut self)
        ensures { self.new ≡ replicate (length self.old) 0 }
    {
        self.first = 0;
        self.more.fill(0);
    }

    /// The first word.
    pub(crate) fn first(&self) -> u64
        ensures { result ≡ slice_index self.now 0 }
    {
        self.first
    }

    /// The words behind the first.
    pub(crate) fn more(&self) -> &[u64]
        ensures { self.now ≡ slice_index self.now 0 ∷ result.now }
    {
        self.more.as_slice()
    }
}

impl Clone for Words {
    ghost use Rattle.std.specs.Prelude.{◌≡◌};

    ghost is_clone = { λ words copy. copy ≡ words };

    fn clone(&self) -> Result<Self, AllocError> {
        Ok(Words {
            first: self.first,
            more: self.more.clone()?,
        })
    }
}
