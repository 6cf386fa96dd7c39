//! How many levels a tree has.

ghost use Rattle.std.specs.Prelude.{◌≡◌, ℕ, ◌+◌, ◌-◌, ◌^◌, ◌<◌, ◌≤◌};

use std::marker::Model;

/// The most levels that a tree has.
pub const MOST_LEVELS: u32 = 10;

/// How many levels a complete binary tree of servers has, from 1 to [`MOST_LEVELS`].
///
/// Contracts see it as the number.
#[derive(Clone, Copy, Debug, PartialEq, Eq)]
pub struct Levels {
    pub(crate) count: u8,
}

impl Model for Levels {
    ghost Value = { ℕ };

    ghost view = { λ levels. levels.count };

    ghost invariant = { λ levels. (1 ≤ levels.count) × (levels.count ≤ 10) };

    ghost inverse = { λ count. record { count = count } };
}

impl Levels {
    ghost use Rattle.std.specs.{Prelude.{◌≡◌, ◌+◌, ◌-◌, ◌^◌, ◌<◌, ◌≤◌}, Option.SomeIff};

    /// The levels of that count, if there is such a tree: `None` for 0 and above [`MOST_LEVELS`].
    pub fn new(count: u32) -> Option<Levels>
        ensures { SomeIff result ((1 ≤ count) × (count ≤ 10)) count }
    {
        if 1 <= count && count <= MOST_LEVELS {
            Some(Levels { count: count as u8 })
        } else {
            None
        }
    }

    /// How many levels there are.
    pub fn count(self) -> u32
        ensures value { result ≡ self }
        ensures least { 1 ≤ result }
        ensures most { result ≤ 10 }
    {
        u32::from(self.count)
    }

    /// The number of servers, which is also the greatest of their numbers.
    pub fn servers(self) -> u64
        ensures value { result + 1 ≡ 2 ^ self }
        ensures most { result < 2 ^ 10 }
    {
        (1u64 << self.count) - 1
    }
}

/// One level, as fills the unused places of a list.
impl Default for Levels {
    ghost is_default = { λ levels. levels ≡ 1 };

    fn default() -> Levels {
        Levels { count: 1 }
    }
}
