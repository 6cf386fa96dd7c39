//! The limits of a system.

ghost use Rattle.std.specs.{Prelude.{◌≡◌, ◌≤◌, ◌↔◌, IsTrue}, Option.SomeIff};
ghost use Rattle.tq_shape.specs.Limits.{AreLimits, limits_of};

use std::marker::Model;

/// The most files that the commits of a system may write.
pub const MOST_FILES: u32 = 1000;

/// The most operations that a transaction may have.
pub const MOST_OPS: u32 = 64;

/// The most entries that a journal may have.
pub const MOST_ENTRIES: u32 = 1_000_000;

/// How many files may be written, how many operations a transaction may have, and how many entries a journal may have.
///
/// Each is at least 1 and at most [`MOST_FILES`], [`MOST_OPS`] and [`MOST_ENTRIES`].
#[derive(Clone, Copy, Debug, PartialEq, Eq)]
pub struct Limits {
    files: u32,
    ops: u32,
    entries: u32,
}

impl Model for Limits {
    ghost use Rattle.tq_shape.specs.Limits.{LimitsView, AreLimits};

    ghost Value = { LimitsView };

    ghost view = { λ limits. record {
      files = limits.files;
      ops = limits.ops;
      entries = limits.entries;
    } };

    ghost invariant = { λ limits. AreLimits limits.files limits.ops limits.entries };

    ghost inverse = { λ limits. record {
      files = limits.files;
      ops = limits.ops;
      entries = limits.entries;
    } };
}

impl Limits {
    /// The limits of those numbers: `None` where one is 0 or above its greatest value.
    pub fn new(files: u32, ops: u32, entries: u32) -> Option<Limits>
        ensures { SomeIff result (AreLimits files ops entries) (limits_of files ops entries) }
    {
        if is_within(files, MOST_FILES)
            && is_within(ops, MOST_OPS)
            && is_within(entries, MOST_ENTRIES)
        {
            Some(Limits {
                files,
                ops,
                entries,
            })
        } else {
            None
        }
    }

    /// The greatest limits.
    pub fn full() -> Limits
        ensures { result ≡ limits_of 1000 64 1000000 }
    {
        Limits {
            files: MOST_FILES,
            ops: MOST_OPS,
            entries: MOST_ENTRIES,
        }
    }

    /// The most files that commits write.
    pub fn files(self) -> u32
        ensures value { result ≡ self.files }
        ensures within { (1 ≤ result) × (result ≤ 1000) }
    {
        self.files
    }

    /// The most operations of a transaction.
    pub fn ops(self) -> u32
        ensures value { result ≡ self.ops }
        ensures within { (1 ≤ result) × (result ≤ 64) }
    {
        self.ops
    }

    /// The most entries of a journal.
    pub fn entries(self) -> u32
        ensures value { result ≡ self.entries }
        ensures within { (1 ≤ result) × (result ≤ 1000000) }
    {
        self.entries
    }
}

fn is_within(number: u32, most: u32) -> bool
    ensures { IsTrue result ↔ ((1 ≤ number) × (number ≤ most)) }
{
    1 <= number && number <= most
}
