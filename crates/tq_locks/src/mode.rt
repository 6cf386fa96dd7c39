//! Modes and locks.

ghost use Rattle.std.specs.Prelude.{◌≡◌};
ghost use Rattle.tq_locks.specs.Locks as spec;

use tq_shape::ExactClone;

/// How a lock is held.
#[derive(Debug, Clone, Copy, PartialEq, Eq)]
pub enum Mode {
    Shared,
    Exclusive,
}

/// A lock, from the entry that granted it first without a break.
#[derive(Debug, Clone, Copy, PartialEq, Eq)]
pub struct Lock {
    pub mode: Mode,
    /// The number of that entry.
    pub since: u64,
    /// The version of the copy then.
    pub version: u64,
    /// A vote has made it stable.
    pub stable: bool,
}

impl Mode {
    /// Whether two transactions may not hold these on one file: shared agrees with shared only.
    pub fn conflicts_with(self, other: Mode) -> bool
        ensures { result ≡ spec.conflicts self other }
    {
        !(self == Mode::Shared && other == Mode::Shared)
    }

    /// Exclusive where one of the two is.
    pub fn stronger(self, other: Mode) -> Mode
        ensures { result ≡ spec.stronger self other }
    {
        match self {
            Mode::Exclusive => Mode::Exclusive,
            Mode::Shared => other,
        }
    }

    /// The word for it.
    pub fn word(self) -> &'static str
        ensures { result.now ≡ spec.mode_text self }
    {
        match self {
            Mode::Shared => "shared",
            Mode::Exclusive => "exclusive",
        }
    }
}

impl Lock {
    /// The lock after a grant: one that is held keeps `since`, and the stronger mode.
    pub fn after(held: Option<Lock>, mode: Mode, number: u64, version: u64) -> Lock
        ensures { result ≡ spec.lock_after held mode number version }
    {
        match held {
            Some(lock) => Lock {
                mode: lock.mode.stronger(mode),
                since: lock.since,
                version: lock.version,
                stable: lock.stable,
            },
            None => Lock {
                mode,
                since: number,
                version,
                stable: false,
            },
        }
    }
}

impl ExactClone for Mode {
    ghost use Rattle.std.proofs.Common.{rules};

    ghost clones = { Prim.search rules };
}

impl ExactClone for Lock {
    ghost use Rattle.std.proofs.Common.{rules};

    ghost clones = { Prim.search rules };
}
