//! The codes of refusals in journal files.

// What servers refuse.
pub(crate) const DOWN: u64 = 11;

pub(crate) const ALREADY_UP: u64 = 12;

pub(crate) const ALREADY_DOWN: u64 = 13;

pub(crate) const HELD: u64 = 14;

pub(crate) const PREPARED: u64 = 15;

pub(crate) const NOT_LOCKED: u64 = 16;

pub(crate) const BAD_WRITES: u64 = 17;

pub(crate) const NOT_NEWER: u64 = 18;

pub(crate) const NOTHING_HERE: u64 = 19;

// What the desk refuses.
pub(crate) const NO_SUCH_TXN: u64 = 21;

pub(crate) const DECIDED: u64 = 22;

pub(crate) const BAD_EVIDENCE: u64 = 23;

pub(crate) const TOO_MANY_OPS: u64 = 24;

pub(crate) const TOO_MANY_FILES: u64 = 25;

// What the view refuses.
pub(crate) const NO_SUCH_SERVER: u64 = 31;

pub(crate) const BAD_COST: u64 = 32;

pub(crate) const BLOCKED: u64 = 33;
