//! The formats of journal files.

ghost use Rattle.std.specs.Prelude.{◌≡◌, ◌≤◌};
ghost use Rattle.tq_json.specs.Member as spec;

/// The formats of journal files that are read. The second alone is written.
#[derive(Clone, Copy, Debug, PartialEq, Eq)]
pub enum Format {
    /// The old one: one cost for each server, smaller trees and shorter contents.
    One,
    /// A cost for reading and one for writing.
    Two,
}

impl Format {
    /// The format of that number: `None` where there is none.
    pub fn of_number(number: u64) -> Option<Format>
        ensures { result ≡ spec.format_of number }
    {
        match number {
            1 => Some(Format::One),
            2 => Some(Format::Two),
            _ => None,
        }
    }

    /// Its number.
    pub fn number(self) -> u64
        ensures { result ≡ spec.format_number self }
    {
        match self {
            Format::One => 1,
            Format::Two => 2,
        }
    }

    /// The most levels of a tree in it.
    pub fn most_levels(self) -> u32
        ensures value { result ≡ spec.most_levels self }
        ensures within { result ≤ 10 }
    {
        match self {
            Format::One => 6,
            Format::Two => 10,
        }
    }

    /// The most bytes of a content in it.
    pub fn most_content(self) -> usize
        ensures value { result ≡ spec.most_content self }
        ensures within { result ≤ 4000 }
    {
        match self {
            Format::One => 1_000,
            Format::Two => 4_000,
        }
    }
}
