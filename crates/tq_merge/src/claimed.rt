//! Names of entries that callers were told of: whether two are the same, and whether they rise.

ghost use Rattle.std.specs.Prelude.{◌≡◌, ◌≤◌, All, IfOk, length, MatchOption, ◌<◌};
ghost use Rattle.tq_merge.specs.Told.{IsWithin, IsClaimed, IsFallen, Rise};
ghost use Rattle.tq_merge.specs.Told as spec;

use crate::marks::{none_named, unnamed_in};
use std::alloc::Global;
use tq_shape::{Memory, Part};

/// What names come to that were told to callers.
#[derive(Clone, Copy, Debug, PartialEq, Eq)]
pub(crate) enum Claimed {
    /// The first that comes a second time.
    Twice(EntryName),
    /// No two are the same, and none is that of so many entries.
    Once { unclaimed: u64 },
}

/// Whether no two of the names are the same, and then how many entries none of them names. `counts` has for each part
/// how many entries it has. Answers an error only where memory is refused.
pub(crate) fn claim(alloc: Global, counts: &[u64], names: &[EntryName]) -> Result<Claimed, Memory>
    requires within { All (IsWithin counts.now) names.now }
    requires few { length counts.now ≤ 1048576 }
    requires short { All (λ count. count ≤ 1000000) counts.now }
    ensures { IfOk result (IsClaimed names.now counts.now) }
{
    let mut marks = none_named(alloc, counts)?;
    for name in names {
        let place = place_of(name.part, counts);
        if !marks[place].name(name.number) {
            return Ok(Claimed::Twice(*name));
        }
    }
    let unclaimed = unnamed_in(marks.as_slice());
    Ok(Claimed::Once { unclaimed })
}

/// The first name whose number does not rise above those of the same part before it; `None` where all do. `counts` has
/// for each part how many entries it has. Answers an error only where memory is refused.
pub(crate) fn first_fallen(
    alloc: Global,
    counts: &[u64],
    names: &[EntryName],
) -> Result<Option<EntryName>, Memory>
    requires { All (IsWithin counts.now) names.now }
    ensures { IfOk result (λ found. MatchOption found (Rise names.now) (IsFallen names.now)) }
{
    let mut last = vec![in alloc; 0; counts.len()]?;
    for name in names {
        let place = place_of(name.part, counts);
        if name.number <= last[place] {
            return Ok(Some(*name));
        }
        last[place] = name.number;
    }
    Ok(None)
}

/// The name of an entry: its part, and its number in the part's journal, from 1.
#[derive(Clone, Copy, Debug, PartialEq, Eq)]
pub struct EntryName {
    pub part: Part,
    pub number: u64,
}

/// Where the part stands in a list of all parts.
pub(crate) fn place_of(part: Part, counts: &[u64]) -> usize
    requires { spec.place_of part < length counts.now }
    ensures value { result ≡ spec.place_of part }
    ensures within { result < length counts.now }
{
    match part {
        Part::Desk => 0,
        Part::View => 1,
        Part::Server(server) => server as usize + 2,
    }
}
