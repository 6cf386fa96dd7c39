//! What callers were told, compared with journals.

ghost use Rattle.std.specs.Prelude.{◌≡◌, IfOk};
ghost use Rattle.tq_merge.specs.Told.{IsCompared};

use crate::claimed::{Claimed, EntryName, claim, first_fallen};
use crate::lengths::counts;
use crate::names::{Names, names_told};
use std::alloc::Global;
use tq_shape::{Memory, Seq};
use tq_tables::Journals;
use tq_txn::Exchange;

/// What comes of comparing what callers were told with journals.
#[derive(Clone, Copy, Debug, PartialEq, Eq)]
pub enum Comparison {
    /// All that they were told stands in the journals, each entry told once, at each part in rising order to each of
    /// them. Of so many entries none was told.
    Kept { unclaimed: u64 },
    /// What was told of this entry does not stand there, or did not rise, or was told before.
    Differs(EntryName),
}

/// Compares what each of these callers was told with the journals. Answers an error only where memory is refused.
pub fn compare(
    alloc: Global,
    journals: &Journals,
    callers: &[Seq<Exchange>],
) -> Result<Comparison, Memory>
    ensures { IfOk result (IsCompared journals.now callers.now) }
{
    let counts = counts(alloc, journals)?;
    let mut all = Vec::new(alloc);
    for told in callers {
        let mut names = match names_told(alloc, journals, told.as_slice())? {
            Names::Stand(names) => names,
            Names::Stray(name) => return Ok(Comparison::Differs(name)),
        };
        if let Some(name) = first_fallen(alloc, counts.as_slice(), names.as_slice())? {
            return Ok(Comparison::Differs(name));
        }
        all.append(&mut names)?;
    }
    match claim(alloc, counts.as_slice(), all.as_slice())? {
        Claimed::Twice(name) => Ok(Comparison::Differs(name)),
        Claimed::Once { unclaimed } => Ok(Comparison::Kept { unclaimed }),
    }
}
