//! `value_from_json`.

ghost use Rattle.std.specs.Prelude.{Some, IfOk};
ghost use Rattle.tq_json_read.specs.Frame.{IsAlone, plan_alone};

use crate::entry::Plan;
use crate::parts::FromReader;
use crate::read::whole_text;
use std::alloc::{AllocError, Global};
use tq_json::{Format, NotRead, Scratch, text_of_bytes};
use tq_shape::{Levels, MOST_ENTRIES, Memory};

/// The ask, reply or entry of a part that a text is in format 2, as in journal files: `None` where the text is no JSON or its value is
/// not of that form. White space may stand round the value. A quorum in a reply of the view is one of a tree of so many levels;
/// nothing else needs them. Answers an error only where memory is refused.
pub fn value_from_json<'a, T: FromReader<'a>>(
    alloc: Global,
    levels: Levels,
    text: &'a [u8],
    scratch: &'a mut Scratch,
) -> Result<Option<T>, Memory>
    ensures { IfOk result (IsAlone (λ value. T.at (plan_alone levels) (Some value)) text.now) }
{
    let Some(text) = text_of_bytes(text) else {
        return Ok(None);
    };
    let plan = Plan {
        format: Format::Two,
        levels,
        limit: MOST_ENTRIES,
    };
    match whole_text(alloc, &plan, text, scratch) {
        Ok(value) => Ok(value),
        Err(NotRead::NotJson) => Ok(None),
        Err(NotRead::Memory) => Err(AllocError),
    }
}
