//! An entry of a journal, an ask and its reply, and what entries are read by.

ghost use Rattle.std.specs.Prelude.{◌≡◌, Some, refl};
ghost use Rattle.tq_json_read.specs.{Slots.made_by, Frame.{entry, entry_from}};

use crate::object::take_object;
use crate::parts::{FromReader, Taken};
use std::alloc::Global;
use tq_json::{Format, Reader};
use tq_shape::{Entry, Levels};

const ENTRY_NAMES: &[&str] = &["ask", "reply"];

impl<'a, A: FromReader<'a>, R: FromReader<'a>> FromReader<'a> for Entry<A, R> {
    ghost at = { λ plan. made_by
        (entry (λ value. A.at plan (Some value)) (λ value. R.at plan (Some value))) };

    ghost none = { λ plan. refl };

    fn read(
        alloc: Global,
        plan: &Plan,
        reader: &mut Reader<'a>,
        depth: usize,
    ) -> Taken<Entry<A, R>> {
        let (ask, (reply, ())) = take_object(alloc, plan, ENTRY_NAMES, reader, depth)?;
        Ok(entry_from(ask, reply))
    }
}

fn entry_from<A: Drop, R: Drop>(ask: Option<A>, reply: Option<R>) -> Option<Entry<A, R>>
    ensures { result ≡ entry_from ask reply }
{
    let ask = ask?;
    let reply = reply?;
    Some(Entry { ask, reply })
}

/// How deep arrays and objects may nest.
pub(crate) const MAX_DEPTH: usize = 127;

/// What the entries of a file are read by.
#[derive(Clone, Copy, Debug, PartialEq, Eq)]
pub struct Plan {
    /// The format of the file.
    pub(crate) format: Format,
    /// How many levels the tree has.
    pub(crate) levels: Levels,
    /// The most entries of a journal.
    pub(crate) limit: u32,
}
