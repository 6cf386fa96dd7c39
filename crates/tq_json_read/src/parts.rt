//! What the form makes of the next value of a reader, and lists of such values.
ghost use Rattle.std.specs.Prelude.{◌≡◌, ◌<◌, ◌≤◌, ◌↔◌, false, length, Some, None, Err, IfOk, OnOk, IsTrue, MatchOption};
ghost use Rattle.tq_json.specs.{Next.{next, next_items, Found}, Member.each};
ghost use Rattle.tq_json_read.specs.Slots.{within_cap, list_of};

use crate::entry::Plan;
use std::alloc::Global;
use tq_json::{NotRead, Reader, open_array, pass_items};
use tq_shape::Seq;

/// What the next value was found to be: `None` where it is not of the form.
pub type Taken<T> = Result<Option<T>, NotRead>;

/// What can be read from a reader.
pub trait FromReader<'a>: Sized + Drop {
    ghost use Rattle.std.specs.Prelude.{◌≡◌, ◌<◌, length, Option, Some, None, Err, IfOk, OnOk};
    ghost use Rattle.serde_json.specs.Data.{Data};
    ghost use Rattle.tq_json_read.specs.declared.entry.Plan.{Plan};
    ghost use Rattle.tq_json.specs.Next.{next, Found};

    /// What the form makes, by a plan, of what stands in one place: `None` where it is not of the form.
    ghost at: { Plan → Option Data → Option Self };

    /// What the next value is.
    fn read(alloc: Global, plan: &Plan, reader: &mut Reader<'a>, depth: usize) -> Taken<Self>
        ensures ok { IfOk result
            (Found (λ d item. item ≡ at plan.now (Some d)) (next depth reader.old) reader.new) }
        ensures err { result ≡ Err NotRead.NotJson → next depth reader.old ≡ None }
        ensures shorter { OnOk result (length reader.new < length reader.old) };

    /// Where nothing stands, it is none.
    ghost none: { (plan : Plan) → at plan None ≡ None };
}

/// The list that the next value is, of no more values than that: `None` where it is none.
pub(crate) fn take_list<'a, T: FromReader<'a>>(
    alloc: Global,
    plan: &Plan,
    most: Option<usize>,
    reader: &mut Reader<'a>,
    depth: usize,
) -> Taken<Seq<T>>
    ensures ok { IfOk result
        (Found (λ d list. list ≡ list_of (λ value. T.at plan.now (Some value)) most d)
        (next depth reader.old) reader.new) }
    ensures err { result ≡ Err NotRead.NotJson → next depth reader.old ≡ None }
    ensures shorter { OnOk result (length reader.new < length reader.old) }
{
    if !open_array(reader, depth)? {
        return Ok(None);
    }
    take_items(alloc, plan, most, reader, depth - 1)
}

/// The values up to the bracket of an array.
fn take_items<'a, T: FromReader<'a>>(
    alloc: Global,
    plan: &Plan,
    most: Option<usize>,
    reader: &mut Reader<'a>,
    depth: usize,
) -> Taken<Seq<T>>
    ensures ok { IfOk result
        (Found (λ ds list. list ≡ within_cap most (each (λ value. T.at plan.now (Some value)) ds))
        (next_items depth reader.old) reader.new) }
    ensures err { result ≡ Err NotRead.NotJson → next_items depth reader.old ≡ None }
    ensures shorter { OnOk result (length reader.new ≤ length reader.old) }
{
    let mut found = Vec::new(alloc);
    'items: while !reader.take_end_array() {
        let Some(item) = T::read(alloc, plan, reader, depth)? else {
            pass_items(reader, depth)?;
            return Ok(None);
        };
        if is_full(most, found.len()) {
            pass_items(reader, depth)?;
            return Ok(None);
        }
        found.reserve(1)?;
        found.push_reserved(item);
    }
    Ok(Some(Seq::from_vec(found)))
}

/// Whether there is a limit, and as many values as that.
fn is_full(most: Option<usize>, count: usize) -> bool
    ensures { MatchOption most (result ≡ false) (λ most. IsTrue result ↔ (most ≤ count)) }
{
    match most {
        Some(most) => most <= count,
        None => false,
    }
}
