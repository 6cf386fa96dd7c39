//! A first look at a file, for the plan that it is read by. Whatever it says, the plan that the file gives decides.
use crate::entry::{MAX_DEPTH, Plan};
use crate::file::plan_from;
use crate::object::take_object;
use memchr::memmem;
use std::alloc::Global;
use tq_json::{Format, NotRead, Reader, Scratch};
use tq_shape::{Levels, MOST_ENTRIES};

/// How the member begins that says the format.
const FORMAT: &[u8] = b"\"format\":";

/// The plan that a file gives first: any plan, where it gives none.
pub(crate) fn first_plan(alloc: Global, text: &str, scratch: &mut Scratch) -> Plan {
    if let Some(plan) = written_plan(text.as_bytes()) {
        return plan;
    }
    let plan = Plan {
        format: Format::Two,
        levels: Levels::default(),
        limit: MOST_ENTRIES,
    };
    match glance(alloc, &plan, text, scratch) {
        Ok(Some(found)) => found,
        _ => plan,
    }
}

/// The plan where it stands as the product writes it: so what is before it is not read for it.
fn written_plan(text: &[u8]) -> Option<Plan> {
    let at = memmem::find(text, FORMAT)?;
    let (format, text) = number_behind(FORMAT, &text[at..])?;
    let (levels, text) = number_behind(b",\"levels\":", text)?;
    let (entries, _) = number_behind(b",\"limits\":{\"entries\":", text)?;
    Some(Plan {
        format: Format::of_number(format as u64)?,
        levels: Levels::new(levels)?,
        limit: entries,
    })
}

/// The number behind these bytes, with which the text begins, and the rest.
fn number_behind<'a>(before: &[u8], text: &'a [u8]) -> Option<(u32, &'a [u8])> {
    let text = text.strip_prefix(before)?;
    let mut number: u32 = 0;
    for (place, byte) in text.iter().enumerate() {
        if !byte.is_ascii_digit() {
            return Some((number, &text[place..]));
        }
        number = number
            .saturating_mul(10)
            .saturating_add((*byte - b'0') as u32);
    }
    Some((number, &[]))
}

const PLAN_NAMES: &[&str] = &["format", "levels", "limits"];

fn glance(
    alloc: Global,
    plan: &Plan,
    text: &str,
    scratch: &mut Scratch,
) -> Result<Option<Plan>, NotRead> {
    let mut reader = Reader::new(text, scratch);
    let (format, (levels, (limits, ()))) = take_object(
        alloc,
        plan,
        PLAN_NAMES,
        &mut reader,
        MAX_DEPTH,
    )?;
    Ok(plan_from(format, levels, limits))
}
