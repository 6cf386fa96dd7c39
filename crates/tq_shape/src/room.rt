//! Room that is made before it is used.

ghost use Rattle.std.specs.Prelude.{◌≡◌, ◌+◌, ◌<◌, ◌≤◌, vec_len, vec_capacity, OnOk, OnErr};

use std::alloc::AllocError;

/// Makes room for this many items behind those of the list. A list that lacks it gets room for three times its items more,
/// so that a long one is seldom moved as it grows; where so much is refused, for this many.
#[inline(always)]
pub fn make_room<T>(list: &mut Vec<T>, additional: usize) -> Result<(), AllocError>
    ensures items { list.new.items ≡ list.old.items }
    ensures len { vec_len list.new ≡ vec_len list.old }
    ensures room { OnOk result (vec_len list.new + additional ≤ vec_capacity list.new) }
    ensures full { OnErr result (vec_capacity list.old < vec_len list.old + additional) }
{
    if additional <= list.capacity() - list.len() {
        return Ok(());
    }
    let more = list.len().saturating_mul(3).max(additional).max(LEAST);
    if list.reserve(more).is_ok() {
        return Ok(());
    }
    list.reserve(additional)
}

/// How many items a list that has none gets room for, at least.
const LEAST: usize = 8;
