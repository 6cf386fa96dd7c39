//! Objects: what stands at each of the names that are asked for, the last value of each name.
//!
//! The members of an object mostly come in the order of the names, so the name behind the last one is tried first.
ghost use Rattle.std.specs.Prelude.{◌≡◌, ◌&&◌, ◌<◌, ◌≤◌, false, drop, length, nat_le, None, Err, IfOk, OnOk, IsTrue, MatchOption};
ghost use Rattle.std.specs.Str.{bytes_eq};
ghost use Rattle.serde_json.specs.{Find.get_member, Data.Members};
ghost use Rattle.tq_json.specs.{Next.{next, next_members, Found, members_behind}, Plain.is_plain_name};
ghost use Rattle.tq_json_read.specs.Slots.{Names, names_of, with, slots_for, texts, IsNameAt, is_among, are_distinct, IsNameTaken, are_plain};

use crate::entry::Plan;
use crate::parts::{FromReader, Taken};
use std::alloc::Global;
use tq_json::{NotRead, Reader, is_text, open_object, pass_over};

/// Room for what stands at names, one slot for each name.
pub(crate) trait Slots<'a>: Sized + Drop {
    ghost use Rattle.std.specs.Prelude.{◌≡◌, ◌<◌, ◌≤◌, false, drop, length, None, Err, IfOk, OnOk, IsTrue, MatchOption};
    ghost use Rattle.tq_json_read.specs.declared.entry.Plan.{Plan};
    ghost use Rattle.tq_json_read.specs.Slots.{Slots as Values, with_slot, texts, is_among, are_distinct, IsNameAt, HasNone, IsTakenInOrder, are_plain};
    ghost use Rattle.tq_json.specs.Next.{members_behind, next, Found};
    ghost use Rattle.serde_json.specs.Data.{Members};

    /// What they are, by a plan, of the values in them.
    ghost of: { Plan → Values → Self };

    fn empty(plan: &Plan) -> Self
        ensures { result ≡ of plan.now (λ place. None) };

    /// A place of the name from the first on, by a look at each slot from that one on: one comparison each in a program.
    fn first_place(names: &[&str], slot: usize, first: usize, name: &str) -> Option<usize>
        ensures { MatchOption result
            (first ≤ slot → is_among name.now (drop slot (texts names.now)) ≡ false)
            (IsNameAt name.now (texts names.now)) };

    /// Takes the members that come next in the order of the names, from a slot on.
    fn take_in_order(
        alloc: Global,
        plan: &Plan,
        names: &[&str],
        slot: usize,
        reader: &mut Reader<'a>,
        depth: usize,
    ) -> Result<Self, NotRead>
        requires distinct { IsTrue (are_distinct (drop slot (texts names.now))) }
        requires plain { IsTrue (are_plain (drop slot (texts names.now))) }
        ensures ok { (old : Members) → HasNone (drop slot (texts names.now)) old → IfOk result
            (λ slots. IsTakenInOrder (of plan.now) (drop slot (texts names.now)) old
            (members_behind old depth reader.old) depth slots reader.new) }
        ensures err { (old : Members) → HasNone (drop slot (texts names.now)) old
            → result ≡ Err NotRead.NotJson → members_behind old depth reader.old ≡ None }
        ensures shorter { OnOk result (length reader.new ≤ length reader.old) };

    /// Takes the next value into the slot at that place, and passes it over where there is none.
    fn put(
        &mut self,
        alloc: Global,
        plan: &Plan,
        place: usize,
        reader: &mut Reader<'a>,
        depth: usize,
    ) -> Result<(), NotRead>
        ensures ok { (values : Values) → self.old ≡ of plan.now values → IfOk result
            (Found (λ d u. self.new ≡ of plan.now (with_slot place d values))
            (next depth reader.old) reader.new) }
        ensures err { result ≡ Err NotRead.NotJson → next depth reader.old ≡ None }
        ensures shorter { OnOk result (length reader.new < length reader.old) };
}

impl<'a> Slots<'a> for () {
    ghost of = { λ plan values. tt };

    fn empty(_plan: &Plan) -> () {}

    #[inline(always)]
    fn first_place(names: &[&str], slot: usize, _first: usize, name: &str) -> Option<usize> {
        if slot >= names.len() {
            return None;
        }
        place_from(names, name, slot)
    }

    #[inline(always)]
    fn take_in_order(
        _alloc: Global,
        _plan: &Plan,
        _names: &[&str],
        _slot: usize,
        _reader: &mut Reader<'a>,
        _depth: usize,
    ) -> Result<(), NotRead> {
        Ok(())
    }

    fn put(
        &mut self,
        _alloc: Global,
        _plan: &Plan,
        _place: usize,
        reader: &mut Reader<'a>,
        depth: usize,
    ) -> Result<(), NotRead> {
        pass_over(reader, depth)
    }
}

impl<'a, T: FromReader<'a>, R: Slots<'a>> Slots<'a> for (Option<T>, R) {
    ghost use Rattle.std.specs.Prelude.{zero, suc};

    ghost of = { λ plan values.
        (T.at plan (values zero), R.of plan (λ place. values (suc place))) };

    fn empty(plan: &Plan) -> (Option<T>, R) {
        (None, R::empty(plan))
    }

    #[inline(always)]
    fn first_place(names: &[&str], slot: usize, first: usize, name: &str) -> Option<usize> {
        if slot >= names.len() {
            return None;
        }
        if is_wanted(first, slot, names[slot], name) {
            return Some(slot);
        }
        R::first_place(names, slot + 1, first, name)
    }

    #[inline(always)]
    fn take_in_order(
        alloc: Global,
        plan: &Plan,
        names: &[&str],
        slot: usize,
        reader: &mut Reader<'a>,
        depth: usize,
    ) -> Result<(Option<T>, R), NotRead> {
        if slot >= names.len() {
            return Ok((None, R::empty(plan)));
        }
        let first = take_named(alloc, plan, names[slot], reader, depth)?;
        let rest = R::take_in_order(alloc, plan, names, slot + 1, reader, depth)?;
        Ok((first, rest))
    }

    fn put(
        &mut self,
        alloc: Global,
        plan: &Plan,
        place: usize,
        reader: &mut Reader<'a>,
        depth: usize,
    ) -> Result<(), NotRead> {
        if place > 0 {
            return self.1.put(alloc, plan, place - 1, reader, depth);
        }
        self.0 = T::read(alloc, plan, reader, depth)?;
        Ok(())
    }
}

/// What stands at these names in the next value, which may be no object.
#[inline(always)]
pub(crate) fn take_object<'a, S: Slots<'a>>(
    alloc: Global,
    plan: &Plan,
    names: &[&str],
    reader: &mut Reader<'a>,
    depth: usize,
) -> Result<S, NotRead>
    requires distinct { IsTrue (are_distinct (texts names.now)) }
    requires plain { IsTrue (are_plain (texts names.now)) }
    ensures ok { IfOk result
        (Found (λ d slots. slots ≡ S.of plan.now (slots_for names.now (names_of d)))
        (next depth reader.old) reader.new) }
    ensures err { result ≡ Err NotRead.NotJson → next depth reader.old ≡ None }
    ensures shorter { OnOk result (length reader.new < length reader.old) }
{
    if !open_object(reader, depth)? {
        return Ok(S::empty(plan));
    }
    take_members(alloc, plan, names, reader, depth - 1)
}

/// What stands at these names in the members up to the brace of an object.
#[inline(always)]
fn take_members<'a, S: Slots<'a>>(
    alloc: Global,
    plan: &Plan,
    names: &[&str],
    reader: &mut Reader<'a>,
    depth: usize,
) -> Result<S, NotRead>
    requires distinct { IsTrue (are_distinct (texts names.now)) }
    requires plain { IsTrue (are_plain (texts names.now)) }
    ensures ok { IfOk result
        (Found (λ ms slots. slots ≡ S.of plan.now
        (slots_for names.now (λ name. get_member name ms)))
        (next_members depth reader.old) reader.new) }
    ensures err { result ≡ Err NotRead.NotJson → next_members depth reader.old ≡ None }
    ensures shorter { OnOk result (length reader.new ≤ length reader.old) }
{
    let slots = S::take_in_order(alloc, plan, names, 0, reader, depth)?;
    if reader.take_end_object() {
        return Ok(slots);
    }
    take_others(alloc, plan, names, slots, reader, depth)
}

/// The same where some members were taken.
#[inline(never)]
fn take_others<'a, S: Slots<'a>>(
    alloc: Global,
    plan: &Plan,
    names: &[&str],
    taken: S,
    reader: &mut Reader<'a>,
    depth: usize,
) -> Result<S, NotRead>
    requires { IsTrue (are_distinct (texts names.now)) }
    ensures ok { (old : Members)
        → taken ≡ S.of plan.now (slots_for names.now (λ name. get_member name old)) → IfOk result
        (Found (λ ms slots. slots ≡ S.of plan.now
        (slots_for names.now (λ name. get_member name ms)))
        (members_behind old depth reader.old) reader.new) }
    ensures err { (old : Members)
        → taken ≡ S.of plan.now (slots_for names.now (λ name. get_member name old))
        → result ≡ Err NotRead.NotJson → members_behind old depth reader.old ≡ None }
    ensures shorter { OnOk result (length reader.new ≤ length reader.old) }
{
    let mut slots = taken;
    let mut expected = 0;
    'members: while let Some(name) = reader.next_key()? {
        expected = take_member(
            alloc, plan, names, name, expected, &mut slots, reader, depth,
        )?;
    }
    Ok(slots)
}

/// Takes the member that is next, where it has this name as the product writes it.
#[inline(always)]
fn take_named<'a, T: FromReader<'a>>(
    alloc: Global,
    plan: &Plan,
    name: &str,
    reader: &mut Reader<'a>,
    depth: usize,
) -> Result<Option<T>, NotRead>
    requires { IsTrue (is_plain_name name.now) }
    ensures ok { (old : Members) → get_member name.now old ≡ None → IfOk result
        (λ it. IsNameTaken (T.at plan.now) name.now old
        (members_behind old depth reader.old) depth it reader.new) }
    ensures err { (old : Members) → result ≡ Err NotRead.NotJson
        → members_behind old depth reader.old ≡ None }
    ensures shorter { OnOk result (length reader.new ≤ length reader.old) }
{
    if reader.take_key_named(name) {
        return T::read(alloc, plan, reader, depth);
    }
    Ok(None)
}

/// Takes the value of a member of that name, and tells the place of the name that is expected next.
#[inline(always)]
fn take_member<'a, S: Slots<'a>>(
    alloc: Global,
    plan: &Plan,
    names: &[&str],
    name: &str,
    expected: usize,
    slots: &mut S,
    reader: &mut Reader<'a>,
    depth: usize,
) -> Result<usize, NotRead>
    requires { IsTrue (are_distinct (texts names.now)) }
    ensures ok { (found : Names) → slots.old ≡ S.of plan.now (slots_for names.now found)
        → IfOk result
        (Found (λ d u. slots.new ≡ S.of plan.now (slots_for names.now (with name.now d found)))
        (next depth reader.old) reader.new) }
    ensures err { result ≡ Err NotRead.NotJson → next depth reader.old ≡ None }
    ensures shorter { OnOk result (length reader.new < length reader.old) }
{
    let Some(place) = place_of::<S>(names, name, expected) else {
        pass_over(reader, depth)?;
        return Ok(expected);
    };
    slots.put(alloc, plan, place, reader, depth)?;
    Ok(place + 1)
}

/// The place of the name among these, the one that is expected first.
#[inline(always)]
fn place_of<'a, S: Slots<'a>>(names: &[&str], name: &str, expected: usize) -> Option<usize>
    ensures { MatchOption result (is_among name.now (texts names.now) ≡ false)
        (IsNameAt name.now (texts names.now)) }
{
    match S::first_place(names, 0, expected, name) {
        Some(place) => Some(place),
        None => place_from(names, name, 0),
    }
}

/// Whether the name in a slot is this one, and the slot is none before the first.
#[inline(always)]
fn is_wanted(first: usize, slot: usize, key: &str, name: &str) -> bool
    ensures { result ≡ (nat_le first slot && bytes_eq name.now key.now) }
{
    if first > slot {
        return false;
    }
    is_text(name, key)
}

/// The first place of the name from that one on.
#[inline(never)]
fn place_from(names: &[&str], name: &str, first: usize) -> Option<usize>
    ensures { MatchOption result (is_among name.now (drop first (texts names.now)) ≡ false)
        (IsNameAt name.now (texts names.now)) }
{
    let mut place = first;
    'names: while place < names.len() {
        if is_text(name, names[place]) {
            return Some(place);
        }
        place += 1;
    }
    None
}
