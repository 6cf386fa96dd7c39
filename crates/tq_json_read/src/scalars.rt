//! Values that hold no others, and lists of any length.
ghost use Rattle.std.specs.{Prelude.{◌≡◌, Some, refl}, Option.option_and_then, Str.bytes_eq};
ghost use Rattle.serde_json.specs.Find.{as_str, as_bool};
ghost use Rattle.tq_json.specs.Member as content;
ghost use Rattle.tq_json.specs.Member.{number_of};
ghost use Rattle.tq_live.specs.Costs as purposes;
ghost use Rattle.tq_json_read.specs.Slots.{in_text, all_of};
ghost use Rattle.tq_json_read.specs.Desks as commits;
ghost use Rattle.tq_json_read.specs.Locking as locking;

use crate::entry::Plan;
use crate::parts::{FromReader, Taken, take_list};
use std::alloc::Global;
use std::marker::Model;
use tq_evidence::{OpKind, Shareable};
use tq_json::{NotRead, Reader, content_of, is_text, name_of, take_flag, take_text, take_whole};
use tq_live::Purpose;
use tq_locks::Mode;
use tq_shape::SharedSeq;
use tq_store::{Content, FileName};

/// A text, which is borrowed from the file. Contracts see its bytes.
#[derive(Drop)]
pub(crate) struct Word<'a> {
    text: &'a str,
}

impl<'a> Model for Word<'a> {
    ghost use Rattle.std.specs.{Prelude.{List, ℕ}, Coded.{coded_list, coded_ℕ}};

    ghost Value = { List ℕ };

    ghost coded = { coded_list coded_ℕ };

    ghost view = { λ a. a.text.now };
}

impl<'a> Word<'a> {
    /// Whether it is that text.
    pub(crate) fn is(&self, text: &str) -> bool
        ensures { result ≡ bytes_eq self.now text.now }
    {
        is_text(self.text, text)
    }
}

impl<'a> FromReader<'a> for Word<'a> {
    ghost at = { λ plan. option_and_then as_str };

    ghost none = { λ plan. refl };

    fn read(
        _alloc: Global,
        _plan: &Plan,
        reader: &mut Reader<'a>,
        depth: usize,
    ) -> Taken<Word<'a>> {
        match take_text(reader, depth)? {
            Some(text) => Ok(Some(Word { text })),
            None => Ok(None),
        }
    }
}

impl<'a> FromReader<'a> for u64 {
    ghost at = { λ plan. option_and_then number_of };

    ghost none = { λ plan. refl };

    fn read(_alloc: Global, _plan: &Plan, reader: &mut Reader<'a>, depth: usize) -> Taken<u64> {
        take_whole(reader, depth)
    }
}

impl<'a> FromReader<'a> for bool {
    ghost at = { λ plan. option_and_then as_bool };

    ghost none = { λ plan. refl };

    fn read(_alloc: Global, _plan: &Plan, reader: &mut Reader<'a>, depth: usize) -> Taken<bool> {
        take_flag(reader, depth)
    }
}

impl<'a> FromReader<'a> for FileName {
    ghost at = { λ plan. in_text content.name_of };

    ghost none = { λ plan. refl };

    fn read(
        _alloc: Global,
        _plan: &Plan,
        reader: &mut Reader<'a>,
        depth: usize,
    ) -> Taken<FileName> {
        match take_text(reader, depth)? {
            Some(text) => Ok(name_of(text)),
            None => Ok(None),
        }
    }
}

impl<'a> FromReader<'a> for Content {
    ghost at = { λ plan. in_text (content.content_of plan.format) };

    ghost none = { λ plan. refl };

    fn read(alloc: Global, plan: &Plan, reader: &mut Reader<'a>, depth: usize) -> Taken<Content> {
        match take_text(reader, depth)? {
            Some(text) => Ok(content_of(alloc, plan.format, text)?),
            None => Ok(None),
        }
    }
}

impl<'a> FromReader<'a> for Mode {
    ghost at = { λ plan. in_text locking.mode_of };

    ghost none = { λ plan. refl };

    fn read(_alloc: Global, _plan: &Plan, reader: &mut Reader<'a>, depth: usize) -> Taken<Mode> {
        Ok(take_text(reader, depth)?.and_then(mode_of))
    }
}

fn mode_of(text: &str) -> Option<Mode>
    ensures { result ≡ locking.mode_of text.now }
{
    if is_text(text, "shared") {
        return Some(Mode::Shared);
    }
    if is_text(text, "exclusive") {
        return Some(Mode::Exclusive);
    }
    None
}

impl<'a> FromReader<'a> for OpKind {
    ghost at = { λ plan. in_text commits.kind_of };

    ghost none = { λ plan. refl };

    fn read(_alloc: Global, _plan: &Plan, reader: &mut Reader<'a>, depth: usize) -> Taken<OpKind> {
        Ok(take_text(reader, depth)?.and_then(kind_of))
    }
}

fn kind_of(text: &str) -> Option<OpKind>
    ensures { result ≡ commits.kind_of text.now }
{
    if is_text(text, "read") {
        return Some(OpKind::Read);
    }
    if is_text(text, "write") {
        return Some(OpKind::Write);
    }
    None
}

impl<'a> FromReader<'a> for Purpose {
    ghost at = { λ plan. in_text purposes.purpose_of };

    ghost none = { λ plan. refl };

    fn read(_alloc: Global, _plan: &Plan, reader: &mut Reader<'a>, depth: usize) -> Taken<Purpose> {
        match take_text(reader, depth)? {
            Some(text) => Ok(Purpose::of(text.as_bytes())),
            None => Ok(None),
        }
    }
}

/// A list of any length, to be shared.
impl<'a, T: FromReader<'a>> FromReader<'a> for SharedSeq<T> {
    ghost at = { λ plan. all_of (λ value. T.at plan (Some value)) };

    ghost none = { λ plan. refl };

    fn read(
        alloc: Global,
        plan: &Plan,
        reader: &mut Reader<'a>,
        depth: usize,
    ) -> Taken<SharedSeq<T>> {
        let Some(list) = take_list(alloc, plan, None, reader, depth)? else {
            return Ok(None);
        };
        match SharedSeq::from_vec(list.into_vec()) {
            Ok(list) => Ok(Some(list)),
            Err(_refused) => Err(NotRead::Memory),
        }
    }
}

/// A list of any length, which may be shared later.
impl<'a, T: FromReader<'a>> FromReader<'a> for Shareable<T> {
    ghost at = { λ plan. all_of (λ value. T.at plan (Some value)) };

    ghost none = { λ plan. refl };

    fn read(
        alloc: Global,
        plan: &Plan,
        reader: &mut Reader<'a>,
        depth: usize,
    ) -> Taken<Shareable<T>> {
        let Some(list) = take_list(alloc, plan, None, reader, depth)? else {
            return Ok(None);
        };
        Ok(Some(Shareable::from_vec(list.into_vec())))
    }
}
