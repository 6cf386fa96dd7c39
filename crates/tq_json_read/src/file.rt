//! A file: its format, the levels of the tree, the limits, and the journals of all parts.
ghost use Rattle.std.specs.{Prelude.{◌≡◌, ◌≤◌, map, Some, IfOk, IfSome, refl}, Option.option_map};
ghost use Rattle.tq_json.specs.Member.{most_levels};
ghost use Rattle.tq_json_read.specs.{Frame.journal, Slots.{made_by, names_of}};
ghost use Rattle.tq_json_read.specs.Frame as frame;
ghost use Rattle.tq_json_read.specs.Slots as slots;

use crate::entry::Plan;
use crate::object::take_object;
use crate::parts::{FromReader, Taken, take_list};
use std::alloc::Global;
use tq_json::{Format, Reader};
use tq_shape::{Levels, Limits, MOST_ENTRIES, MOST_FILES, MOST_OPS, Memory, Seq};
use tq_tables::{DeskEntry, Journals, NodeEntry, ViewEntry};

const LIMITS_NAMES: &[&str] = &["entries", "files", "ops"];

impl<'a> FromReader<'a> for Limits {
    ghost at = { λ plan. made_by frame.limits };

    ghost none = { λ plan. refl };

    fn read(alloc: Global, plan: &Plan, reader: &mut Reader<'a>, depth: usize) -> Taken<Limits> {
        let (entries, (files, (ops, ()))) = take_object(alloc, plan, LIMITS_NAMES, reader, depth)?;
        Ok(limits_from(entries, files, ops))
    }
}

fn limits_from(entries: Option<u64>, files: Option<u64>, ops: Option<u64>) -> Option<Limits>
    ensures { result ≡ frame.limits_from entries files ops }
{
    let entries = up_to(MOST_ENTRIES, entries)?;
    let files = up_to(MOST_FILES, files)?;
    let ops = up_to(MOST_OPS, ops)?;
    Limits::new(files, ops, entries)
}

/// The number, where it is from 1 up to the most.
fn up_to(most: u32, number: Option<u64>) -> Option<u32>
    ensures value { result ≡ frame.up_to most number }
    ensures within { IfSome result (λ number. (1 ≤ number) × (number ≤ most)) }
{
    let number = number?;
    if number < 1 {
        return None;
    }
    if number > most as u64 {
        return None;
    }
    Some(number as u32)
}

/// A journal: a list of entries, no more than the limit.
impl<'a, T: FromReader<'a>> FromReader<'a> for Seq<T> {
    ghost at = { λ plan. made_by (journal (λ value. T.at plan (Some value)) plan.limit) };

    ghost none = { λ plan. refl };

    fn read(alloc: Global, plan: &Plan, reader: &mut Reader<'a>, depth: usize) -> Taken<Seq<T>> {
        take_list(alloc, plan, Some(plan.limit as usize), reader, depth)
    }
}

/// The journals of the servers, one for each server of the tree.
#[derive(Drop)]
struct ServerJournals {
    lists: Seq<Seq<NodeEntry>>,
}

impl<'a> FromReader<'a> for ServerJournals {
    ghost at = { λ plan place. slots.kept (slots.server_lists plan place) };

    ghost none = { λ plan. refl };

    fn read(
        alloc: Global,
        plan: &Plan,
        reader: &mut Reader<'a>,
        depth: usize,
    ) -> Taken<ServerJournals> {
        let servers = plan.levels.servers() as usize;
        let lists = take_list(alloc, plan, Some(servers), reader, depth)?;
        Ok(one_each(servers, lists))
    }
}

/// The lists, where they are so many.
fn one_each(servers: usize, lists: Option<Seq<Seq<NodeEntry>>>) -> Option<ServerJournals>
    ensures { result ≡ slots.kept (slots.of_count servers lists) }
{
    let lists = lists?;
    if lists.len() == servers {
        return Some(ServerJournals { lists });
    }
    None
}

fn lists_of(servers: Option<ServerJournals>) -> Option<Seq<Seq<NodeEntry>>>
    ensures { result ≡ option_map (λ s. s.lists) servers }
{
    let servers = servers?;
    Some(servers.lists)
}

/// What stands in a file, if it is an object; else nothing.
#[derive(Drop)]
pub(crate) struct FileFields {
    desk: Option<Seq<DeskEntry>>,
    format: Option<u64>,
    levels: Option<u64>,
    limits: Option<Limits>,
    servers: Option<Seq<Seq<NodeEntry>>>,
    view: Option<Seq<ViewEntry>>,
}

const FILE_NAMES: &[&str] = &["desk", "format", "levels", "limits", "servers", "view"];

impl<'a> FromReader<'a> for FileFields {
    ghost at = { λ plan. made_by (λ d. Some (slots.file_fields plan (names_of d))) };

    ghost none = { λ plan. refl };

    fn read(
        alloc: Global,
        plan: &Plan,
        reader: &mut Reader<'a>,
        depth: usize,
    ) -> Taken<FileFields> {
        let (desk, (format, (levels, (limits, (servers, (view, ())))))) = take_object(
            alloc, plan, FILE_NAMES, reader, depth,
        )?;
        Ok(Some(FileFields {
            desk,
            format,
            levels,
            limits,
            servers: lists_of(servers),
            view,
        }))
    }
}

fn levels_of(format: Format, number: Option<u64>) -> Option<Levels>
    ensures { result ≡ frame.up_to (most_levels format) number }
{
    let count = up_to(format.most_levels(), number)?;
    Levels::new(count)
}

/// The plan that a file gives, by what stands in it at these names.
pub(crate) fn plan_from(
    format: Option<u64>,
    levels: Option<u64>,
    limits: Option<Limits>,
) -> Option<Plan>
    ensures { result ≡ frame.plan_from format levels limits }
{
    let number = format?;
    let format = Format::of_number(number)?;
    let levels = levels_of(format, levels)?;
    let limits = limits?;
    let limit = limits.entries();
    Some(Plan {
        format,
        levels,
        limit,
    })
}

impl FileFields {
    /// The plan that the file gives.
    pub(crate) fn plan(&self) -> Option<Plan>
        ensures { result ≡ frame.plan_from self.now.format self.now.levels self.now.limits }
    {
        plan_from(self.format, self.levels, self.limits)
    }
}

/// The lists as journals keep them.
fn vecs_of<T: Drop>(alloc: Global, lists: Seq<Seq<T>>) -> Result<Vec<Vec<T>>, Memory>
    ensures { IfOk result (λ vecs. map (λ vec. vec.items) vecs.items ≡ lists) }
{
    let mut vecs = Vec::new(alloc);
    for list in lists.into_vec() {
        vecs.push(list.into_vec())?;
    }
    Ok(vecs)
}

/// The journals of a file that was read by its own plan.
pub(crate) fn journals_from(
    alloc: Global,
    levels: Levels,
    fields: FileFields,
) -> Result<Option<Journals>, Memory>
    requires { slots.IsPlanned levels fields }
    ensures { IfOk result (λ journals. journals ≡ slots.journals_from levels fields) }
{
    let FileFields {
        desk,
        format: _,
        levels: _,
        limits,
        servers,
        view,
    } = fields;
    let Some(limits) = limits else {
        return Ok(None);
    };
    let Some(servers) = servers else {
        return Ok(None);
    };
    let Some(desk) = desk else {
        return Ok(None);
    };
    let Some(view) = view else {
        return Ok(None);
    };
    let servers = vecs_of(alloc, servers)?;
    let desk = desk.into_vec();
    let view = view.into_vec();
    Ok(Some(Journals::new(levels, limits, servers, desk, view)))
}
