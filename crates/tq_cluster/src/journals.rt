//! The journals under the locks, copied or taken out.

ghost use Rattle.std.specs.{Prelude.{◌≡◌, ◌≤◌, [], map, reverse, length, vec_len, vec_capacity}, List.All};
ghost use Rattle.tq_node.specs.NodeJournal.{IsLegalNode};
ghost use Rattle.tq_desk.specs.DeskJournal.{IsLegalDesk};
ghost use Rattle.tq_live.specs.View.{IsLegalView};
ghost use Rattle.tq_tables.specs.{Journals.IsOfTree, Parts.{AreLegalServers, bounds_of}};

use std::alloc::Global;
use tq_cells::{Cell, Held};
use tq_desk::Desk;
use tq_live::View;
use tq_node::Node;
use tq_shape::{Levels, Limits};
use tq_tables::{DeskEntry, NodeEntry, ViewEntry};

/// The journals of the servers in these cells, upwards from server 1, of at most that many entries each, put into the
/// room for them.
pub(crate) fn server_journals(
    alloc: Global,
    entries: u32,
    cells: Vec<Cell<Node>>,
    room: Vec<Vec<NodeEntry>>,
) -> Vec<Vec<NodeEntry>>
    requires empty { room.items ≡ [] }
    requires room { vec_len cells ≤ vec_capacity room }
    ensures one_each { vec_len result ≡ vec_len cells }
    ensures legal { AreLegalServers 1 (map (λ journal. journal.items) result.items) }
    ensures fit { All (λ journal. length journal ≤ entries)
        (map (λ journal. journal.items) result.items) }
{
    let mut journals = room;
    for cell in cells {
        let number = journals.len() as u64 + 1;
        let journal = server_journal(alloc, number, entries, cell.into_held());
        journals.push_reserved(journal);
    }
    journals
}

/// The journal of the server of that number, of at most that many entries, all of it. That another server lay in its cell, or a
/// longer journal, cannot be; but no fact of what was under a lock says so. The journal would be empty then.
fn server_journal(alloc: Global, number: u64, entries: u32, held: Held<Node>) -> Vec<NodeEntry>
    ensures legal { IsLegalNode number (reverse result.items) }
    ensures fits { vec_len result ≤ entries }
    ensures whole { held.part.server ≡ number → length held.journal ≤ entries
        → result.items ≡ held.journal }
{
    let there = held.part().server().number();
    let journal = held.into_entries();
    if there != number {
        return Vec::new(alloc);
    }
    if journal.len() > entries as usize {
        return Vec::new(alloc);
    }
    journal
}

/// The journal of the desk of those levels and limits, as that of a server.
pub(crate) fn desk_journal(
    alloc: Global,
    levels: Levels,
    limits: Limits,
    held: Held<Desk>,
) -> Vec<DeskEntry>
    ensures legal { IsLegalDesk (bounds_of levels limits) (reverse result.items) }
    ensures fits { vec_len result ≤ limits.entries }
    ensures whole { held.part.levels ≡ levels → held.part.limits ≡ limits
        → length held.journal ≤ limits.entries → result.items ≡ held.journal }
{
    let levels_there = held.part().levels();
    let limits_there = held.part().limits();
    let journal = held.into_entries();
    if levels_there != levels {
        return Vec::new(alloc);
    }
    if limits_there != limits {
        return Vec::new(alloc);
    }
    if journal.len() > limits.entries() as usize {
        return Vec::new(alloc);
    }
    journal
}

/// The journal of the view, of a tree of those levels, as that of a server.
pub(crate) fn view_journal(
    alloc: Global,
    levels: Levels,
    entries: u32,
    held: Held<View>,
) -> Vec<ViewEntry>
    ensures legal { IsLegalView levels result.items }
    ensures of_tree { All (λ entry. IsOfTree levels entry.reply) result.items }
    ensures fits { vec_len result ≤ entries }
    ensures whole { held.part.levels ≡ levels → length held.journal ≤ entries
        → result.items ≡ held.journal }
{
    let there = held.part().tree().levels();
    let journal = held.into_entries();
    if there != levels {
        return Vec::new(alloc);
    }
    if journal.len() > entries as usize {
        return Vec::new(alloc);
    }
    journal
}
