//! The rows of files that commits among entries write.

ghost use Rattle.std.specs.{Prelude.{◌≡◌, ◌+◌, ◌<◌, ◌≤◌, ◌^◌, ℕ, List, true, length, map, IfOk}, List.All};
ghost use Rattle.tq_tables.specs.{Rows.names_of, Files.{AreHolders, OthersLack, AreExact, version_in, written_row}};
ghost use Rattle.tq_tables.specs.Parts.{AreOfTree};
ghost use Rattle.tq_tables.specs.Rows as spec;

use crate::FileRow;
use crate::file_names::FileNames;
use crate::file_table::FileTable;
use crate::holders::Holders;
use std::alloc::Global;
use tq_desk::Op;
use tq_node::Node;
use tq_shape::{Levels, Memory, ServerSet};
use tq_store::FileName;

/// A row for each file that the ops write, ascending by name, at the version after the one that the table says, or at
/// version 1 where the table has no row of the file. Most asks have no ops, and take no memory.
#[inline(always)]
pub(crate) fn rows_written(
    alloc: Global,
    nodes: &[Node],
    holders: &Holders,
    table: &FileTable,
    ops: &[Op],
) -> Result<Vec<FileRow>, Memory>
    requires of_tree { AreOfTree table.now.levels 1 nodes.now }
    requires exact { AreExact table.now.levels nodes.now table.now.rows }
    requires holders { AreHolders table.now.levels nodes.now table.now.rows holders.now }
    requires room { (file : List ℕ) → version_in table.now.rows file + 1 < 2 ^ 64 }
    ensures { IfOk result (λ rows. rows.items
        ≡ map (written_row table.now.levels nodes.now table.now.rows) (names_of ops.now)) }
{
    match ops {
        [] => Ok(Vec::new(alloc)),
        [_, ..] => rows_of_ops(alloc, nodes, holders, table, ops),
    }
}

/// The same, where there may be ops.
fn rows_of_ops(
    alloc: Global,
    nodes: &[Node],
    holders: &Holders,
    table: &FileTable,
    ops: &[Op],
) -> Result<Vec<FileRow>, Memory>
    requires of_tree { AreOfTree table.now.levels 1 nodes.now }
    requires exact { AreExact table.now.levels nodes.now table.now.rows }
    requires holders { AreHolders table.now.levels nodes.now table.now.rows holders.now }
    requires room { (file : List ℕ) → version_in table.now.rows file + 1 < 2 ^ 64 }
    ensures { IfOk result (λ rows. rows.items
        ≡ map (written_row table.now.levels nodes.now table.now.rows) (names_of ops.now)) }
{
    let names = FileNames::of_ops(alloc, ops)?;
    let mut rows = Vec::new(alloc);
    for (file, _) in names.iter() {
        rows.push(next_row(alloc, nodes, holders, table, file)?)?;
    }
    Ok(rows)
}

/// The row of a file that one commit more writes.
fn next_row(
    alloc: Global,
    nodes: &[Node],
    holders: &Holders,
    table: &FileTable,
    file: &FileName,
) -> Result<FileRow, Memory>
    requires of_tree { AreOfTree table.now.levels 1 nodes.now }
    requires exact { AreExact table.now.levels nodes.now table.now.rows }
    requires holders { AreHolders table.now.levels nodes.now table.now.rows holders.now }
    requires room { version_in table.now.rows file.now + 1 < 2 ^ 64 }
    ensures { IfOk result (λ row. row
        ≡ written_row table.now.levels nodes.now table.now.rows file.now) }
{
    match table.row(file) {
        Some(row) => row.of_next_commit(nodes),
        None => first_row(alloc, table.levels(), nodes, holders, *file),
    }
}

/// The row of a file that no commit before wrote. Only the servers that may have a copy are looked at.
fn first_row(
    alloc: Global,
    levels: Levels,
    nodes: &[Node],
    holders: &Holders,
    file: FileName,
) -> Result<FileRow, Memory>
    requires of_tree { AreOfTree levels 1 nodes.now }
    requires early { holders.now.early.levels ≡ levels }
    requires within { All (λ number. number ≤ length nodes.now) holders.now.early.numbers }
    requires all { holders.now.all ≡ spec.servers_where levels (λ node. true) nodes.now }
    requires others { OthersLack file holders.now.early.numbers nodes.now }
    ensures { IfOk result (λ row. row ≡ spec.row_at levels nodes.now file 1) }
{
    let current = ServerSet::new(alloc, levels)?;
    let stale = holders.all.clone()?;
    let mut row = FileRow {
        file,
        version: 1,
        current,
        stale,
    };
    row.set_currency_of_each(&holders.early, nodes);
    Ok(row)
}

/// Rows equal to these, with memory of their own.
pub(crate) fn copy_files(alloc: Global, rows: &[FileRow]) -> Result<Vec<FileRow>, Memory>
    ensures { IfOk result (λ copies. copies.items ≡ rows.now) }
{
    let mut copies = Vec::new(alloc);
    for row in rows {
        copies.push(row.copy()?)?;
    }
    Ok(copies)
}
