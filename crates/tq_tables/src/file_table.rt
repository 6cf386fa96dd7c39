//! The rows of files, found by the names of the files.
ghost use Rattle.std.specs.Prelude.{[], ◌≡◌, ◌≤◌, ◌<◌, ◌+◌, true, length, map, IfOk, IsTrue, OnOk};
ghost use Rattle.std.specs.{Bool.{OnFalse, OnTrue}, Option.option_copied};
ghost use Rattle.tq_node.specs.Telling.{AreReached, HasOffered, offered_files, raised_files};
ghost use Rattle.tq_store.specs.Copies.{copy_of};
ghost use Rattle.tq_tables.specs.{Rows.Apart, Files.{AreOfLevels, HasRowAt, by_file, HaveRows, has_row}};
ghost use Rattle.tq_tables.specs.Files as spec;

use crate::FileRow;
use crate::file_rows::copy_files;
use std::alloc::Global;
use std::marker::Model;
use tq_asks::{NodeAsk, WorkAsk};
use tq_node::{Node, Raised};
use tq_shape::{Levels, Memory};
use tq_store::{BoundedIndexMap, FileName, Write};

/// A row for each file, in the order in which the files came. The row of a file is found at once by its name, and
/// changes without memory.
#[derive(Drop)]
pub(crate) struct FileTable {
    levels: Levels,
    rows: BoundedIndexMap<FileName, FileRow>,
    /// Where a row was found last: the place at which one is looked for first. Nothing rests on it.
    last: usize,
}

impl Model for FileTable {
    ghost use Rattle.std.specs.Prelude.{map};
    ghost use Rattle.indexmap.specs.IndexMap.{spare};
    ghost use Rattle.tq_tables.specs.contracts.file_row.FileRow as file_type;
    ghost use Rattle.tq_tables.specs.Files.{AreFiles, FilesView, files_view_code};

    ghost Value = { FilesView };

    ghost coded = { files_view_code file_type.the_row.coded };

    ghost view = { λ a. record {
      levels = a.levels;
      rows = map (λ entry. entry.1) a.rows.entries;
      room = spare a.rows;
    } };

    ghost invariant = { λ a. AreFiles a.levels a.rows.entries };
}

impl FileTable {
    /// A table with these rows, each of another file, whose sets of servers are of the tree.
    fn of(alloc: Global, levels: Levels, rows: Vec<FileRow>) -> Result<FileTable, Memory>
        requires apart { Apart (spec.names_in rows.items) }
        requires of_tree { AreOfLevels levels rows.items }
        ensures { IfOk result (λ table. spec.HasRows table levels rows.items) }
    {
        let mut table = FileTable::new(alloc, levels);
        table.reserve(rows.len())?;
        table.put_all(rows);
        Ok(table)
    }

    /// A table with no row. It takes no memory yet.
    pub(crate) fn new(alloc: Global, levels: Levels) -> FileTable
        ensures levels { result.levels ≡ levels }
        ensures rows { result.rows ≡ [] }
    {
        FileTable {
            levels,
            rows: BoundedIndexMap::new(alloc),
            last: 0,
        }
    }

    /// A table with equal rows, with memory of its own.
    pub(crate) fn copy(&self, alloc: Global) -> Result<FileTable, Memory>
        ensures { IfOk result (λ copy. spec.HasRows copy self.now.levels self.now.rows) }
    {
        let rows = copy_files(alloc, self.rows())?;
        FileTable::of(alloc, self.levels, rows)
    }

    /// How many levels the tree of servers has.
    pub(crate) fn levels(&self) -> Levels
        ensures { result ≡ self.now.levels }
    {
        self.levels
    }

    /// The rows.
    pub(crate) fn rows(&self) -> &[FileRow]
        ensures value { result.now ≡ self.now.rows }
        ensures apart { Apart (spec.names_in result.now) }
        ensures of_tree { AreOfLevels self.now.levels result.now }
    {
        let _levels = self.levels;
        self.rows.values()
    }

    /// The row of the file, if it has one.
    pub(crate) fn row(&self, file: &FileName) -> Option<&FileRow>
        ensures { option_copied result ≡ spec.row_in self.now.rows file.now }
    {
        self.rows.get(file)
    }

    /// Makes room for the rows of so many files more. The rows stay, also without memory.
    pub(crate) fn reserve(&mut self, additional: usize) -> Result<(), Memory>
        ensures levels { self.new.levels ≡ self.old.levels }
        ensures rows { self.new.rows ≡ self.old.rows }
        ensures room { OnOk result (additional ≤ self.new.room) }
    {
        self.rows.reserve(additional)?;
        Ok(())
    }

    /// Puts the row in the place of the one of its file, or at the end where there is none. It takes no memory.
    fn put(&mut self, row: FileRow)
        requires room { 0 < self.old.room }
        requires of_tree { spec.IsOfLevels self.old.levels row }
        ensures levels { self.new.levels ≡ self.old.levels }
        ensures rows { self.new.rows ≡ spec.with_row self.old.rows row }
        ensures room { self.old.room ≤ self.new.room + 1 }
    {
        let file = row.file;
        let _replaced = self.rows.insert(file, row).unwrap();
    }

    /// Puts the rows, one after another, in the room that was made for them. It takes no memory.
    pub(crate) fn put_all(&mut self, rows: Vec<FileRow>)
        requires room { length rows.items ≤ self.old.room }
        requires of_tree { AreOfLevels self.old.levels rows.items }
        ensures levels { self.new.levels ≡ self.old.levels }
        ensures rows { self.new.rows ≡ spec.with_rows self.old.rows rows.items }
    {
        for row in rows {
            self.put(row);
        }
    }

    /// In the row of the file, if it has one, the server, whose copy is at least of that version, is current or stale as
    /// its copy says. The row is noted as the one that was found last. Answers whether there is one. It takes no memory.
    #[inline(never)]
    fn set_currency(&mut self, node: &Node, file: &FileName, least: u64) -> bool
        requires levels { node.now.levels ≡ self.old.levels }
        requires least { least ≤ (copy_of node.now.state.records.copies file.now).version }
        ensures levels { self.new.levels ≡ self.old.levels }
        ensures rows { self.new.rows ≡ map (spec.stood_at node.now file.now) self.old.rows }
        ensures found { result ≡ has_row self.old.rows file.now }
    {
        let Some(place) = self.rows.get_index_of(file) else {
            return false;
        };
        self.last = place;
        self.set_currency_at(place, node, file, least)
    }

    /// The same where the row at that place is the file's; nothing where it is not. Answers whether it is.
    #[inline(always)]
    fn set_currency_at(&mut self, place: usize, node: &Node, file: &FileName, least: u64) -> bool
        requires levels { node.now.levels ≡ self.old.levels }
        requires least { least ≤ (copy_of node.now.state.records.copies file.now).version }
        ensures levels { self.new.levels ≡ self.old.levels }
        ensures rows { OnTrue result (self.new.rows
            ≡ map (spec.stood_at node.now file.now) self.old.rows) }
        ensures other { OnFalse result (self.new.rows ≡ self.old.rows) }
        ensures found { OnTrue result (has_row self.old.rows file.now ≡ true) }
        ensures there { HasRowAt (by_file self.old.rows) place file.now → IsTrue result }
    {
        let _levels = self.levels;
        set_currency_in(&mut self.rows, place, node, file, least)
    }

    /// The same for a file that is likely to be that of the row that was found last, as where a refresh goes from server to
    /// server.
    fn set_currency_near_last(&mut self, node: &Node, file: &FileName, least: u64) -> bool
        requires levels { node.now.levels ≡ self.old.levels }
        requires least { least ≤ (copy_of node.now.state.records.copies file.now).version }
        ensures levels { self.new.levels ≡ self.old.levels }
        ensures rows { self.new.rows ≡ map (spec.stood_at node.now file.now) self.old.rows }
        ensures found { result ≡ has_row self.old.rows file.now }
    {
        if self.set_currency_at(self.last, node, file, least) {
            return true;
        }
        self.set_currency(node, file, least)
    }

    /// In the rows of the files that the ask raised the server is current or stale as its copies say. Answers true only
    /// where each of these files has a row. It takes no memory.
    #[inline(always)]
    pub(crate) fn set_currency_of_raised(
        &mut self,
        node: &Node,
        ask: &NodeAsk,
        raised: &Raised,
    ) -> bool
        requires levels { node.now.levels ≡ self.old.levels }
        requires reached { AreReached ask.now raised.now node.now.state.records.copies }
        ensures levels { self.new.levels ≡ self.old.levels }
        ensures rows { self.new.rows
            ≡ spec.stood_raised node.now self.old.rows ask.now raised.now }
        ensures found { OnTrue result (HaveRows self.old.rows (raised_files ask.now raised.now)) }
    {
        match raised {
            Raised::Nothing => true,
            Raised::Written(writes) => self.set_currency_of_written(node, writes.as_slice()),
            Raised::Asked => self.set_currency_of_offered(node, ask),
        }
    }

    /// The same for the file that a refresh offers.
    #[inline(never)]
    fn set_currency_of_offered(&mut self, node: &Node, ask: &NodeAsk) -> bool
        requires levels { node.now.levels ≡ self.old.levels }
        requires reached { HasOffered ask.now node.now.state.records.copies }
        ensures levels { self.new.levels ≡ self.old.levels }
        ensures rows { self.new.rows ≡ spec.stood_offered node.now self.old.rows ask.now }
        ensures found { OnTrue result (HaveRows self.old.rows (offered_files ask.now)) }
    {
        let _levels = self.levels;
        match ask {
            NodeAsk::Work(work) => match work.get() {
                WorkAsk::Refresh { file, version, .. } => self.set_currency_near_last(
                    node,
                    file.get(),
                    *version,
                ),
                WorkAsk::Lock { .. } => true,
                WorkAsk::Prepare { .. } => true,
                WorkAsk::Decide { .. } => true,
                WorkAsk::Release { .. } => true,
                WorkAsk::Peek { .. } => true,
            },
            NodeAsk::Crash => true,
            NodeAsk::Return => true,
            NodeAsk::CrashIn { .. } => true,
        }
    }

    /// The same for the files of the writes.
    fn set_currency_of_written(&mut self, node: &Node, writes: &[Write]) -> bool
        requires levels { node.now.levels ≡ self.old.levels }
        requires reached { spec.HoldsWritten node.now writes.now }
        ensures levels { self.new.levels ≡ self.old.levels }
        ensures rows { self.new.rows ≡ spec.stood_written node.now self.old.rows writes.now }
        ensures found { OnTrue result (HaveRows self.old.rows (spec.written_files writes.now)) }
    {
        let mut found = true;
        for write in writes {
            if !self.set_currency(node, &write.file, write.version) {
                found = false;
            }
        }
        found
    }
}

/// In the row at the place, if it is the file's, the server is current or stale as its copy says; else nothing changes.
/// Answers whether it is the file's. It takes no memory.
#[inline(always)]
fn set_currency_in(
    rows: &mut BoundedIndexMap<FileName, FileRow>,
    place: usize,
    node: &Node,
    file: &FileName,
    least: u64,
) -> bool
    requires least { least ≤ (copy_of node.now.state.records.copies file.now).version }
    requires levels { spec.FitsRowAt rows.old.entries place node.now }
    ensures rows { OnTrue result
        (spec.StandsAt rows.old.entries rows.new.entries place file.now node.now) }
    ensures other { OnFalse result (rows.new.entries ≡ rows.old.entries) }
    ensures there { spec.IsFileAt rows.old.entries place file.now → IsTrue result }
{
    match rows.get_index_mut(place) {
        Some(row) => {
            if row.file != *file {
                return false;
            }
            row.set_currency(node, least);
            true
        }
        None => false,
    }
}
