//! The files that commits wrote.

ghost use Rattle.std.specs.Prelude.{◌≡◌, ◌+◌, ◌<◌, ◌≤◌, IfOk, OnOk, is_some, length};
ghost use Rattle.std.specs.FinMap as fin;
ghost use Rattle.tq_desk.specs.DeskStep as spec;
ghost use Rattle.tq_desk.specs.DeskPlans.{names_written, with_names};

use std::alloc::Global;
use std::marker::Model;
use tq_evidence::Op;
use tq_shape::{Memory, Seq};
use tq_store::{BoundedIndexMap, FileName};

/// The files that commits wrote.
#[derive(Drop)]
pub(crate) struct WrittenFiles {
    names: BoundedIndexMap<FileName, ()>,
}

impl Model for WrittenFiles {
    ghost use Rattle.std.specs.FinMap as map;
    ghost use Rattle.indexmap.specs.IndexMap.{spare};
    ghost use Rattle.tq_desk.specs.DeskJournal.{FilesView, files_view_code};

    ghost Value = { FilesView };

    ghost coded = { files_view_code };

    ghost view = { λ a. record { files = map.from_entries a.names.entries; room = spare a.names } };
}

impl WrittenFiles {
    pub(crate) fn new(alloc: Global) -> WrittenFiles
        ensures { result.files ≡ fin.empty }
    {
        WrittenFiles {
            names: BoundedIndexMap::new(alloc),
        }
    }

    /// The same files, in memory of their own.
    pub(crate) fn copy(&self) -> Result<WrittenFiles, Memory>
        ensures { IfOk result (λ copy. copy.files ≡ self.now.files) }
    {
        let names = self.names.clone()?;
        Ok(WrittenFiles { names })
    }

    pub(crate) fn contains(&self, name: FileName) -> bool
        ensures { result ≡ is_some (fin.get self.now.files name) }
    {
        self.names.contains_key(&name)
    }

    pub(crate) fn len(&self) -> usize
        ensures value { result ≡ fin.len self.now.files }
        ensures small { result < 9223372036854775808 }
    {
        self.names.len()
    }

    /// Makes room for this many calls of `add`.
    pub(crate) fn reserve(&mut self, additional: usize) -> Result<(), Memory>
        ensures files { self.new.files ≡ self.old.files }
        ensures room { OnOk result (additional ≤ self.new.room) }
    {
        self.names.reserve(additional)
    }

    pub(crate) fn add(&mut self, name: FileName)
        requires { 0 < self.old.room }
        ensures files { self.new.files ≡ spec.with_file self.old.files name }
        ensures room { self.old.room ≤ self.new.room + 1 }
    {
        let _replaced = self.names.insert(name, ()).unwrap();
    }

    /// Adds files.
    pub(crate) fn add_all(&mut self, names: &[FileName])
        requires { length names.now ≤ self.old.room }
        ensures { self.new.files ≡ with_names self.old.files names.now }
    {
        for name in names {
            self.add(*name);
        }
    }

    /// How many of the ops write a file that is not among these.
    pub(crate) fn count_new(&self, ops: &[Op]) -> usize
        ensures value { result ≡ spec.count_new self.now.files ops.now }
        ensures most { result ≤ length ops.now }
    {
        ops.iter().filter(|op| self.is_new(op)).count()
    }

    fn is_new(&self, op: &Op) -> bool
        ensures { result ≡ spec.is_new self.now.files op.now }
    {
        op.is_write() && !self.contains(op.file)
    }
}

/// The files that the ops write, one after another.
pub(crate) fn written_names(alloc: Global, ops: &[Op]) -> Result<Seq<FileName>, Memory>
    ensures { IfOk result (λ names. names ≡ names_written ops.now) }
{
    Ok(Seq::from_vec(written_list(alloc, ops)?))
}

fn written_list(alloc: Global, ops: &[Op]) -> Result<Vec<FileName>, Memory>
    ensures { IfOk result (λ names. names.items ≡ names_written ops.now) }
{
    let mut names = Vec::new(alloc);
    for op in ops {
        if op.is_write() {
            names.push(op.file)?;
        }
    }
    Ok(names)
}
