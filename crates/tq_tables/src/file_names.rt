//! The names of files, as a set that is walked in their order.
ghost use Rattle.std.specs.Prelude.{◌≡◌, map, IfOk, OnOk};
ghost use Rattle.std.specs.FinMap as fin;
ghost use Rattle.tq_desk.specs.DeskStep as spec;

use std::alloc::Global;
use std::collections::BTreeMap;
use std::collections::btree_map::Iter;
use std::marker::Model;
use tq_desk::{Op, OpKind};
use tq_shape::Memory;
use tq_store::FileName;

/// A set of names of files.
#[derive(Drop)]
pub(crate) struct FileNames {
    names: BTreeMap<FileName, ()>,
}

impl Model for FileNames {
    ghost use Rattle.std.specs.FinMap as map;
    ghost use Rattle.tq_desk.specs.{DeskStep.FileSet, DeskJournal.files_code};

    ghost Value = { FileSet };

    ghost coded = { files_code };

    ghost view = { λ a. map.from_entries a.names.entries };
}

impl FileNames {
    fn new(alloc: Global) -> FileNames
        ensures { result ≡ fin.empty }
    {
        FileNames {
            names: BTreeMap::new(alloc),
        }
    }

    /// The names of the files that the ops write.
    pub(crate) fn of_ops(alloc: Global, ops: &[Op]) -> Result<FileNames, Memory>
        ensures { IfOk result (λ names. names ≡ spec.with_files fin.empty ops.now) }
    {
        let mut names = FileNames::new(alloc);
        for op in ops {
            match op.kind {
                OpKind::Read => (),
                OpKind::Write => names.add(op.file)?,
            }
        }
        Ok(names)
    }

    fn add(&mut self, name: FileName) -> Result<(), Memory>
        ensures { OnOk result (self.new ≡ spec.with_file self.old name) }
    {
        self.names.insert(name, ())?;
        Ok(())
    }

    /// The names, ascending, each once.
    pub(crate) fn iter(&self) -> Iter<'_, FileName, ()>
        ensures { result ≡ fin.entries self.now }
    {
        self.names.iter()
    }
}
