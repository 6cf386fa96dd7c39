//! The jobs of one file.

ghost use Rattle.std.specs.Prelude.{◌≡◌, IfOk};
ghost use Rattle.tq_refresh.specs.Plan as spec;

use crate::job::peek_of;
use std::alloc::Global;
use tq_asks::NodeAsk;
use tq_shape::{Memory, ServerId, ServerSet};
use tq_store::FileName;

/// A file whose stale copies a refresh is to mend, where their servers are marked up.
#[derive(Drop)]
pub struct FileJobs {
    pub file: FileName,
    /// The servers whose copies are stale, also those that are not marked up.
    pub stale: ServerSet,
    /// The server whose copy is to be taken.
    pub source: ServerId,
}

impl FileJobs {
    /// What the source is asked: its copy of the file. All jobs of the file may share this ask.
    pub fn peek_ask(&self, alloc: Global) -> Result<NodeAsk, Memory>
        ensures { IfOk result (λ ask. ask ≡ spec.peek_of self.now.file) }
    {
        peek_of(alloc, self.file)
    }
}

/// A refresh by files: the jobs of each file are those of its stale servers that are marked up, upwards.
#[derive(Drop)]
pub struct PlanByFile {
    /// The servers that are marked up.
    pub up: ServerSet,
    pub files: Vec<FileJobs>,
}
