//! A read or a write with its grants.

ghost use Rattle.std.specs.Prelude.{◌≡◌};
ghost use Rattle.tq_evidence.specs.Evidence as spec;

use crate::{Grant, Shareable};
use tq_shape::ExactClone;
use tq_store::{Content, FileName, Write};

/// What an operation does with its file.
#[derive(Debug, Clone, Copy, PartialEq, Eq)]
pub enum OpKind {
    Read,
    Write,
}

/// A read or a write, with the grants that it rests on. Its servers are those of its grants.
#[derive(Clone, PartialEq)]
pub struct Op {
    pub file: FileName,
    pub kind: OpKind,
    /// The version read, or that which the write makes.
    pub version: u64,
    /// The content read, or that which is written.
    pub content: Content,
    pub grants: Shareable<Grant>,
}

// Written out, so that a crate above lets go of one by a call.
impl Drop for Op {
    fn drop(self) {
        let Self {
            file: _,
            kind: _,
            version: _,
            content: _,
            grants: _,
        } = self;
    }
}

impl Op {
    /// Whether it writes.
    pub fn is_write(&self) -> bool
        ensures { result ≡ spec.is_write self.now }
    {
        match self.kind {
            OpKind::Read => false,
            OpKind::Write => true,
        }
    }

    /// Whether it writes this file.
    pub fn writes(&self, file: &FileName) -> bool
        ensures { result ≡ spec.writes_file file.now self.now }
    {
        self.is_write() && self.file == *file
    }

    /// Whether a server granted a lock to it.
    pub fn has_server(&self, server: u64) -> bool
        ensures { result ≡ spec.has_server self.now server }
    {
        let grants = self.grants.as_slice();
        grants.iter().any(|grant| grant.server == server)
    }

    /// Whether a write has its file, its version and its content.
    pub fn makes(&self, write: &Write) -> bool
        ensures { result ≡ spec.is_write_of write.now self.now }
    {
        write.file == self.file && write.version == self.version && write.content == self.content
    }
}

impl ExactClone for OpKind {
    ghost use Rattle.std.proofs.Common.{rules};

    ghost clones = { Prim.search rules };
}

impl ExactClone for Op {
    ghost use Rattle.std.proofs.Common.{rules};

    ghost clones = { Prim.search rules };
}
