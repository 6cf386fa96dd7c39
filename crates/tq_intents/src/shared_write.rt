//! A write that stands in a list that others share.

ghost use Rattle.std.specs.Prelude.{◌≡◌, ◌<◌, IfOk, length};
ghost use Rattle.tq_intents.specs.Sharing.{write_at, told_write, IsRefresh};

use std::alloc::{AllocError, Global};
use std::marker::Model;
use tq_asks::WorkAsk;
use tq_shape::{ExactClone, Shared, SharedSeq};
use tq_store::{Content, FileName, Write};

/// A write that others share: it stands in a list, and its place there is cited, or an ask tells it, or it stands alone.
/// Contracts see the write alone.
pub struct SharedWrite {
    source: Source,
}

// Written out, so that a crate above lets go of one by a call.
impl Drop for SharedWrite {
    fn drop(self) {
        let Self { source: _ } = self;
    }
}

/// Where a write stands.
#[derive(Drop)]
enum Source {
    Listed {
        writes: SharedSeq<Write>,
        place: usize,
    },
    /// The ask is one to refresh.
    Told(Shared<WorkAsk>),
    Alone(Shared<Write>),
}

impl Model for SharedWrite {
    ghost use Rattle.tq_store.specs.declared.write.Write.{Write as write_value};
    ghost use Rattle.tq_store.specs.contracts.write.Write as write_type;
    ghost use Rattle.tq_intents.specs.Sharing.{IsSource, write_of_source};

    ghost Value = { write_value };

    ghost coded = { write_type.the_row.coded };

    ghost view = { λ a. write_of_source a.source };

    ghost invariant = { λ a. IsSource a.source };
}

impl SharedWrite {
    /// The write at a place of a list.
    pub fn at(writes: SharedSeq<Write>, place: usize) -> SharedWrite
        requires { place < length writes }
        ensures { result ≡ write_at writes place }
    {
        SharedWrite {
            source: Source::Listed { writes, place },
        }
    }

    /// The write that an ask to refresh tells. It takes no memory.
    pub fn of_refresh(ask: Shared<WorkAsk>) -> SharedWrite
        requires { IsRefresh ask }
        ensures { result ≡ told_write ask }
    {
        SharedWrite {
            source: Source::Told(ask),
        }
    }

    /// A write that stands in no list.
    ///
    /// # Errors
    ///
    /// Refuses where there is no memory for it.
    pub fn alone(alloc: Global, write: Write) -> Result<SharedWrite, AllocError>
        ensures { IfOk result (λ shared. shared ≡ write) }
    {
        let write = Shared::new(alloc, write)?;
        Ok(SharedWrite {
            source: Source::Alone(write),
        })
    }

    /// Its file.
    pub fn file(&self) -> FileName
        ensures { result ≡ self.now.file }
    {
        match &self.source {
            Source::Listed { writes, place } => writes.as_slice()[*place].file,
            Source::Told(ask) => refresh_parts(ask.get()).0,
            Source::Alone(write) => write.get().file,
        }
    }

    /// Its version.
    pub fn version(&self) -> u64
        ensures { result ≡ self.now.version }
    {
        match &self.source {
            Source::Listed { writes, place } => writes.as_slice()[*place].version,
            Source::Told(ask) => refresh_parts(ask.get()).1,
            Source::Alone(write) => write.get().version,
        }
    }

    /// Its content.
    pub fn content(&self) -> &Content
        ensures { result.now ≡ self.now.content }
    {
        match &self.source {
            Source::Listed { writes, place } => &writes.as_slice()[*place].content,
            Source::Told(ask) => refresh_parts(ask.get()).2,
            Source::Alone(write) => &write.get().content,
        }
    }

    /// An equal write, in memory of its own.
    pub fn write(&self) -> Result<Write, AllocError>
        ensures { IfOk result (λ write. write ≡ self.now) }
    {
        Ok(Write {
            file: self.file(),
            version: self.version(),
            content: self.content().clone()?,
        })
    }
}

/// The file, the version and the content that an ask to refresh tells.
fn refresh_parts(ask: &WorkAsk) -> (FileName, u64, &Content)
    requires { IsRefresh ask.now }
    ensures file { result.0 ≡ (told_write ask.now).file }
    ensures version { result.1 ≡ (told_write ask.now).version }
    ensures content { result.2.now ≡ (told_write ask.now).content }
{
    match ask {
        WorkAsk::Refresh {
            file,
            version,
            content,
            ..
        } => (*file.get(), *version, content.get()),
        _ => unreachable!(),
    }
}

impl Clone for SharedWrite {
    ghost use Rattle.std.specs.Prelude.{◌≡◌};

    ghost is_clone = { λ x y. y ≡ x };

    fn clone(&self) -> Result<Self, AllocError> {
        match &self.source {
            Source::Listed { writes, place } => Ok(SharedWrite {
                source: Source::Listed {
                    writes: writes.clone()?,
                    place: *place,
                },
            }),
            Source::Told(ask) => Ok(SharedWrite {
                source: Source::Told(ask.clone()?),
            }),
            Source::Alone(write) => Ok(SharedWrite {
                source: Source::Alone(write.clone()?),
            }),
        }
    }
}

impl ExactClone for SharedWrite {
    ghost clones = { λ x y h. h };
}
