//! The copies that a server has.

ghost use Rattle.std.specs.Prelude.{◌≡◌, ◌+◌, ◌<◌, ◌≤◌, OnOk, IfOk, IfSome, nat_lt};
ghost use Rattle.std.specs.FinMap as map;

use crate::bounded::MOST_HASHED;
use crate::{BoundedIndexMap, Content, FileName};
use std::alloc::{AllocError, Global};
use std::marker::Model;
use tq_shape::ExactClone;

/// A copy of a file: the version that was installed last, and its content.
#[derive(Clone)]
pub struct FileCopy {
    pub version: u64,
    pub content: Content,
}

// Written out, so that a crate above lets go of one by a call.
impl Drop for FileCopy {
    fn drop(self) {
        let Self {
            version: _,
            content: _,
        } = self;
    }
}

/// A server's copies, a map whose versions only rise.
pub struct Copies {
    files: BoundedIndexMap<FileName, FileCopy>,
    never_written: FileCopy,
    /// Where the copy stands that was noted last. Nothing rests on it.
    noted: usize,
}

// Written out, so that a crate above lets go of one by a call.
impl Drop for Copies {
    fn drop(self) {
        let Self {
            files: _,
            never_written: _,
            noted: _,
        } = self;
    }
}

impl Model for Copies {
    ghost use Rattle.std.specs.Prelude.{◌≡◌, []};
    ghost use Rattle.std.specs.FinMap as map;
    ghost use Rattle.indexmap.specs.IndexMap.{spare};
    ghost use Rattle.tq_store.specs.Copies.{CopiesView, copies_code};

    ghost Value = { CopiesView };

    ghost coded = { copies_code };

    ghost view = { λ a. record { files = map.from_entries a.files.entries; room = spare a.files } };

    ghost invariant = { λ a. (a.never_written.version ≡ 0) × (a.never_written.content ≡ []) };
}

impl Copies {
    ghost use Rattle.tq_store.specs.Copies.{Installs, OnlyRises, copy_of, copy_with, copies_after_install};

    /// No file was written.
    pub fn new(alloc: Global) -> Copies
        ensures { result.files ≡ map.empty }
    {
        Copies {
            files: BoundedIndexMap::new(alloc),
            never_written: FileCopy {
                version: 0,
                content: Content::empty(),
            },
            noted: 0,
        }
    }

    /// The same copies, with memory of their own.
    pub fn copy(&self, _alloc: Global) -> Result<Copies, AllocError>
        ensures { IfOk result (λ copy. copy.files ≡ self.now.files) }
    {
        let files = self.files.clone()?;
        let never_written = FileCopy {
            version: 0,
            content: Content::empty(),
        };
        Ok(Copies {
            files,
            never_written,
            noted: 0,
        })
    }

    /// The copy of a file, of version 0 and empty where it was never written.
    #[inline(always)]
    pub fn get(&self, name: &FileName) -> &FileCopy
        ensures { result.now ≡ copy_of self.now.files name.now }
    {
        match self.files.get(name) {
            Some(copy) => copy,
            None => &self.never_written,
        }
    }

    /// Notes where the file's copy stands, so that `get_noted` finds it with no search. The copies stay as they are.
    #[inline(always)]
    pub fn note(&mut self, name: &FileName)
        ensures { self.new ≡ self.old }
    {
        if self.noted_copy(name).is_none() {
            if let Some(place) = self.files.get_index_of(name) {
                self.noted = place;
            }
        }
    }

    /// The copy of a file, as `get` tells it; one that was noted is found with no search.
    #[inline(always)]
    pub fn get_noted(&self, name: &FileName) -> &FileCopy
        ensures { result.now ≡ copy_of self.now.files name.now }
    {
        if let Some(copy) = self.noted_copy(name) {
            return copy;
        }
        self.get(name)
    }

    /// The copy that was noted, where it is that of the file.
    #[inline(always)]
    fn noted_copy(&self, name: &FileName) -> Option<&FileCopy>
        ensures { IfSome result (λ copy. copy.now ≡ copy_of self.now.files name.now) }
    {
        match self.files.get_index(self.noted) {
            Some(entry) => {
                if *entry.0 == *name {
                    return Some(entry.1);
                }
                None
            }
            None => None,
        }
    }

    /// Makes room for this many calls of `install`. The copies stay as they are. Where there is too little, room is made for
    /// three times as many copies more, as long as they are few, so that they are seldom moved.
    pub fn reserve(&mut self, _alloc: Global, additional: usize) -> Result<(), AllocError>
        ensures files { self.new.files ≡ self.old.files }
        ensures room { OnOk result (additional ≤ self.new.room) }
    {
        if additional <= self.files.capacity() - self.files.len() {
            return Ok(());
        }
        let count = self.files.len();
        let more = count
            .saturating_mul(3)
            .min(MOST_HASHED.saturating_sub(count));
        self.files.reserve(more.max(additional))
    }

    /// Keeps the greater version, at equal ones the copy that is there. It takes no memory.
    pub fn install(&mut self, name: FileName, version: u64, content: Content)
        requires { 0 < self.old.room }
        ensures files { self.new.files
            ≡ copies_after_install self.old.files name (copy_with version content) }
        ensures installs { Installs self.old.files self.new.files name (copy_with version content) }
        ensures rises { OnlyRises self.old.files self.new.files }
        ensures room { self.old.room ≤ self.new.room + 1 }
    {
        let _is_newer = self.install_newer(name, version, content);
    }

    /// Installs a copy as `install` does, and tells whether it is newer than the one that was there. It takes no memory.
    pub fn install_newer(&mut self, name: FileName, version: u64, content: Content) -> bool
        requires { 0 < self.old.room }
        ensures newer { result ≡ nat_lt (copy_of self.old.files name).version version }
        ensures files { self.new.files
            ≡ copies_after_install self.old.files name (copy_with version content) }
        ensures installs { Installs self.old.files self.new.files name (copy_with version content) }
        ensures rises { OnlyRises self.old.files self.new.files }
        ensures room { self.old.room ≤ self.new.room + 1 }
    {
        if version == 0 {
            return false;
        }
        let copy = FileCopy { version, content };
        let replaced = self.files.insert(name, copy).unwrap();
        let Some(before) = replaced else {
            return true;
        };
        if before.version < version {
            return true;
        }
        if let Some(copy) = self.files.get_mut(&name) {
            *copy = before;
        }
        false
    }
}

impl ExactClone for FileCopy {
    ghost use Rattle.std.proofs.Common.{rules};

    ghost clones = { Prim.search rules };
}
