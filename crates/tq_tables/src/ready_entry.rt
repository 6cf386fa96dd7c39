//! What is reserved: an ask of any part with its number, and the tables that it leads to.

ghost use Rattle.std.specs.Prelude.{◌≡◌, ◌↔◌, IsTrue, IfOk};

use crate::followed::Followed;
use crate::{PartEntry, Same};
use std::alloc::Global;
use tq_asks::NodeAsk;
use tq_desk::DeskAsk;
use tq_live::ViewAsk;
use tq_shape::{Memory, Part};

/// What a server, the desk or the view is asked.
#[derive(Drop)]
pub enum PartAsk {
    Server(NodeAsk),
    Desk(DeskAsk),
    View(ViewAsk),
}

/// An entry of a part by the part, its number in the part's journal, and what it asks.
#[derive(Drop)]
pub struct ReadyEntry {
    pub part: Part,
    pub number: u64,
    pub ask: PartAsk,
}

impl PartAsk {
    ghost use Rattle.tq_tables.specs.Reserved.{ask_of};

    /// What the entry asks.
    fn of(entry: &PartEntry<'_>) -> Result<PartAsk, Memory>
        ensures { IfOk result (λ ask. ask ≡ ask_of entry.now) }
    {
        match entry {
            PartEntry::Server(entry) => Ok(PartAsk::Server(entry.ask.clone()?)),
            PartEntry::Desk(entry) => Ok(PartAsk::Desk(entry.ask.clone()?)),
            PartEntry::View(entry) => Ok(PartAsk::View(entry.ask)),
        }
    }

    /// An equal ask.
    fn copy(&self) -> Result<PartAsk, Memory>
        ensures { IfOk result (λ copy. copy ≡ self.now) }
    {
        match self {
            PartAsk::Server(ask) => Ok(PartAsk::Server(ask.clone()?)),
            PartAsk::Desk(ask) => Ok(PartAsk::Desk(ask.clone()?)),
            PartAsk::View(ask) => Ok(PartAsk::View(*ask)),
        }
    }

    /// Whether the entry asks this.
    fn is_of(&self, entry: &PartEntry<'_>) -> bool
        ensures { IsTrue result ↔ (self.now ≡ ask_of entry.now) }
    {
        match self {
            PartAsk::Server(ask) => match entry {
                PartEntry::Server(entry) => ask.is_same(&entry.ask),
                _ => false,
            },
            PartAsk::Desk(ask) => match entry {
                PartEntry::Desk(entry) => ask.is_same(&entry.ask),
                _ => false,
            },
            PartAsk::View(ask) => match entry {
                PartEntry::View(entry) => ask.is_same(&entry.ask),
                _ => false,
            },
        }
    }
}

impl ReadyEntry {
    ghost use Rattle.tq_tables.specs.Reserved.{ready_entry};

    /// The entry of that part, of that number.
    pub(crate) fn of(part: Part, number: u64, entry: &PartEntry<'_>) -> Result<ReadyEntry, Memory>
        ensures { IfOk result (λ ready. ready ≡ ready_entry part number entry.now) }
    {
        let ask = PartAsk::of(entry)?;
        Ok(ReadyEntry { part, number, ask })
    }

    /// An equal one.
    pub(crate) fn copy(&self) -> Result<ReadyEntry, Memory>
        ensures { IfOk result (λ copy. copy ≡ self.now) }
    {
        let ask = self.ask.copy()?;
        Ok(ReadyEntry {
            part: self.part,
            number: self.number,
            ask,
        })
    }

    /// Whether it is this entry of that part, of that number.
    pub(crate) fn is_for(&self, part: Part, number: u64, entry: &PartEntry<'_>) -> bool
        ensures { IsTrue result ↔ (self.now ≡ ready_entry part number entry.now) }
    {
        if self.part != part {
            return false;
        }
        if self.number != number {
            return false;
        }
        self.ask.is_of(entry)
    }
}

/// An entry that is reserved, and what is followed after it.
#[derive(Drop)]
pub(crate) struct Ready {
    pub(crate) entry: ReadyEntry,
    pub(crate) after: Followed,
}

impl Ready {
    ghost use Rattle.tq_tables.specs.Reserved.{AreCopied};

    /// An equal one, with memory of its own.
    pub(crate) fn copy(&self, alloc: Global) -> Result<Ready, Memory>
        ensures entry { IfOk result (λ copy. copy.entry ≡ self.now.entry) }
        ensures after { IfOk result (λ copy. AreCopied self.now.after copy.after) }
    {
        let after = self.after.copy(alloc)?;
        let entry = self.entry.copy()?;
        Ok(Ready { entry, after })
    }

    /// What is followed after the entry.
    pub(crate) fn into_after(self) -> Followed
        ensures { result ≡ self.after }
    {
        let Self { entry: _, after } = self;
        after
    }
}
