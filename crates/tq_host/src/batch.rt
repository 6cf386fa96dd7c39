//! A part with the text that did not go out yet.

use crate::wire::Wire;
use std::alloc::Global;
use std::marker::Model;
use tq_json::Scratch;
use tq_shape::{Journaled, Memory};

/// What is answered of a line that is no ask of the part.
const BAD: &str = "{\"bad\":\"ask\"}\n";

/// What is answered where the journal has as many entries as its limit.
const FULL: &str = "{\"full\":true}\n";

/// What is answered where memory was refused.
const MEMORY: &str = "{\"memory\":true}\n";

/// A part that answers lines, with the text of the entries that the log does not have yet, and of the answers to the lines
/// that are not written yet.
#[derive(Drop)]
pub(crate) struct Batch<P: Wire> {
    part: Journaled<P>,
    entries: Vec<u8>,
    answers: Vec<u8>,
}

impl<P: Wire> Model for Batch<P> {
    ghost use Rattle.std.specs.Prelude.{◌≡◌};
    ghost use Rattle.tq_host.specs.Told.{Batched};

    ghost Value = { Batched P P.Ask P.Reply };

    ghost view = { λ batch. record {
      standing = batch.part;
      entries = batch.entries.items;
      answers = batch.answers.items;
    } };
}

impl<P: Wire> Batch<P> {
    ghost use Rattle.std.specs.Prelude.{◌≡◌, ◌^◌, ◌≤◌, ◌<◌, ◌++◌, [], ℕ, List, Some, length, take, OnOk, OnErr};
    ghost use Rattle.tq_shape.specs.declared.part.Entry.{Entry};
    ghost use Rattle.tq_host.specs.Told.{Told, IsTold, IsEntered, with_told, nothing_left};
    ghost use Rattle.tq_host.specs.Told as told;

    /// A part that answered all.
    pub(crate) fn new(alloc: Global, part: Journaled<P>) -> Batch<P>
        ensures { result ≡ nothing_left part }
    {
        Batch {
            part,
            entries: Vec::new(alloc),
            answers: Vec::new(alloc),
        }
    }

    /// The text of the entries that the log does not have yet.
    pub(crate) fn entries(&self) -> &[u8]
        ensures { result.now ≡ self.now.entries }
    {
        self.entries.as_slice()
    }

    /// The text of the answers that are not written yet.
    pub(crate) fn answers(&self) -> &[u8]
        ensures { result.now ≡ self.now.answers }
    {
        self.answers.as_slice()
    }

    /// The log has all entries, and all answers are written.
    pub(crate) fn clear(&mut self)
        ensures { self.new ≡ nothing_left self.old.standing }
    {
        self.entries.clear();
        self.answers.clear();
    }

    /// Answers a line. Answers an error only where memory is refused even for the answer that it is; then all is as it was.
    pub(crate) fn answer(
        &mut self,
        alloc: Global,
        scratch: &mut Scratch,
        line: &[u8],
    ) -> Result<(), Memory>
        ensures told { OnOk result ((answer : Told P.Ask P.Reply)
            × IsTold P.reply P.after P.reads_ask P.reads P.entry_line
            self.old.standing line.now answer
            × (self.new ≡ with_told P.after P.entry_line P.told_line self.old answer)) }
        ensures err { OnErr result (self.new ≡ self.old) }
    {
        let Ok(read) = P::ask_of_line(alloc, scratch, line) else {
            self.tell(MEMORY)?;
            return Ok(());
        };
        let Some(ask) = read else {
            self.tell(BAD)?;
            return Ok(());
        };
        if self.part.is_full() {
            self.tell(FULL)?;
            return Ok(());
        }
        if let Ok(()) = self.enter(alloc, ask) {
            return Ok(());
        }
        self.tell(MEMORY)?;
        Ok(())
    }

    /// Puts an answer without an entry.
    fn tell(&mut self, answer: &str) -> Result<(), Memory>
        ensures ok { OnOk result (self.new
            ≡ record self.old { answers = self.old.answers ++ answer.now }) }
        ensures err { OnErr result (self.new ≡ self.old) }
    {
        self.answers.extend_from_slice(answer.as_bytes())?;
        Ok(())
    }

    /// Asks the part, and puts the entry and the answer. Where memory is refused all is as it was.
    fn enter(&mut self, alloc: Global, ask: P::Ask) -> Result<(), Memory>
        requires room { length self.old.standing.journal < self.old.standing.limit }
        requires few { self.old.standing.limit < 2 ^ 32 }
        ensures ok { (line : List ℕ) → P.reads_ask line (Some ask)
            → OnOk result ((e : Entry P.Ask P.Reply)
            × IsEntered P.reply P.after P.reads_ask P.reads P.entry_line self.old.standing line e
            × (self.new
            ≡ with_told P.after P.entry_line P.told_line self.old (told.entered e))) }
        ensures err { OnErr result (self.new ≡ self.old) }
    {
        let number = self.part.entries().len() as u64 + 1;
        let plan = self.part.part().plan(alloc, number, &ask)?;
        let entry = self.part.part().line_of_entry(alloc, &ask, &plan.reply)?;
        let told = P::line_of_told(alloc, number, &plan.reply)?;
        let entries = self.entries.len();
        let answers = self.answers.len();
        self.put(entry.as_bytes(), told.as_bytes())?;
        match self.part.enter(alloc, ask, plan) {
            Ok(()) => Ok(()),
            Err(fault) => {
                self.cut(entries, answers);
                Err(fault)
            }
        }
    }

    /// Puts the line of an entry and that of an answer, or none of both.
    fn put(&mut self, entry: &[u8], told: &[u8]) -> Result<(), Memory>
        ensures ok { OnOk result (self.new ≡ record self.old {
          entries = self.old.entries ++ entry.now;
          answers = self.old.answers ++ told.now;
        }) }
        ensures err { OnErr result (self.new ≡ self.old) }
    {
        let entries = self.entries.len();
        self.entries.extend_from_slice(entry)?;
        match self.answers.extend_from_slice(told) {
            Ok(()) => Ok(()),
            Err(fault) => {
                self.entries.truncate(entries);
                Err(fault)
            }
        }
    }

    /// Leaves so many bytes of entries and of answers.
    fn cut(&mut self, entries: usize, answers: usize)
        ensures { self.new ≡ record self.old {
          entries = take entries self.old.entries;
          answers = take answers self.old.answers;
        } }
    {
        self.entries.truncate(entries);
        self.answers.truncate(answers);
    }
}
