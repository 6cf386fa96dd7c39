//! The receipt of one ask.

ghost use Rattle.std.specs.Prelude.{◌≡◌};
ghost use Rattle.tq_shape.specs.Journal.{entry};
ghost use Rattle.tq_cells.specs.Passes.{told_reply};

use std::marker::Model;
use tq_shape::{Answers, Entry, Part};

/// What a caller was told of an ask: which part was asked, under which number, and what it replied. Only a cell makes
/// one.
#[derive(Drop)]
pub struct Receipt<P: Answers> {
    part: Part,
    number: u64,
    ask: P::Ask,
    reply: P::Reply,
}

impl<P: Answers> Model for Receipt<P> {
    ghost use Rattle.tq_cells.specs.Passes.{Told, told_reply};

    ghost Value = { Told P.Ask P.Reply };

    ghost view = { λ r. told_reply r.part r.number r.ask r.reply };
}

impl<P: Answers> Receipt<P> {
    /// A receipt of that entry of the part.
    pub(crate) fn new(part: Part, number: u64, entry: Entry<P::Ask, P::Reply>) -> Receipt<P>
        ensures { result ≡ told_reply part number entry.ask entry.reply }
    {
        let Entry { ask, reply } = entry;
        Receipt {
            part,
            number,
            ask,
            reply,
        }
    }

    /// The part that was asked.
    pub fn part(&self) -> Part
        ensures { result ≡ self.now.part }
    {
        self.part
    }

    /// The number of the ask's entry: its place in the journal of the part, from 1.
    pub fn number(&self) -> u64
        ensures { result ≡ self.now.number }
    {
        self.number
    }

    /// What was asked.
    pub fn ask(&self) -> &P::Ask
        ensures { result.now ≡ self.now.ask }
    {
        &self.ask
    }

    /// What the part replied.
    pub fn reply(&self) -> &P::Reply
        ensures { result.now ≡ self.now.reply }
    {
        &self.reply
    }

    /// What was asked, with what the part replied.
    pub fn into_entry(self) -> Entry<P::Ask, P::Reply>
        ensures { result ≡ entry self.ask self.reply }
    {
        let Receipt {
            part: _,
            number: _,
            ask,
            reply,
        } = self;
        Entry { ask, reply }
    }
}
