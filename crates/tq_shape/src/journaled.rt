//! A part with its journal.

ghost use Rattle.std.specs.Prelude.{◌≡◌, ◌+◌, ◌^◌, [], ◌≤◌, ◌<◌, ◌↔◌, length, vec_len, IsTrue, IfOk, OnOk, OnErr, IsErrOf};
ghost use Rattle.tq_shape.specs.Journal.{IsLegalFrom, state_from};
ghost use Rattle.tq_shape.specs.Agrees.{answer_to, state_after_entry, next_number, standing_part, IsFull};

use crate::answers::{Answers, Plan};
use crate::fault::Fault;
use crate::{Entry, Memory};
use std::alloc::Global;
use std::marker::Model;

/// What the asker is told of an ask that was taken.
#[derive(Drop)]
pub struct Answered<R> {
    /// The number of the ask's entry: its place in the journal, from 1.
    pub number: u64,
    /// The reply that stands in the entry.
    pub reply: R,
}

/// A part beside its journal. The journal holds each ask that was taken with its reply, the oldest first, and has at
/// most as many entries as its limit. Each reply is the one that the part gave there, and the part is what the asks
/// of the journal make of a part that was asked nothing.
#[derive(Drop)]
pub struct Journaled<P: Answers> {
    part: P,
    journal: Vec<Entry<P::Ask, P::Reply>>,
    limit: u32,
}

impl<P: Answers> Model for Journaled<P> {
    ghost use Rattle.tq_shape.specs.Agrees.{Agrees, Standing, standing_part};

    ghost Value = { Standing P P.Ask P.Reply };

    ghost view = { λ k. standing_part k.part k.journal.items k.limit };

    ghost invariant = { λ k.
        Agrees P.opening P.is_ready P.reply P.after k.part k.journal.items k.limit };
}

impl<P: Answers> Journaled<P> {
    /// A part that was asked nothing, with an empty journal. The journal may have that many entries; with a limit
    /// of 0 no ask is taken.
    pub fn new(alloc: Global, part: P, limit: u32) -> Journaled<P>
        requires { part ≡ P.opening part }
        ensures { result ≡ standing_part part [] limit }
    {
        Journaled {
            part,
            journal: Vec::new(alloc),
            limit,
        }
    }

    /// The part as its journal leaves it. It may be asked the next number.
    pub fn part(&self) -> &P
        ensures part { result.now ≡ self.now.part }
        ensures replays { result.now
            ≡ state_from P.after (P.opening result.now) 1 self.now.journal }
        ensures ready { P.is_ready result.now (length self.now.journal + 1) }
    {
        &self.part
    }

    /// The entries, the oldest first. The first has the number 1.
    pub fn entries(&self) -> &[Entry<P::Ask, P::Reply>]
        ensures entries { result.now ≡ self.now.journal }
        ensures legal { IsLegalFrom P.reply P.after (P.opening self.now.part) 1 result.now }
    {
        self.journal.as_slice()
    }

    /// Whether the journal has as many entries as its limit: then no ask is taken.
    pub fn is_full(&self) -> bool
        ensures full { IsTrue result ↔ IsFull self.now }
        ensures within { length self.now.journal ≤ self.now.limit }
        ensures few { self.now.limit < 2 ^ 32 }
    {
        self.journal.len() == self.limit as usize
    }

    /// Asks the part under the next number: the part changes as the ask says, and the ask is entered with its reply,
    /// which the asker is told with the number of the entry. Answers `JournalFull` where the journal has as many
    /// entries as its limit, before any memory is asked for, and `Memory` where memory is refused. At an error the
    /// part and its journal are as they were.
    pub fn ask(&mut self, alloc: Global, ask: P::Ask) -> Result<Answered<P::Reply>, Fault>
        ensures told { IfOk result (λ told. told ≡ answer_to P.reply self.old ask) }
        ensures after { IfOk result (λ told. self.new
            ≡ state_after_entry P.after self.old told.number ask told.reply) }
        ensures legal { IsLegalFrom P.reply P.after (P.opening self.new.part) 1 self.new.journal }
        ensures err { OnErr result (self.new ≡ self.old) }
        ensures full { IsErrOf result Fault.JournalFull ↔ IsFull self.old }
    {
        if self.is_full() {
            return Err(Fault::JournalFull);
        }
        let number = self.journal.len() as u64 + 1;
        let plan = self.part.plan(alloc, number, &ask)?;
        let told = P::same_reply(alloc, &plan.reply)?;
        self.enter(alloc, ask, plan)?;
        Ok(Answered {
            number,
            reply: told,
        })
    }

    /// Enters an ask that was planned under the next number: the part changes as the plan says, and the ask is entered
    /// with the plan's reply. All room is made before that, so that where memory is refused the part and its journal
    /// are as they were.
    pub fn enter(
        &mut self,
        alloc: Global,
        ask: P::Ask,
        plan: Plan<P::Reply, P::Change>,
    ) -> Result<(), Memory>
        requires room { length self.old.journal < self.old.limit }
        requires reply { plan.reply ≡ P.reply self.old.part (next_number self.old) ask }
        requires change { plan.change ≡ P.change self.old.part (next_number self.old) ask }
        ensures after { OnOk result (self.new
            ≡ state_after_entry P.after self.old (next_number self.old) ask plan.reply) }
        ensures legal { IsLegalFrom P.reply P.after (P.opening self.new.part) 1 self.new.journal }
        ensures err { OnErr result (self.new ≡ self.old) }
    {
        let Journaled {
            part,
            journal,
            limit: _,
        } = self;
        let Plan { reply, change } = plan;
        journal.reserve(1)?;
        part.apply(alloc, change)?;
        journal.push_reserved(Entry { ask, reply });
        Ok(())
    }

    /// The journal, without the part: the entries, the oldest first.
    pub fn into_entries(self) -> Vec<Entry<P::Ask, P::Reply>>
        ensures entries { result.items ≡ self.journal }
        ensures legal { IsLegalFrom P.reply P.after (P.opening self.part) 1 result.items }
        ensures within { vec_len result ≤ self.limit }
    {
        let Journaled {
            part: _,
            journal: entries,
            limit: _,
        } = self;
        entries
    }
}

/// What the part would reply to the ask under that number. Nothing changes. Answers an error only where memory is
/// refused.
pub fn foresee<P: Answers>(
    alloc: Global,
    part: &P,
    number: u64,
    ask: &P::Ask,
) -> Result<P::Reply, Memory>
    requires { P.is_ready part.now number }
    ensures { IfOk result (λ r. r ≡ P.reply part.now number ask.now) }
{
    let plan = part.plan(alloc, number, ask)?;
    Ok(plan.reply)
}
