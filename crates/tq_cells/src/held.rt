//! A part beside its journal, and what is asked of it under the lock of a cell.

ghost use Rattle.std.specs.Prelude.{◌≡◌, ◌+◌, ◌∷◌, ◌++◌, [], ◌↔◌, length, drop, max, vec_len, IfOk, IfErr, IsTrue, OnOk, OnErr, IsErrOf};
ghost use Rattle.tq_shape.specs.{Journal.{IsLegalFrom, entry}, Agrees.{IsFull, standing_part}};
ghost use Rattle.tq_cells.specs.Passes.{IsUntaken, last_behind, told_reply};

use crate::cell::{Twice, Untaken};
use crate::pass::Pass;
use crate::receipt::Receipt;
use crate::settings::{ByPlan, Replies, Settings};
use std::alloc::Global;
use std::marker::Model;
use std::sync::Wait;
use tq_shape::{Answers, Entry, Fault, Memory, Part};

/// A part beside its journal, as `tq_shape` has one, but asked in the way of its settings. Each reply of the journal is
/// the one that the part gave there, and the part is what the asks of the journal make of a part that was asked nothing.
#[derive(Drop)]
pub struct Held<P: Answers> {
    part: P,
    journal: Vec<Entry<P::Ask, P::Reply>>,
    limit: u32,
}

impl<P: Answers> Model for Held<P> {
    ghost use Rattle.tq_shape.specs.Agrees.{Agrees, Standing, standing_part};

    ghost Value = { Standing P P.Ask P.Reply };

    ghost view = { λ k. standing_part k.part k.journal.items k.limit };

    ghost invariant = { λ k.
        Agrees P.opening P.is_ready P.reply P.after k.part k.journal.items k.limit };
}

impl<P: Answers> Held<P> {
    /// A part that was asked nothing, with an empty journal, which may have that many entries.
    pub(crate) fn new(alloc: Global, part: P, limit: u32) -> Held<P>
        requires { part ≡ P.opening part }
        ensures { result ≡ standing_part part [] limit }
    {
        Held {
            part,
            journal: Vec::new(alloc),
            limit,
        }
    }

    /// The part as its journal leaves it.
    pub fn part(&self) -> &P
        ensures part { result.now ≡ self.now.part }
    {
        &self.part
    }

    /// The entries, the oldest first. The first has the number 1.
    pub(crate) fn entries(&self) -> &[Entry<P::Ask, P::Reply>]
        ensures entries { result.now ≡ self.now.journal }
        ensures legal { IsLegalFrom P.reply P.after (P.opening self.now.part) 1 result.now }
    {
        self.journal.as_slice()
    }

    /// The journal, without the part: the entries, the oldest first.
    pub fn into_entries(self) -> Vec<Entry<P::Ask, P::Reply>>
        ensures entries { result.items ≡ self.journal }
        ensures legal { IsLegalFrom P.reply P.after (P.opening self.part) 1 result.items }
    {
        let Held {
            part: _,
            journal: entries,
            limit: _,
        } = self;
        entries
    }

    /// Whether the journal has as many entries as its limit: then no ask is taken.
    fn is_full(&self) -> bool
        ensures { IsTrue result ↔ IsFull self.now }
    {
        self.journal.len() == self.limit as usize
    }

    /// Asks the part under the next number, and enters what it replies into the journal. Room and both copies of the ask
    /// are made before it changes. Answers `JournalFull` with the ask where the journal has as many entries as its limit,
    /// before any memory is asked for, and `Memory` where memory is refused. At a fault all is as it was.
    pub(crate) fn answer<R: Wait, S: Settings<P>>(
        &mut self,
        rt: &R,
        alloc: Global,
        settings: &S,
        ask: P::Ask,
    ) -> Result<Twice<P::Ask, P::Reply>, Untaken<P::Ask>>
        ensures number { IfOk result (λ r. r.number ≡ length self.old.journal + 1) }
        ensures told { IfOk result (λ r.
            r.told ≡ entry ask (P.reply self.old.part r.number ask)) }
        ensures kept { IfOk result (λ r. r.kept ≡ r.told) }
        ensures after { IfOk result (λ r. self.new ≡ standing_part
            (P.after self.old.part r.number ask) (self.old.journal ++ r.told ∷ [])
            self.old.limit) }
        ensures legal { OnOk result
            (IsLegalFrom P.reply P.after (P.opening self.new.part) 1 self.new.journal) }
        ensures err { OnErr result (self.new ≡ self.old) }
        ensures full { IsErrOf result (Untaken.JournalFull ask) ↔ IsFull self.old }
        ensures fault { IfErr result (IsUntaken ask) }
    {
        if self.is_full() {
            return Err(Untaken::JournalFull { ask });
        }
        let Held {
            part,
            journal,
            limit: _,
        } = self;
        let number = journal.len() as u64 + 1;
        let Ok(()) = journal.reserve(1) else {
            return Err(Untaken::Memory);
        };
        let Ok(kept) = P::same_ask(alloc, &ask) else {
            return Err(Untaken::Memory);
        };
        let Ok(told) = P::same_ask(alloc, &ask) else {
            return Err(Untaken::Memory);
        };
        let Ok(replies) = settings.ask_part(rt, alloc, part, number, &ask) else {
            return Err(Untaken::Memory);
        };
        journal.push_reserved(Entry {
            ask,
            reply: replies.entered,
        });
        Ok(Twice {
            number,
            kept: Entry {
                ask: kept,
                reply: replies.kept,
            },
            told: Entry {
                ask: told,
                reply: replies.told,
            },
        })
    }
}

/// Asks the part as `answer` does, by plan, under the part's name. A receipt is put into the caller's pass, and one like it
/// is handed out. At a fault all is as it was.
pub(crate) fn answer_to<R: Wait, P: Answers>(
    rt: &R,
    held: &mut Held<P>,
    alloc: Global,
    part: Part,
    pass: &mut Pass<P>,
    ask: P::Ask,
) -> Result<Receipt<P>, Fault>
    ensures number { IfOk result (λ r. r.number ≡ length held.old.journal + 1) }
    ensures receipt { IfOk result (λ r. r
        ≡ told_reply part r.number ask (P.reply held.old.part r.number ask)) }
    ensures after { IfOk result (λ r. held.new ≡ standing_part
        (P.after held.old.part r.number ask) (held.old.journal ++ entry ask r.reply ∷ [])
        held.old.limit) }
    ensures pass { IfOk result (λ r. pass.new.receipts ≡ pass.old.receipts ++ r ∷ []) }
    ensures seen { IfOk result (λ r. pass.new.seen ≡ max pass.old.seen r.number) }
    ensures legal { OnOk result
        (IsLegalFrom P.reply P.after (P.opening held.new.part) 1 held.new.journal) }
    ensures err { OnErr result ((held.new ≡ held.old) × (pass.new ≡ pass.old)) }
    ensures full { IsErrOf result Fault.JournalFull
        ↔ (length held.old.journal ≡ held.old.limit) }
{
    if held.is_full() {
        return Err(Fault::JournalFull);
    }
    pass.receipts.reserve(1)?;
    match held.answer(rt, alloc, &ByPlan, ask) {
        Ok(twice) => {
            let Twice { number, kept, told } = twice;
            pass.receipts
                .push_reserved(Receipt::new(part, number, kept));
            pass.seen = pass.seen.max(number);
            Ok(Receipt::new(part, number, told))
        }
        Err(Untaken::Memory) => Err(Fault::Memory),
        Err(Untaken::JournalFull { ask: _ }) => Err(Fault::JournalFull),
    }
}

/// The entries after a number, none where there are fewer; the caller has then seen the last of them.
pub(crate) fn since<P: Answers>(
    held: &Held<P>,
    alloc: Global,
    pass: &mut Pass<P>,
    number: u64,
) -> Result<Vec<Entry<P::Ask, P::Reply>>, Memory>
    ensures entries { IfOk result (λ v. v.items ≡ drop number held.now.journal) }
    ensures legal { IsLegalFrom P.reply P.after (P.opening held.now.part) 1 held.now.journal }
    ensures receipts { pass.new.receipts ≡ pass.old.receipts }
    ensures seen { IfOk result (λ v. pass.new.seen
        ≡ max pass.old.seen (last_behind number (vec_len v))) }
    ensures err { OnErr result (pass.new ≡ pass.old) }
{
    let entries = held.entries();
    let last = entries.len() as u64;
    if number >= last {
        return Ok(Vec::new(alloc));
    }
    let copied = entry_copies::<P>(alloc, &entries[number as usize..])?;
    pass.seen = pass.seen.max(last);
    Ok(copied)
}

/// Equal entries. Answers an error only where memory is refused.
fn entry_copies<P: Answers>(
    alloc: Global,
    entries: &[Entry<P::Ask, P::Reply>],
) -> Result<Vec<Entry<P::Ask, P::Reply>>, Memory>
    ensures { IfOk result (λ v. v.items ≡ entries.now) }
{
    let mut copied = Vec::with_capacity(alloc, entries.len())?;
    for entry in entries {
        copied.push(same::<P>(alloc, &entry.ask, &entry.reply)?)?;
    }
    Ok(copied)
}

/// An equal ask with an equal reply. Answers an error only where memory is refused.
#[inline(always)]
fn same<P: Answers>(
    alloc: Global,
    ask: &P::Ask,
    reply: &P::Reply,
) -> Result<Entry<P::Ask, P::Reply>, Memory>
    ensures { IfOk result (λ e. e ≡ entry ask.now reply.now) }
{
    let ask = P::same_ask(alloc, ask)?;
    let reply = P::same_reply(alloc, reply)?;
    Ok(Entry { ask, reply })
}
