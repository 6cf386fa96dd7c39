//! The lock of a part, what is asked under it, and what the part told of an ask, twice.

ghost use Rattle.std.specs.Prelude.{◌≡◌, ◌+◌, ◌∷◌, ◌++◌, [], ◌<◌, List, drop, max, vec_len, IfOk, IfErr, OnErr};
ghost use Rattle.std.specs.Sync.Mutex.{mutex_guard_value};
ghost use Rattle.tq_shape.specs.{declared.part.Entry.Entry, Journal.IsLegalFrom};
ghost use Rattle.tq_cells.specs.Passes.{IsToldBy, IsToldByOneOf, IsUntaken, last_behind, seen_by, receipts_of};

use crate::CallFault;
use crate::gate::Gate;
use crate::held::{Held, answer_to, since};
use crate::pass::Pass;
use crate::receipt::Receipt;
use crate::settings::Settings;
use std::alloc::Global;
use std::marker::Model;
use std::sync::{Mutex, MutexGuard, Wait};
use tq_shape::{Answers, Entry, Memory, Part};

/// A part under a lock, beside its journal, which many threads may ask at once. Whenever the lock is free, the journal
/// is legal and the part is its replay.
///
/// Contracts see a cell as the name of its part: nothing that lies under the lock can be named beside it.
#[derive(Drop)]
pub struct Cell<P: Answers> {
    part: Part,
    held: Mutex<Held<P>>,
}

impl<P: Answers> Model for Cell<P> {
    ghost use Rattle.tq_shape.specs.declared.part.Part.{Part};

    ghost Value = { Part };

    ghost view = { λ cell. cell.part };
}

impl<P: Answers> Cell<P> {
    /// A cell of that name, with a part that was asked nothing and an empty journal, which may have that many entries.
    pub fn new(alloc: Global, part: Part, opening: P, entries: u32) -> Cell<P>
        requires { opening ≡ P.opening opening }
        ensures { result ≡ part }
    {
        Cell {
            part,
            held: Mutex::new(Held::new(alloc, opening, entries)),
        }
    }

    /// A pass for a caller that was told nothing. It takes no memory.
    pub fn pass(&self, alloc: Global) -> Pass<P>
        ensures { result ≡ seen_by [] 0 }
    {
        Pass::new(alloc)
    }

    /// Asks the part, once it has its lock, under the next number of the journal. The receipt says the number and the
    /// reply; one like it is the last of the pass, which was then told of that number. The gate is told once the lock is
    /// held, and once it is given back, also where the answer is a fault. Answers `JournalFull` where the journal has as
    /// many entries as it may have, and `Memory` where memory is refused: then part, journal and pass are as they were.
    pub fn call<R: Wait, G: Gate>(
        &self,
        rt: &R,
        alloc: Global,
        pass: &mut Pass<P>,
        gate: &G,
        ask: P::Ask,
    ) -> Result<Receipt<P>, CallFault>
        ensures asked { IfOk result (λ r. (r.part ≡ self.now) × (r.ask ≡ ask)) }
        ensures reply { IfOk result
            (λ r. IsToldBy P.reply P.after P.opening r.number r.ask r.reply) }
        ensures pass { IfOk result (λ r. pass.new.receipts ≡ pass.old.receipts ++ r ∷ []) }
        ensures seen { IfOk result (λ r. pass.new.seen ≡ max pass.old.seen r.number) }
        ensures err { OnErr result (pass.new ≡ pass.old) }
    {
        let mut held = self.held.lock(rt);
        gate.holding(self.part);
        let receipt = answer_to(rt, &mut held, alloc, self.part, pass, ask);
        drop(held);
        gate.answered(self.part);
        receipt
    }

    /// Asks the part, which is of these settings, as `call` does, and gives its number, the ask and the reply back, twice, in
    /// place of receipts: the pass is told of the number alone. Answers `JournalFull` with the ask where the journal has as
    /// many entries as it may have, and `Memory` where memory is refused: then part, journal and pass are as they were.
    /// A part of other settings is waited for, without end.
    pub fn tell<R: Wait, G: Gate, S: Settings<P>>(
        &self,
        rt: &R,
        alloc: Global,
        pass: &mut Pass<P>,
        gate: &G,
        settings: &S,
        ask: P::Ask,
    ) -> Result<Twice<P::Ask, P::Reply>, Untaken<P::Ask>>
        ensures asked { IfOk result (λ r. r.told.ask ≡ ask) }
        ensures kept { IfOk result (λ r. r.kept ≡ r.told) }
        ensures reply { IfOk result (λ r. IsToldByOneOf (S.are_of settings.now)
            P.reply P.after P.opening r.number r.told.ask r.told.reply) }
        ensures receipts { pass.new.receipts ≡ pass.old.receipts }
        ensures seen { IfOk result (λ r. pass.new.seen ≡ max pass.old.seen r.number) }
        ensures err { OnErr result (pass.new ≡ pass.old) }
        ensures fault { IfErr result (IsUntaken ask) }
    {
        let mut held = self.lock(rt, settings);
        gate.holding(self.part);
        let told = held.answer(rt, alloc, settings, ask);
        drop(held);
        gate.answered(self.part);
        if let Ok(told) = &told {
            pass.seen = pass.seen.max(told.number);
        }
        told
    }

    /// The lock, once it is had and the part is of these settings.
    fn lock<R: Wait, S: Settings<P>>(&self, rt: &R, settings: &S) -> MutexGuard<'_, Held<P>>
        ensures { S.are_of settings.now (mutex_guard_value result).part }
    {
        for _ in rt.forever() {
            let held = self.held.lock(rt);
            if settings.are_of_part(held.part()) {
                return held;
            }
        }
        unreachable!()
    }

    /// The entries after a number, none where the journal has fewer; the greatest number that the pass was told rises to
    /// that of the last of them. Answers an error only where memory is refused, and the pass is as it was.
    pub fn since<R: Wait>(
        &self,
        rt: &R,
        alloc: Global,
        pass: &mut Pass<P>,
        number: u64,
    ) -> Result<Vec<Entry<P::Ask, P::Reply>>, Memory>
        ensures entries { IfOk result (λ v. (s : P) × (journal : List (Entry P.Ask P.Reply))
            × IsLegalFrom P.reply P.after (P.opening s) 1 journal
            × (v.items ≡ drop number journal)) }
        ensures receipts { pass.new.receipts ≡ pass.old.receipts }
        ensures seen { IfOk result (λ v. pass.new.seen
            ≡ max pass.old.seen (last_behind number (vec_len v))) }
        ensures err { OnErr result (pass.new ≡ pass.old) }
    {
        since(&self.held.lock(rt), alloc, pass, number)
    }

    /// The part beside its journal, once no thread asks it any more. It takes no memory.
    pub fn into_held(self) -> Held<P>
        ensures { IsLegalFrom P.reply P.after (P.opening result.part) 1 result.journal }
    {
        let Cell { part: _, held } = self;
        let held = held.into_inner();
        let _ = held.entries();
        held
    }

    /// The journal, and the receipts of the passes, pass by pass. Answers an error only where memory is refused: then
    /// the cell and the passes are gone.
    pub fn into_journal(
        self,
        alloc: Global,
        passes: Vec<Pass<P>>,
    ) -> Result<(Vec<Entry<P::Ask, P::Reply>>, Vec<Receipt<P>>), Memory>
        ensures legal { IfOk result (λ r. (s : P)
            × IsLegalFrom P.reply P.after (P.opening s) 1 r.0.items) }
        ensures receipts { IfOk result (λ r. r.1.items ≡ receipts_of passes.items) }
    {
        let receipts = receipts_in_order(alloc, passes)?;
        let journal = self.into_held().into_entries();
        Ok((journal, receipts))
    }
}

/// The receipts of the passes, pass by pass.
#[tactic(auto, using(crate::proofs::Joined::receipts_snoc))]
fn receipts_in_order<P: Answers>(
    alloc: Global,
    passes: Vec<Pass<P>>,
) -> Result<Vec<Receipt<P>>, Memory>
    ensures { IfOk result (λ v. v.items ≡ receipts_of passes.items) }
{
    let mut all = Vec::new(alloc);
    for pass in passes {
        let mut receipts = pass.into_receipts();
        all.append(&mut receipts)?;
    }
    Ok(all)
}

/// What a part told of an ask, twice: one entry to keep, and an equal one to hand on. It is plain data.
#[derive(Drop)]
pub struct Twice<A, R> {
    /// The number of the ask's entry: its place in the journal of the part, from 1.
    pub number: u64,
    pub kept: Entry<A, R>,
    pub told: Entry<A, R>,
}

/// Why an ask was not taken. Then the part and its journal are as they were.
#[derive(Drop)]
pub enum Untaken<A> {
    /// Memory was refused.
    Memory,
    /// The journal has as many entries as it may have. The ask is given back.
    JournalFull { ask: A },
}
