//! Entries placed one after another, each once all that it cites is placed.
ghost use Rattle.std.specs.Prelude.{◌≡◌, ◌<◌, ◌≤◌, ◌+◌, ◌++◌, ◌∷◌, ◌↔◌, [], suc, true, false, Ok, Some, IsTrue, IfOk, OnOk, length, map};
ghost use Rattle.tq_shape.specs.declared.part.Part.{Part};
ghost use Rattle.tq_shape.specs.declared.part.Part.TheVariants as parts;
ghost use Rattle.tq_asks.specs.declared.ask.CitedVote.{CitedVote};
ghost use Rattle.tq_merge.specs.Order as spec;
ghost use Rattle.tq_merge.specs.Placing as kept;

use crate::Counts;
use crate::cited::{Wanted, wanted_at};
use crate::ready::{first_missing, is_ready, missing_in};
use crate::waiting::Waiting;
use std::alloc::Global;
use std::marker::Model;
use tq_asks::CitedVote;
use tq_core::Citation;
use tq_shape::{Memory, Part, Seq};
use tq_tables::{Journals, NodeEntry};

/// What is placed of journals, and in which order.
#[derive(Drop)]
pub(crate) struct Placing<'a> {
    journals: &'a Journals,
    order: Vec<Part>,
    /// How many entries are placed of each server, upwards from server 1.
    servers: Vec<u64>,
    /// How many entries are placed of the desk.
    desk: u64,
    /// Whether all that the desk's next entry cites stands in the journals.
    stands: bool,
    /// The entries that the desk's next entry cites, of which so many first ones were seen to be placed.
    wanted: Vec<CitedVote>,
    met: usize,
}

impl<'a> Model for Placing<'a> {
    ghost use Rattle.tq_merge.specs.Placing.{IsPlacing, PlacingView};

    ghost Value = { PlacingView };

    ghost view = { λ a. record { journals = a.journals.now; order = a.order.items } };

    ghost invariant = { λ a. IsPlacing a.journals.now a.order.items
        a.servers.items a.desk a.stands a.wanted.items a.met };
}

impl<'a> Placing<'a> {
    /// All entries of the view are placed, which cite nothing, and no others.
    pub(crate) fn new(alloc: Global, journals: &'a Journals) -> Result<Placing<'a>, Memory>
        ensures { IfOk result (λ placing. placing.journals ≡ journals.now) }
    {
        let order = Vec::from_elem(alloc, Part::View, journals.view().len())?;
        let servers = Vec::from_elem(alloc, 0, journals.servers().len())?;
        let Wanted { stands, entries } = wanted_at(alloc, journals, 0)?;
        Ok(Placing {
            journals,
            order,
            servers,
            desk: 0,
            stands,
            wanted: entries,
            met: 0,
        })
    }

    /// Places the next entry of the server, if there is one that can be placed.
    fn place_server(&mut self, place: usize) -> Result<bool, Memory>
        requires { place < length self.old.journals.servers }
        ensures journals { IfOk result (λ placed. self.new.journals ≡ self.old.journals) }
        ensures placed { result ≡ Ok true → self.new.order
            ≡ self.old.order ++ parts.Server (suc place) ∷ [] }
        ensures less { result ≡ Ok true →
            suc (kept.entries_left self.new.journals self.new.order)
            ≡ kept.entries_left self.old.journals self.old.order }
        ensures still { result ≡ Ok false → self.new.order ≡ self.old.order }
        ensures blocked { result ≡ Ok false → spec.IsNext self.new.journals self.new.order
            (parts.Server (suc place)) → ⊥ }
    {
        let journals = self.journals;
        let count = self.servers[place];
        let Some(entry) = journals.servers()[place].as_slice().get(count as usize) else {
            return Ok(false);
        };
        if !is_ready(journals, self.servers.as_slice(), self.desk, &entry.ask) {
            return Ok(false);
        }
        self.order.push(Part::Server(place as u64 + 1))?;
        self.servers[place] = count + 1;
        Ok(true)
    }

    /// Places the desk's next entry, if there is one that can be placed.
    fn place_desk(&mut self, alloc: Global) -> Result<bool, Memory>
        ensures journals { IfOk result (λ placed. self.new.journals ≡ self.old.journals) }
        ensures less { result ≡ Ok true →
            suc (kept.entries_left self.new.journals self.new.order)
            ≡ kept.entries_left self.old.journals self.old.order }
        ensures still { result ≡ Ok false → self.new.order ≡ self.old.order }
        ensures blocked { result ≡ Ok false
            → spec.IsNext self.new.journals self.new.order parts.Desk → ⊥ }
    {
        let journals = self.journals;
        if self.desk as usize >= journals.desk().len() {
            return Ok(false);
        }
        if !self.stands {
            return Ok(false);
        }
        let met = first_missing(self.wanted.as_slice(), self.met, self.servers.as_slice());
        if met < self.wanted.len() {
            self.met = met;
            return Ok(false);
        }
        let wanted = wanted_at(alloc, journals, self.desk + 1)?;
        self.order.push(Part::Desk)?;
        self.desk += 1;
        self.stands = wanted.stands;
        self.wanted = wanted.entries;
        self.met = 0;
        Ok(true)
    }

    /// Places entries of the server as far as they go.
    fn run_server(&mut self, place: usize) -> Result<bool, Memory>
        requires { place < length self.old.journals.servers }
        ensures journals { IfOk result (λ moved. self.new.journals ≡ self.old.journals) }
        ensures moved { result ≡ Ok true → kept.entries_left self.new.journals self.new.order
            < kept.entries_left self.old.journals self.old.order }
        ensures still { result ≡ Ok false → self.new.order ≡ self.old.order }
        ensures fewer { OnOk result (kept.entries_left self.new.journals self.new.order
            ≤ kept.entries_left self.old.journals self.old.order) }
        ensures blocked { IfOk result (λ moved.
            spec.IsNext self.new.journals self.new.order (parts.Server (suc place)) → ⊥) }
    {
        let mut moved = false;
        'entries: loop {
            let placed = self.place_server(place)?;
            if !placed {
                return Ok(moved);
            }
            moved = true;
        }
    }

    /// Places entries of the desk as far as they go.
    fn run_desk(&mut self, alloc: Global) -> Result<(), Memory>
        ensures journals { OnOk result (self.new.journals ≡ self.old.journals) }
        ensures fewer { OnOk result (kept.entries_left self.new.journals self.new.order
            ≤ kept.entries_left self.old.journals self.old.order) }
    {
        'entries: loop {
            let placed = self.place_desk(alloc)?;
            if !placed {
                return Ok(());
            }
        }
    }

    /// Places entries of the server as far as they go, wakes the parts that waited for them, and has it wait for what its
    /// next one cites.
    fn turn_server(&mut self, waiting: &mut Waiting, place: usize) -> Result<(), Memory>
        requires { place < length self.old.journals.servers }
        ensures journals { OnOk result (self.new.journals ≡ self.old.journals) }
        ensures fewer { OnOk result (kept.entries_left self.new.journals self.new.order
            ≤ kept.entries_left self.old.journals self.old.order) }
    {
        let before = self.placed_at(place);
        let _moved = self.run_server(place)?;
        waiting.wake(place, before, self.placed_at(place))?;
        if let Some(missing) = self.missing_at(place) {
            self.wait_for(waiting, place, missing);
        }
        Ok(())
    }

    /// The same for the desk.
    fn turn_desk(&mut self, alloc: Global, waiting: &mut Waiting) -> Result<(), Memory>
        ensures journals { OnOk result (self.new.journals ≡ self.old.journals) }
        ensures fewer { OnOk result (kept.entries_left self.new.journals self.new.order
            ≤ kept.entries_left self.old.journals self.old.order) }
    {
        let place = self.server_count();
        let before = self.desk;
        self.run_desk(alloc)?;
        waiting.wake(place, before, self.desk)?;
        if let Some(entry) = self.wanted.get(self.met) {
            wait_for_server(waiting, place, *entry);
        }
        Ok(())
    }

    /// The same for the part at the place: a server, or else the desk.
    fn turn(&mut self, alloc: Global, waiting: &mut Waiting, place: usize) -> Result<(), Memory>
        ensures journals { OnOk result (self.new.journals ≡ self.old.journals) }
        ensures fewer { OnOk result (kept.entries_left self.new.journals self.new.order
            ≤ kept.entries_left self.old.journals self.old.order) }
    {
        if place < self.server_count() {
            return self.turn_server(waiting, place);
        }
        self.turn_desk(alloc, waiting)
    }

    /// Places entries of the parts that are woken, until none is.
    fn follow(&mut self, alloc: Global, waiting: &mut Waiting) -> Result<(), Memory>
        ensures journals { OnOk result (self.new.journals ≡ self.old.journals) }
        ensures fewer { OnOk result (kept.entries_left self.new.journals self.new.order
            ≤ kept.entries_left self.old.journals self.old.order) }
    {
        for _ in 0..u64::MAX {
            let Some(place) = waiting.next() else {
                return Ok(());
            };
            self.turn(alloc, waiting, place)?;
        }
        Ok(())
    }

    /// How many entries are placed of the server at the place.
    fn placed_at(&self, place: usize) -> u64 {
        match self.servers.get(place) {
            Some(count) => *count,
            None => 0,
        }
    }

    /// What the next entry of the server cites, where that is not placed.
    fn missing_at(&self, place: usize) -> Option<Citation> {
        let count = self.placed_at(place);
        let entries = self.journals.servers().get(place)?;
        let entry = entries.as_slice().get(count as usize)?;
        missing_in(self.servers.as_slice(), self.desk, &entry.ask)
    }

    /// The part at the place waits for the entry that is cited. The view's are all placed.
    fn wait_for(&self, waiting: &mut Waiting, place: usize, cited: Citation) {
        let Citation { part, number } = cited;
        match part {
            Part::Server(server) => wait_for_server(waiting, place, CitedVote { server, number }),
            Part::Desk => waiting.wait(place, self.server_count(), number),
            Part::View => {}
        }
    }

    /// Places entries of each part once, as far as they go. A round that places none leaves none that can be placed.
    fn round(&mut self, alloc: Global) -> Result<bool, Memory>
        ensures journals { IfOk result (λ moved. self.new.journals ≡ self.old.journals) }
        ensures moved { result ≡ Ok true → kept.entries_left self.new.journals self.new.order
            < kept.entries_left self.old.journals self.old.order }
        ensures still { result ≡ Ok false → self.new.order ≡ self.old.order }
        ensures blocked { result ≡ Ok false → kept.IsDone self.new.journals self.new.order }
    {
        let mut moved = false;
        self.show_view_placed();
        for place in 0..self.server_count() {
            if self.run_server(place)? {
                moved = true;
            }
        }
        if self.place_desk(alloc)? {
            moved = true;
        }
        Ok(moved)
    }

    fn server_count(&self) -> usize
        ensures { result ≡ length self.now.journals.servers }
    {
        self.journals.servers().len()
    }

    /// The view has no further entry, and what is placed was placed in its turn.
    fn show_view_placed(&self)
        ensures view { spec.IsNext self.now.journals self.now.order parts.View → ⊥ }
        ensures founded { spec.ArePlaced self.now.journals [] self.now.order }
    {
        let _ = &self.order;
    }

    /// Places entries until none is left that can be placed: those of the parts that were woken, of all parts at first. That
    /// none is left is told by a round that places none, the first one where no part was forgotten.
    pub(crate) fn place_all(&mut self, alloc: Global) -> Result<(), Memory>
        ensures journals { OnOk result (self.new.journals ≡ self.old.journals) }
        ensures done { OnOk result (kept.IsDone self.new.journals self.new.order) }
    {
        let mut waiting = Waiting::new(alloc, self.journals)?;
        'rounds: loop {
            self.follow(alloc, &mut waiting)?;
            let moved = self.round(alloc)?;
            if !moved {
                return Ok(());
            }
        }
    }

    /// Whether all entries are placed.
    pub(crate) fn is_whole(&self) -> bool
        ensures whole { result ≡ true → (part : Part) → spec.times self.now.order part
            ≡ spec.entries_of self.now.journals part }
        ensures left { result ≡ false → ((part : Part) → spec.times self.now.order part
            ≡ spec.entries_of self.now.journals part) → ⊥ }
        ensures founded { spec.ArePlaced self.now.journals [] self.now.order }
    {
        if self.desk as usize != self.journals.desk().len() {
            return false;
        }
        are_all(self.servers.as_slice(), self.journals.servers())
    }

    /// The order of the entries placed.
    pub(crate) fn into_order(self) -> Vec<Part>
        ensures { result.items ≡ self.entry.order }
    {
        self.order
    }

    /// How many entries of each part are placed.
    pub(crate) fn into_counts(self) -> Counts
        ensures { result ≡ spec.counts_of self.entry.journals (spec.times self.entry.order) }
    {
        Counts {
            servers: Seq::from_vec(self.servers),
            desk: self.desk,
            view: self.journals.view().len() as u64,
        }
    }
}

/// The part at the place waits for the entry of a server.
fn wait_for_server(waiting: &mut Waiting, place: usize, entry: CitedVote) {
    if entry.server > 0 {
        waiting.wait(place, (entry.server - 1) as usize, entry.number);
    }
}

/// Whether each count is that of all entries of its server.
fn are_all(counts: &[u64], servers: &[Vec<NodeEntry>]) -> bool
    requires { length counts.now ≡ length servers.now }
    ensures { IsTrue result ↔ (counts.now ≡ map (λ entries. length entries.items) servers.now) }
{
    for (place, entries) in servers.iter().enumerate() {
        if counts[place] as usize != entries.len() {
            return false;
        }
    }
    true
}
