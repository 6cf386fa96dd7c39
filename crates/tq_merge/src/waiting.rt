//! Which parts wait for an entry that their next one cites. Nothing rests on it but time: what is placed, and that nothing
//! is left that can be placed, is told without it.
use std::alloc::Global;
use std::mem;
use tq_shape::Memory;
use tq_tables::Journals;

/// No part.
const NONE: u64 = u64::MAX;

/// The parts that wait, and those that were woken. Each part has a place: the servers upwards, and then the desk. Once made,
/// it takes memory where more parts are woken at a time than ever before, and no more.
#[derive(Drop)]
pub(crate) struct Waiting {
    /// Of each part, and of each of its entries by its number, the part that came last of those that wait for the entry.
    last: Vec<Vec<u64>>,
    /// Of each part, the one that came before it of those that wait for the same entry.
    before: Vec<u64>,
    woken: Vec<u64>,
}

impl Waiting {
    /// No part waits, and each is woken.
    pub(crate) fn new(alloc: Global, journals: &Journals) -> Result<Waiting, Memory> {
        let mut last = Vec::new(alloc);
        let mut woken = Vec::new(alloc);
        for (place, entries) in journals.servers().iter().enumerate() {
            last.push(Vec::from_elem(alloc, NONE, entries.len() + 1)?)?;
            woken.push(place as u64)?;
        }
        let servers = journals.servers().len();
        last.push(Vec::from_elem(alloc, NONE, journals.desk().len() + 1)?)?;
        woken.push(servers as u64)?;
        let before = Vec::from_elem(alloc, NONE, servers + 1)?;
        Ok(Waiting {
            last,
            before,
            woken,
        })
    }

    /// The place of a part that was woken, which is woken no more.
    pub(crate) fn next(&mut self) -> Option<usize> {
        match self.woken.pop() {
            Some(place) => Some(place as usize),
            None => None,
        }
    }

    /// The part at the place waits for the entry of that number of the other one.
    pub(crate) fn wait(&mut self, place: usize, other: usize, number: u64) {
        let last = self.replace(other, number, place as u64);
        if let Some(before) = self.before.get_mut(place) {
            *before = last;
        }
    }

    /// Wakes those that wait for the entries of the part at the place that come after the first so many, up to that many.
    pub(crate) fn wake(&mut self, place: usize, from: u64, to: u64) -> Result<(), Memory> {
        for number in from..to {
            self.wake_for(place, number + 1)?;
        }
        Ok(())
    }

    /// The same for one entry.
    fn wake_for(&mut self, place: usize, number: u64) -> Result<(), Memory> {
        let mut part = self.replace(place, number, NONE);
        for _ in 0..self.before.len() {
            if part == NONE {
                return Ok(());
            }
            self.woken.push(part)?;
            part = match self.before.get(part as usize) {
                Some(before) => *before,
                None => NONE,
            };
        }
        Ok(())
    }

    /// Puts the part in the place of the one that came last of those that wait for the entry, and tells that one.
    fn replace(&mut self, place: usize, number: u64, part: u64) -> u64 {
        let Some(entries) = self.last.get_mut(place) else {
            return NONE;
        };
        match entries.get_mut(number as usize) {
            Some(last) => mem::replace(last, part),
            None => NONE,
        }
    }
}
