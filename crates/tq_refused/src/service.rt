//! The steps of journals, taken one after another by a service.
ghost use Rattle.std.specs.Prelude.{◌<◌, length};

use crate::board::board_of;
use crate::input::text_of;
use crate::wrong::Wrong;
use std::alloc::Global;
use tq_core::{Journal, Refusal, Service, Step};
use tq_merge::{EntryName, found};
use tq_shape::Part;
use tq_tables::{Journals, begins};

/// Takes all steps, and prints the board and the journals that they leave.
pub(crate) fn run(rt: &HostRuntime, journals: &Journals, order: &[Part]) -> Result<(), Wrong> {
    let alloc = rt.alloc();
    let service = taken(alloc, journals, order)?;
    let board = board_of(alloc, service.tables(), service.view())?;
    let _printed = print!(rt; "{board}");
    let text = text_of(alloc, &service.into_journals())?;
    let _printed = print!(rt; "{text}");
    Ok(())
}

/// A service that took all steps, each of them once more where memory was refused.
pub(crate) fn taken(alloc: Global, journals: &Journals, order: &[Part]) -> Result<Service, Wrong> {
    let mut service = new(alloc, journals)?;
    for place in 0..order.len() {
        take(alloc, &mut service, journals, order, place)?;
    }
    Ok(service)
}

/// A service with no entry, made once more where memory is refused.
fn new(alloc: Global, journals: &Journals) -> Result<Service, Wrong> {
    match Service::new(alloc, journals.levels(), journals.limits()) {
        Ok(service) => Ok(service),
        Err(_) => Ok(Service::new(alloc, journals.levels(), journals.limits())?),
    }
}

/// Takes the step at that place of the order, where those before it were taken. Where memory is refused, the service is as
/// one that took those before it alone, and takes the step then.
fn take(
    alloc: Global,
    service: &mut Service,
    journals: &Journals,
    order: &[Part],
    place: usize,
) -> Result<(), Wrong>
    requires { place < length order.now }
{
    let step = step_at(journals, order, place)?;
    match service.step(alloc, step) {
        Ok(_) => return Ok(()),
        Err(Refusal::Memory) => (),
        Err(_) => return Err(Wrong::Otherwise),
    }
    let before = after(alloc, journals, &order[..place])?;
    if !are_same(alloc, service, &before)? {
        return Err(Wrong::Changed);
    }
    let step = step_at(journals, order, place)?;
    match service.step(alloc, step) {
        Ok(_) => Ok(()),
        Err(Refusal::Memory) => Err(Wrong::Memory),
        Err(_) => Err(Wrong::Otherwise),
    }
}

/// A service that took all these steps, where memory is there.
fn after(alloc: Global, journals: &Journals, order: &[Part]) -> Result<Service, Wrong> {
    let mut service = new(alloc, journals)?;
    for place in 0..order.len() {
        let step = step_at(journals, order, place)?;
        match service.step(alloc, step) {
            Ok(_) => (),
            Err(Refusal::Memory) => return Err(Wrong::Memory),
            Err(_) => return Err(Wrong::Otherwise),
        }
    }
    Ok(service)
}

/// The step at that place of an order of the journals' entries, copied once more where memory is refused.
pub(crate) fn step_at(journals: &Journals, order: &[Part], place: usize) -> Result<Step, Wrong>
    requires { place < length order.now }
{
    let part = order[place];
    let mut number: u64 = 1;
    for other in &order[..place] {
        if *other == part {
            number = number.saturating_add(1);
        }
    }
    let name = EntryName { part, number };
    let entry = match found(journals, name) {
        Ok(entry) => entry,
        Err(_) => found(journals, name)?,
    };
    match entry {
        Some(entry) => Ok(entry.ask),
        None => Err(Wrong::Input),
    }
}

/// Whether two services have the same boards and the same journals.
fn are_same(alloc: Global, one: &Service, other: &Service) -> Result<bool, Wrong> {
    let board = board_of(alloc, one.tables(), one.view())?;
    let other_board = board_of(alloc, other.tables(), other.view())?;
    if board.as_str() != other_board.as_str() {
        return Ok(false);
    }
    for server in 1..=one.tables().levels().servers() {
        if !is_same_journal(one, other, Part::Server(server)) {
            return Ok(false);
        }
    }
    Ok(is_same_journal(one, other, Part::Desk) && is_same_journal(one, other, Part::View))
}

/// Whether two services have the same entries of a part.
fn is_same_journal(one: &Service, other: &Service, part: Part) -> bool {
    match (one.journal(part), other.journal(part)) {
        (Some(Journal::Server(entries)), Some(Journal::Server(others))) => {
            entries.len() == others.len() && begins(entries, others)
        }
        (Some(Journal::Desk(entries)), Some(Journal::Desk(others))) => {
            entries.len() == others.len() && begins(entries, others)
        }
        (Some(Journal::View(entries)), Some(Journal::View(others))) => {
            entries.len() == others.len() && begins(entries, others)
        }
        _ => false,
    }
}
