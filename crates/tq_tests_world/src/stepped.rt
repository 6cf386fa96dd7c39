//! Runs of a service, step by step: after each step the rows that it keeps are those of its journals. What is made is left
//! where it is, since to let it go is dear to prove.
ghost use Rattle.tq_tables.specs.Parts.{AreLegal};

use super::asked::journals_of;
use super::runs::{
    ABORTED, BROKEN_LOCK, LATE_DECISION, OLD_VERDICT, REFRESHED, REFRESHED_ONCE, REFUSED_LOCK, Run,
};
use std::alloc::Global;
use std::mem::forget;
use tq_board::{journals_to_json, render};
use tq_core::{Service, Step};
use tq_tables::{DeskEntry, Journals, NodeEntry, Tables, ViewEntry};

// ---- steps

/// How often the part is asked before that place.
pub(crate) fn earlier(parts: &[u8], place: usize, part: u8) -> usize {
    let mut count = 0usize;
    for (at, other) in parts.iter().enumerate() {
        if at < place && *other == part {
            count = count.wrapping_add(1);
        }
    }
    count
}

fn node_step(server: u64, entry: &NodeEntry) -> Option<Step> {
    match entry.ask.clone() {
        Ok(ask) => Some(Step::Node { server, ask }),
        Err(_) => None,
    }
}

fn desk_step(entry: &DeskEntry) -> Option<Step> {
    match entry.ask.clone() {
        Ok(ask) => Some(Step::Desk(ask)),
        Err(_) => None,
    }
}

fn view_step(entry: &ViewEntry) -> Option<Step> {
    Some(Step::View(entry.ask))
}

/// The ask at that place of a server's journal.
fn server_step(journals: &Journals, server: u8, at: usize) -> Option<Step> {
    let below = server.wrapping_sub(b'1');
    let entries = journals.servers().get(below as usize)?;
    node_step(u64::from(below) + 1, entries.as_slice().get(at)?)
}

/// The step at that place of a run with these journals, which ask these parts.
pub(crate) fn step_at(journals: &Journals, parts: &[u8], place: usize) -> Option<Step> {
    let part = *parts.get(place)?;
    let at = earlier(parts, place, part);
    match part {
        b'D' => desk_step(journals.desk().get(at)?),
        b'V' => view_step(journals.view().get(at)?),
        server => server_step(journals, server, at),
    }
}

/// Whether the step is taken.
pub(crate) fn is_taken(service: &mut Service, alloc: Global, step: Step) -> bool {
    let told = service.step(alloc, step);
    let is_taken = told.is_ok();
    forget(told);
    is_taken
}

fn takes_all(
    service: &mut Service,
    alloc: Global,
    journals: &Journals,
    parts: &[u8],
    count: usize,
) -> bool {
    for place in 0..count {
        let is_taken = match step_at(journals, parts, place) {
            Some(step) => is_taken(service, alloc, step),
            None => false,
        };
        if !is_taken {
            return false;
        }
    }
    true
}

/// The service after so many steps of the run, if it takes each of them.
pub(crate) fn after(
    alloc: Global,
    journals: &Journals,
    parts: &[u8],
    count: usize,
) -> Option<Service> {
    match Service::new(alloc, journals.levels(), journals.limits()) {
        Ok(mut service) => {
            if takes_all(&mut service, alloc, journals, parts, count) {
                return Some(service);
            }
            forget(service);
            None
        }
        Err(_) => None,
    }
}

// ---- rows

/// The rows of the tables, as the board prints them beside the view that they follow.
fn printed(alloc: Global, tables: &Tables) -> Option<String> {
    match render(alloc, tables, tables.view()) {
        Ok(text) => Some(text),
        Err(_) => None,
    }
}

/// The rows over the journals, computed from nothing.
fn printed_anew(alloc: Global, journals: &Journals) -> Option<String>
    requires { AreLegal journals.now }
{
    match Tables::of(alloc, journals) {
        Ok(tables) => {
            let text = printed(alloc, &tables);
            forget(tables);
            text
        }
        Err(_) => None,
    }
}

fn are_same(kept: &Option<String>, anew: &Option<String>) -> bool {
    match (kept, anew) {
        (Some(kept), Some(anew)) => kept.as_str() == anew.as_str(),
        _ => false,
    }
}

/// Whether the rows that the service keeps are those of its journals.
pub(crate) fn keeps_rows(alloc: Global, service: Service) -> bool {
    let kept = printed(alloc, service.tables());
    let journals = service.into_journals();
    let anew = printed_anew(alloc, &journals);
    forget(journals);
    are_same(&kept, &anew)
}

fn keeps_rows_after(alloc: Global, journals: &Journals, parts: &[u8], count: usize) -> bool {
    match after(alloc, journals, parts, count) {
        Some(service) => keeps_rows(alloc, service),
        None => false,
    }
}

/// Whether it does after each step.
fn keeps_rows_throughout(alloc: Global, journals: &Journals, parts: &[u8]) -> bool {
    for place in 0..parts.len() {
        if !keeps_rows_after(alloc, journals, parts, place + 1) {
            return false;
        }
    }
    true
}

// ---- what is left

/// Whether these are the journals of the service: so it was told all that stands in the file.
fn leaves(alloc: Global, service: Service, file: &str) -> bool {
    let journals = service.into_journals();
    let is_left = match journals_to_json(alloc, &journals) {
        Ok(text) => text.as_str() == file,
        Err(_) => false,
    };
    forget(journals);
    is_left
}

/// Whether all steps of the run leave its journals.
fn leaves_its_journals(alloc: Global, journals: &Journals, run: &Run) -> bool {
    match after(alloc, journals, run.parts, run.parts.len()) {
        Some(service) => leaves(alloc, service, run.file),
        None => false,
    }
}

/// Whether a service takes the steps of the run, is told what its journals say, and keeps its rows after each step.
fn is_followed(alloc: Global, run: &Run) -> bool {
    match journals_of(alloc, run.file) {
        Some(journals) => {
            let is_followed = leaves_its_journals(alloc, &journals, run)
                && keeps_rows_throughout(alloc, &journals, run.parts);
            forget(journals);
            is_followed
        }
        None => false,
    }
}

#[test]
fn kept_rows_are_those_of_the_journals_after_each_step(rt: HostRuntime) {
    let runs = [
        REFUSED_LOCK,
        LATE_DECISION,
        REFRESHED,
        ABORTED,
        OLD_VERDICT,
        BROKEN_LOCK,
        REFRESHED_ONCE,
    ];
    for run in runs.iter() {
        assert!(rt; is_followed(rt.alloc(), run));
    }
}
