//! An entry that is reserved beside tables, and then noted.
use std::alloc::Global;
use std::mem::forget;
use tq_board::render;
use tq_core::{Service, Step};
use tq_live::{ViewAsk, ViewReply};
use tq_shape::{Entry, Levels, Limits, Part};
use tq_tables::{PartEntry, Tables, ViewEntry};

/// A mark, and the reply to it.
fn mark() -> ViewEntry {
    let (server, up) = (1, false);
    Entry {
        ask: ViewAsk::Mark { server, up },
        reply: ViewReply::Marked,
    }
}

/// Whether the tables are printed as those of the service, beside its view.
fn are_printed(alloc: Global, tables: &Tables, service: &Service) -> bool {
    let view = service.view();
    if view.tree().levels() != tables.levels() {
        return false;
    }
    let Ok(text) = render(alloc, tables, view) else {
        return false;
    };
    match render(alloc, service.tables(), view) {
        Ok(other) => text.as_str() == other.as_str(),
        Err(_) => false,
    }
}

/// Whether the tables note an entry that was reserved.
fn note(alloc: Global, tables: &mut Tables) -> bool {
    let entry = mark();
    let entry = PartEntry::View(&entry);
    match tables.reserve(alloc, Part::View, 1, &entry) {
        Ok(()) => matches!(tables.note(alloc, Part::View, 1, &entry), Ok(())),
        Err(_) => false,
    }
}

/// Whether tables that note a mark, which was reserved, are those of a service that is asked for it, and were not before.
fn follow(alloc: Global, service: &mut Service) -> bool {
    let Ok(mut tables) = service.tables().copy(alloc) else {
        return false;
    };
    let is_asked = match service.step(alloc, Step::View(mark().ask)) {
        Ok(answer) => {
            forget(answer);
            true
        }
        Err(_) => false,
    };
    let differ = !are_printed(alloc, &tables, service);
    let is_noted = note(alloc, &mut tables);
    let is_same = are_printed(alloc, &tables, service);
    forget(tables);
    is_asked && differ && is_noted && is_same
}

fn is_followed(alloc: Global) -> bool {
    match Service::new(
        alloc,
        Levels::new(1).unwrap(),
        Limits::new(1, 1, 1).unwrap(),
    ) {
        Ok(mut service) => {
            let is_followed = follow(alloc, &mut service);
            forget(service);
            is_followed
        }
        Err(_) => false,
    }
}

#[test]
fn tables_note_what_was_reserved(rt: HostRuntime) {
    assert!(rt; is_followed(rt.alloc()));
}
