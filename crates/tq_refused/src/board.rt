//! What is read off a service that took the steps of journals: its board, its plan of a refresh, and its journals.

use crate::input::text_of;
use crate::service;
use crate::wrong::Wrong;
use std::alloc::Global;
use tq_board::{journals_from_json, render};
use tq_live::View;
use tq_refresh::{Job, plan};
use tq_shape::Part;
use tq_tables::{Journals, Tables};

/// Prints the board, the jobs and the journals.
pub(crate) fn run(rt: &HostRuntime, journals: &Journals, order: &[Part]) -> Result<(), Wrong> {
    let alloc = rt.alloc();
    let service = service::taken(alloc, journals, order)?;
    let board = board_of(alloc, service.tables(), service.view())?;
    let _printed = print!(rt; "{board}");
    let jobs = jobs_of(alloc, service.tables(), service.view())?;
    for job in jobs.as_slice() {
        let _printed = println!(rt;
            "mend {} at {} from {}",
            job.file,
            job.server.number(),
            job.source.number()
        );
    }
    let text = text_of(alloc, &service.into_journals())?;
    let _printed = print!(rt; "{text}");
    Ok(())
}

/// The text of the board, made once more where memory is refused.
pub(crate) fn board_of(alloc: Global, tables: &Tables, view: &View) -> Result<String, Wrong> {
    if view.tree().levels() != tables.levels() {
        return Err(Wrong::Otherwise);
    }
    match render(alloc, tables, view) {
        Ok(text) => Ok(text),
        Err(_) => Ok(render(alloc, tables, view)?),
    }
}

/// The copies that can be mended, planned once more where memory is refused.
fn jobs_of(alloc: Global, tables: &Tables, view: &View) -> Result<Vec<Job>, Wrong> {
    if view.tree().levels() != tables.levels() {
        return Err(Wrong::Otherwise);
    }
    match plan(alloc, tables, view) {
        Ok(jobs) => Ok(jobs),
        Err(_) => Ok(plan(alloc, tables, view)?),
    }
}
