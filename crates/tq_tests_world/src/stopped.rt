//! Each ask of a server is stopped behind each of the stable records that it writes; the server returns, and the
//! transactions are brought to their end.
use super::asked::journals_of;
use super::runs::LATE_DECISION;
use super::stepped::{after, earlier, is_taken, keeps_rows, step_at};
use std::alloc::Global;
use std::mem::forget;
use tq_asks::{NodeAsk, NodeReply, Verdict, WorkAsk};
use tq_core::{Answer, Refusal, Reply, Service, Step};
use tq_desk::{DeskAsk, DeskReply};
use tq_shape::{ServerId, Shared};
use tq_tables::{FileRow, Journals, Tables};

/// One more than the most records that an ask of these runs writes.
const STOPS: u32 = 4;

/// The step that stops in the midst of the ask of a server, behind so many records.
fn stop_in(step: Step, after: u32) -> Option<Step> {
    match step {
        Step::Node {
            server,
            ask: NodeAsk::Work(ask),
        } => Some(Step::Node {
            server,
            ask: NodeAsk::CrashIn { after, ask },
        }),
        step => {
            forget(step);
            None
        }
    }
}

fn is_crash(told: &Result<Answer, Refusal>) -> bool {
    match told {
        Ok(answer) => matches!(&answer.reply, Reply::Node(NodeReply::Crashed)),
        Err(_) => false,
    }
}

fn crashes(service: &mut Service, alloc: Global, step: Step) -> bool {
    let told = service.step(alloc, step);
    let is_crash = is_crash(&told);
    forget(told);
    is_crash
}

fn return_at(service: &mut Service, alloc: Global, server: u64) -> bool {
    let ask = NodeAsk::Return;
    is_taken(service, alloc, Step::Node { server, ask })
}

/// Each server is asked to return; it refuses where it is up.
fn return_all(service: &mut Service, alloc: Global) -> bool {
    return_at(service, alloc, 1) && return_at(service, alloc, 2) && return_at(service, alloc, 3)
}

// ---- the end of a transaction

/// Asks a server, unless memory is refused.
fn asks(service: &mut Service, alloc: Global, server: u64, work: WorkAsk) -> bool {
    match Shared::new(alloc, work) {
        Ok(work) => {
            let ask = NodeAsk::Work(work);
            is_taken(service, alloc, Step::Node { server, ask })
        }
        Err(_) => false,
    }
}

/// Tells a server the verdict, which stands in that entry of the desk, and releases what no vote keeps.
fn end_at(
    service: &mut Service,
    alloc: Global,
    txn: u64,
    verdict: &Verdict,
    cite: u64,
    server: u64,
) -> bool {
    let Ok(verdict) = verdict.clone() else {
        return false;
    };
    let decide = WorkAsk::Decide { txn, verdict, cite };
    asks(service, alloc, server, decide) && asks(service, alloc, server, WorkAsk::Release { txn })
}

fn end_at_all(
    service: &mut Service,
    alloc: Global,
    txn: u64,
    verdict: &Verdict,
    cite: u64,
) -> bool {
    end_at(service, alloc, txn, verdict, cite, 1)
        && end_at(service, alloc, txn, verdict, cite, 2)
        && end_at(service, alloc, txn, verdict, cite, 3)
}

/// Brings the transaction to the end that the desk told, nowhere where it told none: there is no such transaction yet.
fn end_as_told(service: &mut Service, alloc: Global, txn: u64, answer: &Answer) -> bool {
    match &answer.reply {
        Reply::Desk(DeskReply::Verdict(verdict)) => {
            end_at_all(service, alloc, txn, verdict, answer.number)
        }
        _ => txn == 2,
    }
}

/// Asks the desk how the transaction ended, and tells it each server.
fn end(service: &mut Service, alloc: Global, txn: u64) -> bool {
    match service.step(alloc, Step::Desk(DeskAsk::Resolve { txn })) {
        Ok(answer) => {
            let is_ended = end_as_told(service, alloc, txn, &answer);
            forget(answer);
            is_ended
        }
        Err(_) => false,
    }
}

// ---- how the service stands then

fn number_of(server: Option<ServerId>) -> u64 {
    match server {
        Some(server) => server.number(),
        None => 0,
    }
}

/// Whether the file's first write is at the servers 1 and 2.
fn is_installed(row: &FileRow) -> bool {
    row.version == 1 && number_of(row.current.first()) == 1 && number_of(row.stale.first()) == 3
}

/// Whether what was committed is installed, and nothing is written else.
fn has_files(tables: &Tables, is_committed: bool) -> bool {
    match tables.files() {
        [] => !is_committed,
        [row] => is_committed && is_installed(row),
        _ => false,
    }
}

fn has_no_locks(alloc: Global, tables: &Tables) -> bool {
    match tables.locks(alloc) {
        Ok(rows) => rows.is_empty(),
        Err(_) => false,
    }
}

fn has_no_votes(alloc: Global, tables: &Tables) -> bool {
    match tables.intentions(alloc) {
        Ok(rows) => {
            let are_none = rows.is_empty();
            forget(rows);
            are_none
        }
        Err(_) => false,
    }
}

fn has_ended(alloc: Global, tables: &Tables, is_committed: bool) -> bool {
    has_files(tables, is_committed) && has_no_locks(alloc, tables) && has_no_votes(alloc, tables)
}

// ---- each stop

/// Whether the server goes down by the step, and all comes to its end once it is back.
fn ends_after(service: &mut Service, alloc: Global, stop: Step, is_committed: bool) -> bool {
    crashes(service, alloc, stop)
        && return_all(service, alloc)
        && end(service, alloc, 1)
        && end(service, alloc, 2)
        && has_ended(alloc, service.tables(), is_committed)
}

/// The same from the step at that place of the run on.
fn ends_from(alloc: Global, journals: &Journals, parts: &[u8], place: usize, stop: Step) -> bool {
    let is_committed = earlier(parts, place, b'D') >= 2;
    match after(alloc, journals, parts, place) {
        Some(mut service) => {
            let is_ended = ends_after(&mut service, alloc, stop, is_committed);
            keeps_rows(alloc, service) && is_ended
        }
        None => {
            forget(stop);
            false
        }
    }
}

/// The step at that place, stopped behind so many records; none where no server is asked for work.
fn stop_at(journals: &Journals, parts: &[u8], place: usize, after: u32) -> Option<Step> {
    match step_at(journals, parts, place) {
        Some(step) => stop_in(step, after),
        None => None,
    }
}

/// How many stops at that place come to an end, 100 where one does not.
fn stops_at(alloc: Global, journals: &Journals, parts: &[u8], place: usize) -> u32 {
    let mut count = 0u32;
    for after in 0..STOPS {
        let more = match stop_at(journals, parts, place, after) {
            Some(stop) => {
                if ends_from(alloc, journals, parts, place, stop) {
                    1
                } else {
                    100
                }
            }
            None => 0,
        };
        count = count.wrapping_add(more);
    }
    count
}

fn stops(alloc: Global, journals: &Journals, parts: &[u8]) -> u32 {
    let mut count = 0u32;
    for place in 0..parts.len() {
        count = count.wrapping_add(stops_at(alloc, journals, parts, place));
    }
    count
}

fn count_stops(alloc: Global) -> u32 {
    match journals_of(alloc, LATE_DECISION.file) {
        Some(journals) => {
            let count = stops(alloc, &journals, LATE_DECISION.parts);
            forget(journals);
            count
        }
        None => 0,
    }
}

/// Nine asks of servers, each stopped behind none to three records.
#[test]
fn each_ask_is_stopped_behind_each_of_its_records(rt: HostRuntime) {
    assert!(rt; count_stops(rt.alloc()) == 36);
}
