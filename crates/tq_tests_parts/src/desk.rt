//! The desk.

use crate::check::{Wrong, check};
use std::alloc::Global;
use tq_asks::Verdict;
use tq_desk::{Desk, DeskAsk, DeskReply, decision_log, desk_laws};
use tq_shape::{Levels, Limits};

/// What the desk answers, where it has not begun many transactions.
fn ask(alloc: Global, desk: &mut Desk, ask: &DeskAsk) -> Option<DeskReply> {
    if desk.begun() > 100 {
        return None;
    }
    desk.answer(alloc, ask).ok()
}

fn foresees_the_first(alloc: Global, desk: &Desk) -> bool {
    if desk.begun() != 0 {
        return false;
    }
    matches!(desk.foresee(alloc, &DeskAsk::Begin), Ok(DeskReply::Txn(1)))
}

/// Begins transaction 1, as it was foreseen.
fn begins(alloc: Global, desk: &mut Desk) -> bool {
    foresees_the_first(alloc, desk)
        && matches!(ask(alloc, desk, &DeskAsk::Begin), Some(DeskReply::Txn(1)))
}

/// Whether a copy has transaction 1 aborted, and the desk itself has no end of it.
fn leaves_its_copy(alloc: Global, desk: &Desk) -> bool {
    match desk.copy(alloc) {
        Ok(copy) => {
            let mut copy = copy;
            ask(alloc, &mut copy, &DeskAsk::Resolve { txn: 1 }).is_some()
                && matches!(copy.verdict(1), Some(Verdict::Abort))
                && desk.verdict(1).is_none()
                && desk.begun() == 1
        }
        Err(_) => false,
    }
}

fn begins_and_copies_itself(alloc: Global) -> bool {
    let mut desk = Desk::new(alloc, Levels::default(), Limits::full());
    begins(alloc, &mut desk) && leaves_its_copy(alloc, &desk)
}

/// Whether a desk lends the levels and the limits that it was made with.
fn lends_its_bounds(alloc: Global) -> bool {
    let desk = Desk::new(alloc, Levels::default(), Limits::full());
    desk.levels() == Levels::default() && desk.limits() == Limits::full()
}

/// What is foreseen changes nothing, and a copy goes on alone.
#[test]
fn a_copy_goes_on_alone(rt: HostRuntime) -> Result<(), Wrong> {
    check(begins_and_copies_itself(rt.alloc()), "another answer")
}

#[test]
fn lends_bounds(rt: HostRuntime) -> Result<(), Wrong> {
    check(lends_its_bounds(rt.alloc()), "other bounds")
}

#[test]
fn laws_take_nothing() {
    decision_log();
    desk_laws();
}
