//! A service whose view's journal is full, which goes on at the other parts.
use super::asked::unfounded_ask;
use std::alloc::Global;
use std::mem::forget;
use tq_core::{Answer, Refusal, Reply, Service, Step};
use tq_desk::{DeskAsk, DeskReply};
use tq_live::{Purpose, ViewAsk, ViewReply};
use tq_shape::{Levels, Limits, Part};

const CHOICE: ViewAsk = ViewAsk::Choose {
    purpose: Purpose::Read,
};

fn is_choice(told: &Result<Answer, Refusal>) -> bool {
    match told {
        Ok(answer) => matches!(&answer.reply, Reply::View(ViewReply::Chosen { .. })),
        Err(_) => false,
    }
}

fn is_first_txn(told: &Result<Answer, Refusal>) -> bool {
    match told {
        Ok(answer) => {
            answer.number == 1 && matches!(&answer.reply, Reply::Desk(DeskReply::Txn(1)))
        }
        Err(_) => false,
    }
}

fn is_refused(told: &Result<Answer, Refusal>, wanted: Refusal) -> bool {
    match told {
        Ok(_) => false,
        Err(refusal) => *refusal == wanted,
    }
}

/// Whether the third choice finds the journal of the view full, a transaction begins still, and an abort of it is not
/// founded: the entry that it cites stands, and tells no verdict.
fn are_told(results: &[Result<Answer, Refusal>]) -> bool {
    let full = Refusal::JournalFull { part: Part::View };
    let unfounded = Refusal::Unfounded {
        part: Part::Desk,
        number: 1,
    };
    match results {
        [first, second, third, begun, decided] => {
            is_choice(first)
                && is_choice(second)
                && is_refused(third, full)
                && is_first_txn(begun)
                && is_refused(decided, unfounded)
        }
        _ => false,
    }
}

fn runs(service: &mut Service, alloc: Global, steps: Vec<Step>) -> bool {
    match service.run(alloc, steps) {
        Ok(results) => {
            let are_told = are_told(results.as_slice());
            forget(results);
            are_told
        }
        Err(_) => false,
    }
}

fn steps(alloc: Global) -> Option<Vec<Step>> {
    let Ok(unfounded) = unfounded_ask(alloc) else {
        return None;
    };
    match vec![in alloc;
        Step::View(CHOICE),
        Step::View(CHOICE),
        Step::View(CHOICE),
        Step::Desk(DeskAsk::Begin),
        Step::Node {
            server: 1,
            ask: unfounded
        },
    ] {
        Ok(steps) => Some(steps),
        Err(_) => None,
    }
}

fn goes_on(alloc: Global) -> bool {
    let limits = Limits::new(1000, 64, 2).unwrap();
    let Some(steps) = steps(alloc) else {
        return false;
    };
    match Service::new(alloc, Levels::new(1).unwrap(), limits) {
        Ok(mut service) => {
            let goes_on = runs(&mut service, alloc, steps);
            forget(service);
            goes_on
        }
        Err(_) => {
            forget(steps);
            false
        }
    }
}

#[test]
fn a_full_journal_leaves_the_other_parts(rt: HostRuntime) {
    assert!(rt; goes_on(rt.alloc()));
}
