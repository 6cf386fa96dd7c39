//! The order, the tables and the board of journals that are read, and a service that is given steps. What is made is left
//! where it is, since to let it go is dear to prove.
ghost use Rattle.tq_tables.specs.Parts.{AreLegal};

use std::alloc::Global;
use std::mem::forget;
use tq_asks::{NodeAsk, Verdict, WorkAsk};
use tq_board::{journals_from_json, journals_to_json, render};
use tq_core::{Answer, Journal, Refusal, Reply, Service, Step};
use tq_desk::{DeskAsk, DeskReply};
use tq_live::{Purpose, View, ViewAsk, ViewReply};
use tq_merge::explain;
use tq_shape::{Levels, Limits, Memory, Part, Shared};
use tq_tables::{Journals, Tables};

/// Two commits, of `b`, and of `a` and `b`; server 2 is not told the second, and server 3 voted for it too, whose vote it does
/// not cite. Of the other votes one is of a transaction that aborted, one of one that has not ended, and one of one that
/// was never begun.
const FILE: &str =
    "{\"desk\":[{\"ask\":{\"is\":\"begin\"},\"reply\":{\"is\":\"txn\",\"txn\":1}},{\"ask\":{\"is\":\"begin\"},\"reply\":{\"is\":\"txn\",\"txn\":2}},{\"ask\":{\"is\":\"begin\"},\"reply\":{\"is\":\"txn\",\"txn\":3}},{\"ask\":{\"is\":\"begin\"},\"reply\":{\"is\":\"txn\",\"txn\":4}},{\"ask\":{\"is\":\"commit\",\"ops\":[{\"content\":\"78\",\"file\":\"b\",\"grants\":[{\"content\":\"\",\"mode\":\"exclusive\",\"number\":1,\"server\":1,\"version\":0},{\"content\":\"\",\"mode\":\"exclusive\",\"number\":1,\"server\":2,\"version\":0}],\"kind\":\"write\",\"version\":1},{\"content\":\"\",\"file\":\"c\",\"grants\":[{\"content\":\"\",\"mode\":\"shared\",\"number\":2,\"server\":1,\"version\":0},{\"content\":\"\",\"mode\":\"shared\",\"number\":2,\"server\":2,\"version\":0}],\"kind\":\"read\",\"version\":0}],\"txn\":1,\"votes\":[{\"held\":[{\"file\":\"b\",\"mode\":\"exclusive\",\"since\":1},{\"file\":\"c\",\"mode\":\"shared\",\"since\":2}],\"number\":3,\"server\":1,\"writes\":[{\"content\":\"78\",\"file\":\"b\",\"version\":1}]},{\"held\":[{\"file\":\"b\",\"mode\":\"exclusive\",\"since\":1},{\"file\":\"c\",\"mode\":\"shared\",\"since\":2}],\"number\":3,\"server\":2,\"writes\":[{\"content\":\"78\",\"file\":\"b\",\"version\":1}]}]},\"reply\":{\"is\":\"committed\",\"serial\":1}},{\"ask\":{\"is\":\"commit\",\"ops\":[{\"content\":\"79\",\"file\":\"a\",\"grants\":[{\"content\":\"\",\"mode\":\"exclusive\",\"number\":5,\"server\":1,\"version\":0},{\"content\":\"\",\"mode\":\"exclusive\",\"number\":5,\"server\":2,\"version\":0}],\"kind\":\"write\",\"version\":1},{\"content\":\"7a\",\"file\":\"b\",\"grants\":[{\"content\":\"78\",\"mode\":\"exclusive\",\"number\":6,\"server\":1,\"version\":1},{\"content\":\"78\",\"mode\":\"exclusive\",\"number\":6,\"server\":2,\"version\":1}],\"kind\":\"write\",\"version\":2}],\"txn\":2,\"votes\":[{\"held\":[{\"file\":\"a\",\"mode\":\"exclusive\",\"since\":5},{\"file\":\"b\",\"mode\":\"exclusive\",\"since\":6}],\"number\":7,\"server\":1,\"writes\":[{\"content\":\"79\",\"file\":\"a\",\"version\":1},{\"content\":\"7a\",\"file\":\"b\",\"version\":2}]},{\"held\":[{\"file\":\"a\",\"mode\":\"exclusive\",\"since\":5},{\"file\":\"b\",\"mode\":\"exclusive\",\"since\":6}],\"number\":7,\"server\":2,\"writes\":[{\"content\":\"79\",\"file\":\"a\",\"version\":1},{\"content\":\"7a\",\"file\":\"b\",\"version\":2}]}]},\"reply\":{\"is\":\"committed\",\"serial\":2}},{\"ask\":{\"is\":\"resolve\",\"txn\":3},\"reply\":{\"is\":\"verdict\",\"verdict\":{\"is\":\"abort\"}}},{\"ask\":{\"is\":\"begin\"},\"reply\":{\"is\":\"txn\",\"txn\":5}}],\"format\":2,\"levels\":2,\"limits\":{\"entries\":11,\"files\":2,\"ops\":2},\"servers\":[[{\"ask\":{\"file\":\"b\",\"is\":\"lock\",\"mode\":\"exclusive\",\"txn\":1},\"reply\":{\"content\":\"\",\"is\":\"granted\",\"version\":0}},{\"ask\":{\"file\":\"c\",\"is\":\"lock\",\"mode\":\"shared\",\"txn\":1},\"reply\":{\"content\":\"\",\"is\":\"granted\",\"version\":0}},{\"ask\":{\"is\":\"prepare\",\"txn\":1,\"writes\":[{\"content\":\"78\",\"file\":\"b\",\"version\":1}]},\"reply\":{\"held\":[{\"file\":\"b\",\"mode\":\"exclusive\",\"since\":1},{\"file\":\"c\",\"mode\":\"shared\",\"since\":2}],\"is\":\"yes\",\"writes\":[{\"content\":\"78\",\"file\":\"b\",\"version\":1}]}},{\"ask\":{\"cite\":5,\"is\":\"decide\",\"txn\":1,\"verdict\":{\"is\":\"commit\",\"votes\":[{\"number\":3,\"server\":1},{\"number\":3,\"server\":2}]}},\"reply\":{\"is\":\"installed\"}},{\"ask\":{\"file\":\"a\",\"is\":\"lock\",\"mode\":\"exclusive\",\"txn\":2},\"reply\":{\"content\":\"\",\"is\":\"granted\",\"version\":0}},{\"ask\":{\"file\":\"b\",\"is\":\"lock\",\"mode\":\"exclusive\",\"txn\":2},\"reply\":{\"content\":\"78\",\"is\":\"granted\",\"version\":1}},{\"ask\":{\"is\":\"prepare\",\"txn\":2,\"writes\":[{\"content\":\"79\",\"file\":\"a\",\"version\":1},{\"content\":\"7a\",\"file\":\"b\",\"version\":2}]},\"reply\":{\"held\":[{\"file\":\"a\",\"mode\":\"exclusive\",\"since\":5},{\"file\":\"b\",\"mode\":\"exclusive\",\"since\":6}],\"is\":\"yes\",\"writes\":[{\"content\":\"79\",\"file\":\"a\",\"version\":1},{\"content\":\"7a\",\"file\":\"b\",\"version\":2}]}},{\"ask\":{\"cite\":6,\"is\":\"decide\",\"txn\":2,\"verdict\":{\"is\":\"commit\",\"votes\":[{\"number\":7,\"server\":1},{\"number\":7,\"server\":2}]}},\"reply\":{\"is\":\"installed\"}},{\"ask\":{\"file\":\"b\",\"is\":\"lock\",\"mode\":\"shared\",\"txn\":4},\"reply\":{\"content\":\"7a\",\"is\":\"granted\",\"version\":2}},{\"ask\":{\"file\":\"b\",\"is\":\"lock\",\"mode\":\"shared\",\"txn\":3},\"reply\":{\"content\":\"7a\",\"is\":\"granted\",\"version\":2}},{\"ask\":{\"is\":\"prepare\",\"txn\":3,\"writes\":[]},\"reply\":{\"held\":[{\"file\":\"b\",\"mode\":\"shared\",\"since\":10}],\"is\":\"yes\",\"writes\":[]}}],[{\"ask\":{\"file\":\"b\",\"is\":\"lock\",\"mode\":\"exclusive\",\"txn\":1},\"reply\":{\"content\":\"\",\"is\":\"granted\",\"version\":0}},{\"ask\":{\"file\":\"c\",\"is\":\"lock\",\"mode\":\"shared\",\"txn\":1},\"reply\":{\"content\":\"\",\"is\":\"granted\",\"version\":0}},{\"ask\":{\"is\":\"prepare\",\"txn\":1,\"writes\":[{\"content\":\"78\",\"file\":\"b\",\"version\":1}]},\"reply\":{\"held\":[{\"file\":\"b\",\"mode\":\"exclusive\",\"since\":1},{\"file\":\"c\",\"mode\":\"shared\",\"since\":2}],\"is\":\"yes\",\"writes\":[{\"content\":\"78\",\"file\":\"b\",\"version\":1}]}},{\"ask\":{\"cite\":5,\"is\":\"decide\",\"txn\":1,\"verdict\":{\"is\":\"commit\",\"votes\":[{\"number\":3,\"server\":1},{\"number\":3,\"server\":2}]}},\"reply\":{\"is\":\"installed\"}},{\"ask\":{\"file\":\"a\",\"is\":\"lock\",\"mode\":\"exclusive\",\"txn\":2},\"reply\":{\"content\":\"\",\"is\":\"granted\",\"version\":0}},{\"ask\":{\"file\":\"b\",\"is\":\"lock\",\"mode\":\"exclusive\",\"txn\":2},\"reply\":{\"content\":\"78\",\"is\":\"granted\",\"version\":1}},{\"ask\":{\"is\":\"prepare\",\"txn\":2,\"writes\":[{\"content\":\"79\",\"file\":\"a\",\"version\":1},{\"content\":\"7a\",\"file\":\"b\",\"version\":2}]},\"reply\":{\"held\":[{\"file\":\"a\",\"mode\":\"exclusive\",\"since\":5},{\"file\":\"b\",\"mode\":\"exclusive\",\"since\":6}],\"is\":\"yes\",\"writes\":[{\"content\":\"79\",\"file\":\"a\",\"version\":1},{\"content\":\"7a\",\"file\":\"b\",\"version\":2}]}}],[{\"ask\":{\"file\":\"a\",\"is\":\"lock\",\"mode\":\"exclusive\",\"txn\":2},\"reply\":{\"content\":\"\",\"is\":\"granted\",\"version\":0}},{\"ask\":{\"file\":\"b\",\"is\":\"lock\",\"mode\":\"exclusive\",\"txn\":2},\"reply\":{\"content\":\"\",\"is\":\"granted\",\"version\":0}},{\"ask\":{\"is\":\"prepare\",\"txn\":2,\"writes\":[{\"content\":\"79\",\"file\":\"a\",\"version\":1},{\"content\":\"7a\",\"file\":\"b\",\"version\":2}]},\"reply\":{\"held\":[{\"file\":\"a\",\"mode\":\"exclusive\",\"since\":1},{\"file\":\"b\",\"mode\":\"exclusive\",\"since\":2}],\"is\":\"yes\",\"writes\":[{\"content\":\"79\",\"file\":\"a\",\"version\":1},{\"content\":\"7a\",\"file\":\"b\",\"version\":2}]}},{\"ask\":{\"file\":\"d\",\"is\":\"lock\",\"mode\":\"exclusive\",\"txn\":4},\"reply\":{\"content\":\"\",\"is\":\"granted\",\"version\":0}},{\"ask\":{\"is\":\"prepare\",\"txn\":4,\"writes\":[{\"content\":\"76\",\"file\":\"d\",\"version\":1}]},\"reply\":{\"held\":[{\"file\":\"d\",\"mode\":\"exclusive\",\"since\":4}],\"is\":\"yes\",\"writes\":[{\"content\":\"76\",\"file\":\"d\",\"version\":1}]}},{\"ask\":{\"file\":\"e\",\"is\":\"lock\",\"mode\":\"exclusive\",\"txn\":9},\"reply\":{\"content\":\"\",\"is\":\"granted\",\"version\":0}},{\"ask\":{\"is\":\"prepare\",\"txn\":9,\"writes\":[{\"content\":\"\",\"file\":\"e\",\"version\":1}]},\"reply\":{\"held\":[{\"file\":\"e\",\"mode\":\"exclusive\",\"since\":6}],\"is\":\"yes\",\"writes\":[{\"content\":\"\",\"file\":\"e\",\"version\":1}]}}]],\"view\":[{\"ask\":{\"is\":\"mark\",\"server\":2,\"up\":false},\"reply\":{\"is\":\"marked\"}},{\"ask\":{\"is\":\"setcost\",\"read\":1,\"server\":1,\"write\":5},\"reply\":{\"is\":\"costset\"}}]}\n";

/// The board of these journals beside a view with server 1 down, in which each costs 1 for each purpose. In the journals
/// server 1 costs 5 to write to.
const BOARD: &str = "board levels 2\n\
    server 1 cost 1 1 down read 2 by 1 3 write 6 by 1 3\n\
    server 2 cost 1 1 up read none write none\n\
    server 3 cost 1 1 up read 1 by 3 write 1 by 3\n\
    file b version 2 current 1 stale 2 3\n\
    file a version 1 current 1 stale 2 3\n\
    lock 1 b 3 shared since 10 version 2\n\
    lock 1 b 4 shared since 9 version 2\n\
    lock 2 a 2 exclusive since 5 version 0\n\
    lock 2 b 2 exclusive since 6 version 1\n\
    lock 3 a 2 exclusive since 1 version 0\n\
    lock 3 b 2 exclusive since 2 version 0\n\
    lock 3 d 4 exclusive since 4 version 0\n\
    lock 3 e 9 exclusive since 6 version 0\n\
    intent 1 3 number 11 abort -\n\
    intent 2 2 number 7 install a:1 b:2\n\
    intent 3 2 number 3 discard a:1 b:2\n\
    intent 3 4 number 5 undecided d:1\n\
    intent 3 9 number 7 unknown e:1\n\
    end\n";

/// All of the view; then the desk and the servers downwards, each as far as it goes; and then who waited for what was placed,
/// woken last first.
const ORDER: [Part; 35] = [
    Part::View,
    Part::View,
    Part::Desk,
    Part::Desk,
    Part::Desk,
    Part::Desk,
    Part::Server(3),
    Part::Server(3),
    Part::Server(3),
    Part::Server(3),
    Part::Server(3),
    Part::Server(3),
    Part::Server(3),
    Part::Server(2),
    Part::Server(2),
    Part::Server(2),
    Part::Server(1),
    Part::Server(1),
    Part::Server(1),
    Part::Desk,
    Part::Server(2),
    Part::Server(2),
    Part::Server(2),
    Part::Server(2),
    Part::Server(1),
    Part::Server(1),
    Part::Server(1),
    Part::Server(1),
    Part::Desk,
    Part::Desk,
    Part::Desk,
    Part::Server(1),
    Part::Server(1),
    Part::Server(1),
    Part::Server(1),
];

/// The journals of the service.
const LEFT: &str =
    "{\"desk\":[{\"ask\":{\"is\":\"begin\"},\"reply\":{\"is\":\"txn\",\"txn\":1}}],\"format\":2,\"levels\":2,\"limits\":{\"entries\":1,\"files\":1000,\"ops\":64},\"servers\":[[],[],[]],\"view\":[{\"ask\":{\"is\":\"mark\",\"server\":1,\"up\":false},\"reply\":{\"is\":\"marked\"}}]}\n";

pub(crate) fn journals_of(alloc: Global, text: &str) -> Option<Journals> {
    match journals_from_json(alloc, text.as_bytes()) {
        Ok(journals) => Some(journals),
        Err(_) => None,
    }
}

// ---- the tables of the file

fn is_printed(alloc: Global, tables: &Tables, view: &View) -> bool {
    if view.tree().levels() != tables.levels() {
        return false;
    }
    match render(alloc, tables, view) {
        Ok(text) => text.as_str() == BOARD,
        Err(_) => false,
    }
}

/// Whether a copy of the tables is printed as the board.
fn has_copy(alloc: Global, tables: &Tables, view: &View) -> bool {
    match tables.copy(alloc) {
        Ok(copy) => {
            let is_printed = is_printed(alloc, &copy, view);
            forget(copy);
            is_printed
        }
        Err(_) => false,
    }
}

fn has_board(alloc: Global, journals: &Journals, view: &View) -> bool
    requires { AreLegal journals.now }
{
    match Tables::of(alloc, journals) {
        Ok(tables) => {
            let has_copy = has_copy(alloc, &tables, view);
            forget(tables);
            has_copy
        }
        Err(_) => false,
    }
}

/// Whether the journals have this order, and the board beside the view.
fn are_explained(alloc: Global, journals: &Journals, view: &View) -> bool {
    match explain(alloc, journals) {
        Ok(order) => {
            let is_order = order.as_slice() == ORDER.as_slice();
            forget(order);
            is_order && has_board(alloc, journals, view)
        }
        Err(fault) => {
            forget(fault);
            false
        }
    }
}

fn is_file_explained(alloc: Global, view: &View) -> bool {
    match journals_of(alloc, FILE) {
        Some(journals) => {
            let are_explained = are_explained(alloc, &journals, view);
            forget(journals);
            are_explained
        }
        None => false,
    }
}

// ---- steps of a service

/// A verdict that the desk never told.
pub(crate) fn unfounded_ask(alloc: Global) -> Result<NodeAsk, Memory> {
    let decide = WorkAsk::Decide {
        txn: 1,
        verdict: Verdict::Abort,
        cite: 1,
    };
    Ok(NodeAsk::Work(Shared::new(alloc, decide)?))
}

fn is_mark(answer: &Answer) -> bool {
    answer.number == 1 && matches!(&answer.reply, Reply::View(ViewReply::Marked))
}

/// Whether the first step was answered; the second finds the journal full, the third cites what was not told, and the
/// fourth asks a server that there is not.
fn are_told(results: &[Result<Answer, Refusal>]) -> bool {
    match results {
        [Ok(answer), Err(full), Err(unfounded), Err(none)] => {
            is_mark(answer)
                && *full == Refusal::JournalFull { part: Part::View }
                && *unfounded
                    == Refusal::Unfounded {
                        part: Part::Desk,
                        number: 1,
                    }
                && *none == Refusal::NoSuchServer
        }
        _ => false,
    }
}

fn runs(service: &mut Service, alloc: Global, steps: Vec<Step>) -> bool {
    match service.run(alloc, steps) {
        Ok(results) => {
            let are_told = are_told(results.as_slice());
            forget(results);
            are_told
        }
        Err(_) => false,
    }
}

/// Whether a run marks server 1 down, and takes no other step.
fn marks(service: &mut Service, alloc: Global) -> bool {
    let (server, up) = (1, false);
    let Ok(unfounded) = unfounded_ask(alloc) else {
        return false;
    };
    match vec![in alloc;
        Step::View(ViewAsk::Mark { server, up }),
        Step::View(ViewAsk::Choose {
            purpose: Purpose::Read
        }),
        Step::Node {
            server: 1,
            ask: unfounded
        },
        Step::Node {
            server: 4,
            ask: NodeAsk::Crash
        },
    ] {
        Ok(steps) => runs(service, alloc, steps),
        Err(_) => false,
    }
}

/// Whether the desk has room, though the view has none.
fn begins(service: &mut Service, alloc: Global) -> bool {
    match service.step(alloc, Step::Desk(DeskAsk::Begin)) {
        Ok(answer) => {
            let is_begun = answer.number == 1
                && matches!(&answer.reply, Reply::Desk(DeskReply::Txn(1)));
            forget(answer);
            is_begun
        }
        Err(_) => false,
    }
}

/// Whether server 3 has no entry, and there is no journal of a server 4.
fn has_journals(service: &Service) -> bool {
    let is_none = matches!(service.journal(Part::Server(4)), None);
    match service.journal(Part::Server(3)) {
        Some(Journal::Server(entries)) => is_none && entries.is_empty(),
        _ => false,
    }
}

fn leaves_journals(service: Service, alloc: Global) -> bool {
    let journals = service.into_journals();
    let is_left = match journals_to_json(alloc, &journals) {
        Ok(text) => text.as_str() == LEFT,
        Err(_) => false,
    };
    forget(journals);
    is_left
}

/// Whether a service of journals of one entry takes the steps, and the file is explained beside its view.
fn is_run(alloc: Global) -> bool {
    match Service::new(
        alloc,
        Levels::new(2).unwrap(),
        Limits::new(1000, 64, 1).unwrap(),
    ) {
        Ok(mut service) => {
            let is_run = marks(&mut service, alloc)
                && begins(&mut service, alloc)
                && has_journals(&service)
                && is_file_explained(alloc, service.view());
            leaves_journals(service, alloc) && is_run
        }
        Err(_) => false,
    }
}

#[test]
fn a_service_is_run_and_journals_are_explained(rt: HostRuntime) {
    assert!(rt; is_run(rt.alloc()));
}
