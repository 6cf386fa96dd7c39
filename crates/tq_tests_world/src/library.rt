//! The crates as a program of one's own uses them; README.md shows two functions of this file.
use std::alloc::Global;
use std::test::*;
use tq_asks::{NodeAsk, WorkAsk};
use tq_board::{journals_from_json, journals_to_json, render};
use tq_core::{Reply, Service, Step};
use tq_desk::{DeskAsk, DeskReply};
use tq_live::{Purpose, ViewAsk};
use tq_locks::Mode;
use tq_merge::explain;
use tq_shape::{Levels, Limits, Shared};
use tq_store::FileName;
use tq_tables::Tables;
use tq_txn::{NodeTold, Open, Voting};

/// The board after a commit that read `a`, of version 0.
const BOARD: &str = "board levels 1\n\
    server 1 cost 1 1 up read 1 by 1 write 1 by 1\n\
    lock 1 a 1 shared since 1 version 0\n\
    intent 1 1 number 2 install -\n\
    end\n";

// ---- a transaction, ask by ask

/// Asks server 1: its answer, as a transaction takes it.
fn ask_server(service: &mut Service, alloc: Global, ask: NodeAsk) -> Option<NodeTold> {
    let server = 1;
    let given = ask.clone().ok()?;
    let answer = service.step(alloc, Step::Node { server, ask: given }).ok()?;
    let number = answer.number;
    match answer.reply {
        Reply::Node(reply) => Some(NodeTold {
            server,
            number,
            ask,
            reply,
        }),
        _ => None,
    }
}

/// Transaction 1 reads `a` at server 1, and is to commit.
fn read(service: &mut Service, alloc: Global) -> Option<Voting> {
    let file = FileName::new(b"a")?;
    let (txn, mode) = (1, Mode::Shared);
    let lock = Shared::new(alloc, WorkAsk::Lock { txn, file, mode }).ok()?;
    let granted = [ask_server(service, alloc, NodeAsk::Work(lock))?];
    let mut open = Open::new(alloc, Levels::new(1)?, Limits::full(), txn);
    open.read(alloc, &file, granted.as_slice()).ok()?;
    open.close().ok()
}

/// A transaction in a tree of one server: it begins, the view chooses a quorum, the server grants a lock and votes, and the
/// desk commits. Which commit it is, from 1.
fn transact(service: &mut Service, alloc: Global) -> Option<u64> {
    let purpose = Purpose::Read;
    service.step(alloc, Step::Desk(DeskAsk::Begin)).ok()?;
    service
        .step(alloc, Step::View(ViewAsk::Choose { purpose }))
        .ok()?;
    let mut voting = read(service, alloc)?;
    let server = voting.txn().levels().server(1)?;
    let vote = ask_server(service, alloc, voting.ask(alloc, server).ok()?)?;
    voting.vote(alloc, &vote).ok()?;
    let commit = voting.ready().ok()?.evidence(alloc).ok()?;
    match service.step(alloc, Step::Desk(commit)).ok()?.reply {
        Reply::Desk(DeskReply::Committed { serial }) => Some(serial),
        _ => None,
    }
}

// ---- journals

/// The board of the journals in a file, where some order of all their entries is a legal run.
fn board_of(alloc: Global, file: &[u8]) -> Option<String> {
    let journals = journals_from_json(alloc, file).ok()?;
    match explain(alloc, &journals) {
        Ok(_) => {
            let tables = Tables::of(alloc, &journals).ok()?;
            render(alloc, &tables, tables.view()).ok()
        }
        Err(_) => None,
    }
}

/// Whether the service commits once, and its journals, written and read again, have the board.
fn is_whole(alloc: Global, mut service: Service) -> bool {
    let serial = transact(&mut service, alloc);
    let journals = service.into_journals();
    let Ok(text) = journals_to_json(alloc, &journals) else {
        return false;
    };
    match board_of(alloc, text.as_bytes()) {
        Some(board) => serial == Some(1) && board.as_str() == BOARD,
        None => false,
    }
}

#[test]
fn a_service_and_an_audit_of_ones_own(rt: HostRuntime) -> Result<(), Fail> {
    let alloc = rt.alloc();
    let levels = Levels::new(1).ok_or("levels")?;
    let service = Service::new(alloc, levels, Limits::full())?;
    assert!(rt; is_whole(alloc, service));
    Ok(())
}
