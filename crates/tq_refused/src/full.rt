//! A service of one server whose journals have room for one entry each. What is refused since a journal is full, or since there
//! is no such server, takes no memory.

use crate::wrong::Wrong;
use std::alloc::Global;
use tq_asks::{NodeAsk, NodeReply, WorkAsk};
use tq_core::{Refusal, Reply, Service, Step};
use tq_desk::{DeskAsk, DeskReply};
use tq_locks::Mode;
use tq_shape::{Levels, Limits, Memory, Part, Shared};
use tq_store::FileName;

/// Makes the service, and has it take the steps.
pub(crate) fn run(rt: &HostRuntime) -> Result<(), Wrong> {
    let mut service = Service::new(
        rt.alloc(),
        Levels::new(1).unwrap(),
        Limits::new(1000, 64, 1).unwrap(),
    )?;
    let told = tell_all(rt, &mut service);
    drop(service);
    told
}

/// Takes the steps, and prints what each is told: so the desk begins a transaction, and is full; server 1 grants a lock, and
/// is full; and there is no server 2.
fn tell_all(rt: &HostRuntime, service: &mut Service) -> Result<(), Wrong> {
    let [lock, release] = asks(rt.alloc())?;
    tell(rt, service, Step::Desk(DeskAsk::Begin))?;
    tell(rt, service, Step::Desk(DeskAsk::Begin))?;
    tell(rt, service, Step::Desk(DeskAsk::Resolve { txn: 1 }))?;
    tell(
        rt,
        service,
        Step::Node {
            server: 1,
            ask: lock,
        },
    )?;
    tell(
        rt,
        service,
        Step::Node {
            server: 1,
            ask: release,
        },
    )?;
    tell(
        rt,
        service,
        Step::Node {
            server: 2,
            ask: NodeAsk::Crash,
        },
    )
}

/// A lock of a file for transaction 1, and the end of it.
fn asks(alloc: Global) -> Result<[NodeAsk; 2], Memory> {
    let file = FileName::new(b"a").unwrap();
    let lock = WorkAsk::Lock {
        txn: 1,
        file,
        mode: Mode::Shared,
    };
    let release = WorkAsk::Release { txn: 1 };
    Ok([
        NodeAsk::Work(Shared::new(alloc, lock)?),
        NodeAsk::Work(Shared::new(alloc, release)?),
    ])
}

/// Prints what the step is told.
fn tell(rt: &HostRuntime, service: &mut Service, step: Step) -> Result<(), Wrong> {
    match service.step(rt.alloc(), step) {
        Ok(answer) => tell_reply(rt, &answer.reply),
        Err(Refusal::Memory) => Err(Wrong::Memory),
        Err(refusal) => {
            tell_refusal(rt, refusal);
            Ok(())
        }
    }
}

/// Prints a reply of those that these steps have.
fn tell_reply(rt: &HostRuntime, reply: &Reply) -> Result<(), Wrong> {
    let _printed = match reply {
        Reply::Desk(DeskReply::Txn(txn)) => println!(rt; "txn {txn}"),
        Reply::Node(NodeReply::Granted { version, content }) => {
            println!(rt;
                "granted version {version} length {}",
                content.as_bytes().len()
            )
        }
        _ => return Err(Wrong::Otherwise),
    };
    Ok(())
}

fn tell_refusal(rt: &HostRuntime, refusal: Refusal) {
    let _printed = match refusal {
        Refusal::JournalFull { part: Part::Desk } => println!(rt; "journal full desk"),
        Refusal::JournalFull { part: Part::View } => println!(rt; "journal full view"),
        Refusal::JournalFull {
            part: Part::Server(server),
        } => println!(rt; "journal full server {server}"),
        Refusal::NoSuchServer => println!(rt; "no such server"),
        Refusal::Memory => println!(rt; "memory"),
        Refusal::Unfounded { .. } => println!(rt; "not founded"),
    };
}
