//! Answers that no part gives to a client of the program: to the asks of another transaction, of another kind, or none.
//! What is made is left where it is, since to let it go is dear to prove.
use std::alloc::Global;
use std::mem::forget;
use tq_asks::{NodeAsk, NodeReply, Verdict, WorkAsk};
use tq_desk::{DeskAsk, DeskReply};
use tq_locks::Mode;
use tq_refresh::{Job, copy_ask};
use tq_shape::{Levels, Limits, Memory, ServerId, Shared, SharedSeq};
use tq_store::{Content, FileName};
use tq_txn::{DeskTold, NodeTold, Open, TxnFault, Voting};

fn a() -> FileName {
    FileName::new(b"a").unwrap()
}

/// Transaction 1 over a tree of one server.
fn begun(alloc: Global) -> Open {
    Open::new(alloc, Levels::new(1).unwrap(), Limits::full(), 1)
}

// ---- reads and writes

/// What server 1 tells of an exclusive lock of a transaction on `a`, which has that version there.
fn granted(alloc: Global, txn: u64, version: u64) -> Result<NodeTold, Memory> {
    let (file, mode) = (a(), Mode::Exclusive);
    let lock = WorkAsk::Lock { txn, file, mode };
    let ask = NodeAsk::Work(Shared::new(alloc, lock)?);
    let content = Content::empty();
    Ok(NodeTold {
        server: 1,
        number: 1,
        ask,
        reply: NodeReply::Granted { version, content },
    })
}

fn read(open: &mut Open, alloc: Global, told: &[NodeTold]) -> Option<TxnFault> {
    match open.read(alloc, &a(), told) {
        Ok(copy) => {
            forget(copy);
            None
        }
        Err(fault) => Some(fault),
    }
}

fn write(open: &mut Open, alloc: Global, told: &[NodeTold]) -> Option<TxnFault> {
    open.write(alloc, &a(), Content::empty(), told).err()
}

/// Why a read by a grant of that transaction is not taken.
fn read_granted(open: &mut Open, alloc: Global, txn: u64) -> Option<TxnFault> {
    let Ok(told) = granted(alloc, txn, 7) else {
        return Some(TxnFault::Memory);
    };
    let told = [told];
    let fault = read(open, alloc, told.as_slice());
    forget(told);
    fault
}

/// Why a write above the greatest version is not taken.
fn write_full(open: &mut Open, alloc: Global) -> Option<TxnFault> {
    let Ok(told) = granted(alloc, 1, 18_446_744_073_709_551_615) else {
        return Some(TxnFault::Memory);
    };
    let told = [told];
    let fault = write(open, alloc, told.as_slice());
    forget(told);
    fault
}

/// Whether a read by no answer, one by the grant of another transaction, a write above the greatest version, and the second
/// of two reads are refused.
fn refuses_grants(open: &mut Open, alloc: Global) -> bool {
    matches!(read(open, alloc, &[]), Some(TxnFault::NotAMember))
        && matches!(
            read_granted(open, alloc, 2),
            Some(TxnFault::NotAGrant { server: 1 })
        )
        && matches!(write_full(open, alloc), Some(TxnFault::VersionFull))
        && read_granted(open, alloc, 1).is_none()
        && matches!(read_granted(open, alloc, 1), Some(TxnFault::AlreadyThere))
}

fn grants_are_refused(alloc: Global) -> bool {
    let mut open = begun(alloc);
    let are_refused = refuses_grants(&mut open, alloc);
    forget(open);
    are_refused
}

// ---- votes

/// A vote of a server, as its second entry, for a transaction that holds and writes nothing there.
fn voted(alloc: Global, server: u64, txn: u64) -> Result<NodeTold, Memory> {
    let writes = SharedSeq::from_vec(Vec::new(alloc))?;
    let ask = NodeAsk::Work(Shared::new(
        alloc,
        WorkAsk::Prepare {
            txn,
            writes: writes.clone()?,
        },
    )?);
    Ok(NodeTold {
        server,
        number: 2,
        ask,
        reply: NodeReply::Yes {
            held: SharedSeq::from_vec(Vec::new(alloc))?,
            writes,
        },
    })
}

/// Transaction 1 after a read of `a`, as it gathers votes.
fn voting(alloc: Global) -> Option<Voting> {
    let mut open = begun(alloc);
    read_granted(&mut open, alloc, 1);
    match open.close() {
        Ok(voting) => Some(voting),
        Err(back) => {
            forget(back);
            None
        }
    }
}

/// Why the vote of a server for a transaction is not taken.
fn vote(voting: &mut Voting, alloc: Global, server: u64, txn: u64) -> Option<TxnFault> {
    let Ok(told) = voted(alloc, server, txn) else {
        return Some(TxnFault::Memory);
    };
    let fault = voting.vote(alloc, &told).err();
    forget(told);
    fault
}

/// Whether votes of another server, and for another transaction, are refused.
fn refuses_votes(voting: &mut Voting, alloc: Global) -> bool {
    matches!(vote(voting, alloc, 2, 1), Some(TxnFault::NotAVoter))
        && matches!(vote(voting, alloc, 1, 2), Some(TxnFault::NotMyVote))
}

fn votes_are_refused(alloc: Global) -> bool {
    match voting(alloc) {
        Some(mut voting) => {
            let are_refused = refuses_votes(&mut voting, alloc);
            forget(voting);
            are_refused
        }
        None => false,
    }
}

// ---- verdicts

fn is_refused(alloc: Global, told: &DeskTold) -> bool {
    match begun(alloc).end(told) {
        Ok(ended) => {
            forget(ended);
            false
        }
        Err(back) => {
            let is_refused = matches!(back.1, TxnFault::NotMyVerdict);
            forget(back);
            is_refused
        }
    }
}

/// Whether what the desk told in its third entry does not end transaction 1.
fn is_no_verdict(alloc: Global, ask: DeskAsk, reply: DeskReply) -> bool {
    let number = 3;
    let told = DeskTold { number, ask, reply };
    let is_refused = is_refused(alloc, &told);
    forget(told);
    is_refused
}

/// Whether an abort of another transaction, and a beginning, are refused.
fn verdicts_are_refused(alloc: Global) -> bool {
    let abort = DeskReply::Verdict(Verdict::Abort);
    let is_foreign = is_no_verdict(alloc, DeskAsk::Resolve { txn: 2 }, abort);
    is_no_verdict(alloc, DeskAsk::Begin, DeskReply::Txn(1)) && is_foreign
}

// ---- copies

fn asks_nothing(alloc: Global, job: &Job, told: &NodeTold) -> bool {
    match copy_ask(alloc, job, 9, &told.reply) {
        Ok(None) => true,
        Ok(Some(ask)) => {
            forget(ask);
            false
        }
        Err(_) => false,
    }
}

/// Whether a refresh asks nothing after its source told a grant.
fn takes_no_grant(alloc: Global) -> bool {
    let levels = Levels::new(2).unwrap();
    let job = Job {
        file: a(),
        server: ServerId::new(levels, 3),
        source: ServerId::new(levels, 2),
    };
    let Ok(told) = granted(alloc, 1, 4) else {
        return false;
    };
    let asks_nothing = asks_nothing(alloc, &job, &told);
    forget(told);
    asks_nothing
}

#[test]
fn answers_that_are_not_taken(rt: HostRuntime) {
    let alloc = rt.alloc();
    assert!(rt; grants_are_refused(alloc));
    assert!(rt; votes_are_refused(alloc));
    assert!(rt; verdicts_are_refused(alloc));
    assert!(rt; takes_no_grant(alloc));
}
