//! A server that is asked one thing after another, and the stable records that it has written then.
use super::asked::journals_of;
use std::alloc::Global;
use std::mem::forget;
use tq_intents::{Record, SharedLock, SharedWrite};
use tq_locks::Mode;
use tq_node::Node;
use tq_shape::{Levels, ServerId};
use tq_tables::{Journals, NodeEntry, Same};

/// What server 2 is asked: locks and a vote of transaction 7, which outlives a crash, and other transactions that meet it.
const FILE: &str =
    "{\"desk\":[],\"format\":2,\"levels\":2,\"limits\":{\"entries\":1000000,\"files\":1000,\"ops\":64},\"servers\":[[],[{\"ask\":{\"file\":\"a\",\"is\":\"lock\",\"mode\":\"shared\",\"txn\":7},\"reply\":{\"content\":\"\",\"is\":\"granted\",\"version\":0}},{\"ask\":{\"file\":\"b\",\"is\":\"lock\",\"mode\":\"exclusive\",\"txn\":7},\"reply\":{\"content\":\"\",\"is\":\"granted\",\"version\":0}},{\"ask\":{\"file\":\"a\",\"is\":\"lock\",\"mode\":\"exclusive\",\"txn\":7},\"reply\":{\"content\":\"\",\"is\":\"granted\",\"version\":0}},{\"ask\":{\"is\":\"prepare\",\"txn\":7,\"writes\":[{\"content\":\"78\",\"file\":\"b\",\"version\":1},{\"content\":\"79\",\"file\":\"a\",\"version\":1}]},\"reply\":{\"code\":17,\"is\":\"refused\"}},{\"ask\":{\"is\":\"prepare\",\"txn\":7,\"writes\":[{\"content\":\"79\",\"file\":\"a\",\"version\":1},{\"content\":\"7a\",\"file\":\"c\",\"version\":1}]},\"reply\":{\"code\":16,\"file\":\"c\",\"is\":\"refused\"}},{\"ask\":{\"is\":\"prepare\",\"txn\":7,\"writes\":[{\"content\":\"79\",\"file\":\"a\",\"version\":1}]},\"reply\":{\"held\":[{\"file\":\"a\",\"mode\":\"exclusive\",\"since\":1},{\"file\":\"b\",\"mode\":\"exclusive\",\"since\":2}],\"is\":\"yes\",\"writes\":[{\"content\":\"79\",\"file\":\"a\",\"version\":1}]}},{\"ask\":{\"file\":\"c\",\"is\":\"lock\",\"mode\":\"shared\",\"txn\":7},\"reply\":{\"code\":15,\"is\":\"refused\"}},{\"ask\":{\"file\":\"d\",\"is\":\"lock\",\"mode\":\"shared\",\"txn\":8},\"reply\":{\"content\":\"\",\"is\":\"granted\",\"version\":0}},{\"ask\":{\"is\":\"crash\"},\"reply\":{\"is\":\"crashed\"}},{\"ask\":{\"file\":\"d\",\"is\":\"lock\",\"mode\":\"shared\",\"txn\":8},\"reply\":{\"code\":11,\"is\":\"refused\"}},{\"ask\":{\"is\":\"return\"},\"reply\":{\"is\":\"returned\"}},{\"ask\":{\"file\":\"d\",\"is\":\"lock\",\"mode\":\"exclusive\",\"txn\":9},\"reply\":{\"content\":\"\",\"is\":\"granted\",\"version\":0}},{\"ask\":{\"file\":\"b\",\"is\":\"lock\",\"mode\":\"shared\",\"txn\":9},\"reply\":{\"by\":7,\"code\":14,\"is\":\"refused\"}},{\"ask\":{\"cite\":1,\"is\":\"decide\",\"txn\":7,\"verdict\":{\"is\":\"commit\",\"votes\":[{\"number\":5,\"server\":2}]}},\"reply\":{\"is\":\"discarded\"}},{\"ask\":{\"file\":\"b\",\"is\":\"lock\",\"mode\":\"shared\",\"txn\":9},\"reply\":{\"content\":\"\",\"is\":\"granted\",\"version\":0}},{\"ask\":{\"cite\":1,\"is\":\"decide\",\"txn\":7,\"verdict\":{\"is\":\"commit\",\"votes\":[{\"number\":5,\"server\":2}]}},\"reply\":{\"code\":19,\"is\":\"refused\"}}],[]],\"view\":[]}\n";

/// Whether the server gives the reply of the entry.
fn answers(alloc: Global, node: &mut Node, entry: &NodeEntry) -> bool {
    let Some(number) = node.last().checked_add(1) else {
        return false;
    };
    match node.answer(alloc, number, &entry.ask) {
        Ok(reply) => {
            let is_same = reply.is_same(&entry.reply);
            forget(reply);
            is_same
        }
        Err(_) => false,
    }
}

pub(crate) fn answers_all(alloc: Global, node: &mut Node, entries: &[NodeEntry]) -> bool {
    for entry in entries {
        if !answers(alloc, node, entry) {
            return false;
        }
    }
    true
}

// ---- records

/// Whether it is the first write of `a`, of the letter y.
fn is_write(write: &SharedWrite) -> bool {
    write.file().as_bytes() == b"a".as_slice()
        && write.version() == 1
        && write.content().as_bytes() == b"y".as_slice()
}

/// Whether it is an exclusive lock on the file, of which there was no copy then.
fn is_lock(lock: &SharedLock, name: &[u8], since: u64) -> bool {
    let kept = lock.get();
    kept.file.as_bytes() == name
        && kept.mode == Mode::Exclusive
        && kept.since == since
        && kept.version == 0
}

fn is_intent(record: &Record) -> bool {
    match record {
        Record::Intent { txn, number, write } => *txn == 7 && *number == 6 && is_write(write),
        _ => false,
    }
}

fn is_keep(record: &Record, name: &[u8], since: u64) -> bool {
    match record {
        Record::Keep { txn, number, lock } => {
            *txn == 7 && *number == 6 && is_lock(lock, name, since)
        }
        _ => false,
    }
}

fn is_prepared(record: &Record) -> bool {
    match record {
        Record::Prepared { txn, number } => *txn == 7 && *number == 6,
        _ => false,
    }
}

fn is_gone(record: &Record) -> bool {
    match record {
        Record::Gone { txn, number } => *txn == 7 && *number == 6,
        _ => false,
    }
}

/// Whether they are those of the vote of transaction 7, and of its end.
fn are_of_the_vote(records: &[Record]) -> bool {
    match records {
        [intent, first, second, prepared, gone] => {
            is_intent(intent)
                && is_keep(first, b"a", 1)
                && is_keep(second, b"b", 2)
                && is_prepared(prepared)
                && is_gone(gone)
        }
        _ => false,
    }
}

// ---- the server

/// Whether server 2 gives these replies, sixteen of them, and has written these records then.
fn records(alloc: Global, entries: &[NodeEntry]) -> bool {
    let levels = Levels::new(2).unwrap();
    let mut node = Node::new(alloc, levels, ServerId::new(levels, 2));
    let records = answers_all(alloc, &mut node, entries)
        && node.last() == 16
        && are_of_the_vote(node.stable());
    forget(node);
    records
}

fn server_2_records(alloc: Global, journals: &Journals) -> bool {
    match journals.servers() {
        [_, entries, _] => records(alloc, entries.as_slice()),
        _ => false,
    }
}

fn records_as_asked(alloc: Global) -> bool {
    match journals_of(alloc, FILE) {
        Some(journals) => {
            let records = server_2_records(alloc, &journals);
            forget(journals);
            records
        }
        None => false,
    }
}

#[test]
fn a_server_has_written_its_stable_records(rt: HostRuntime) {
    assert!(rt; records_as_asked(rt.alloc()));
}
