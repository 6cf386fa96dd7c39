//! A server that stops inside a vote, or inside the end of a vote, behind each of the stable records that it writes; it
//! returns, and is asked for the vote.
use super::asked::journals_of;
use super::recorded::answers_all;
use std::alloc::Global;
use std::mem::forget;
use tq_intents::Record;
use tq_node::Node;
use tq_shape::{Levels, Memory};
use tq_tables::{Journals, NodeEntry};

/// Server 1 of one level is asked for three locks of transaction 7, and stops inside its vote for writes of `a` and `b`.
const VOTE: &str =
    "{\"desk\":[],\"format\":2,\"levels\":1,\"limits\":{\"entries\":1000000,\"files\":1000,\"ops\":64},\"servers\":[[{\"ask\":{\"file\":\"a\",\"is\":\"lock\",\"mode\":\"exclusive\",\"txn\":7},\"reply\":{\"content\":\"\",\"is\":\"granted\",\"version\":0}},{\"ask\":{\"file\":\"b\",\"is\":\"lock\",\"mode\":\"exclusive\",\"txn\":7},\"reply\":{\"content\":\"\",\"is\":\"granted\",\"version\":0}},{\"ask\":{\"file\":\"c\",\"is\":\"lock\",\"mode\":\"shared\",\"txn\":7},\"reply\":{\"content\":\"\",\"is\":\"granted\",\"version\":0}},{\"ask\":{\"after\":";

/// Asked again it does not hold the locks, and has no vote to end.
const NO_VOTE_LEFT: &str =
    ",\"ask\":{\"is\":\"prepare\",\"txn\":7,\"writes\":[{\"content\":\"78\",\"file\":\"a\",\"version\":1},{\"content\":\"79\",\"file\":\"b\",\"version\":1}]},\"is\":\"crashin\"},\"reply\":{\"is\":\"crashed\"}},{\"ask\":{\"is\":\"return\"},\"reply\":{\"is\":\"returned\"}},{\"ask\":{\"is\":\"prepare\",\"txn\":7,\"writes\":[{\"content\":\"78\",\"file\":\"a\",\"version\":1},{\"content\":\"79\",\"file\":\"b\",\"version\":1}]},\"reply\":{\"code\":16,\"file\":\"a\",\"is\":\"refused\"}},{\"ask\":{\"cite\":1,\"is\":\"decide\",\"txn\":7,\"verdict\":{\"is\":\"commit\",\"votes\":[{\"number\":4,\"server\":1}]}},\"reply\":{\"code\":19,\"is\":\"refused\"}}]],\"view\":[]}\n";

/// Asked again it has the vote, which is ended.
const VOTE_LEFT: &str =
    ",\"ask\":{\"is\":\"prepare\",\"txn\":7,\"writes\":[{\"content\":\"78\",\"file\":\"a\",\"version\":1},{\"content\":\"79\",\"file\":\"b\",\"version\":1}]},\"is\":\"crashin\"},\"reply\":{\"is\":\"crashed\"}},{\"ask\":{\"is\":\"return\"},\"reply\":{\"is\":\"returned\"}},{\"ask\":{\"is\":\"prepare\",\"txn\":7,\"writes\":[{\"content\":\"78\",\"file\":\"a\",\"version\":1},{\"content\":\"79\",\"file\":\"b\",\"version\":1}]},\"reply\":{\"code\":15,\"is\":\"refused\"}},{\"ask\":{\"cite\":1,\"is\":\"decide\",\"txn\":7,\"verdict\":{\"is\":\"commit\",\"votes\":[{\"number\":4,\"server\":1}]}},\"reply\":{\"is\":\"installed\"}}]],\"view\":[]}\n";

/// Server 1 votes for writes of `a` and `b`, and stops inside the end of the vote.
const END: &str =
    "{\"desk\":[],\"format\":2,\"levels\":1,\"limits\":{\"entries\":1000000,\"files\":1000,\"ops\":64},\"servers\":[[{\"ask\":{\"file\":\"a\",\"is\":\"lock\",\"mode\":\"exclusive\",\"txn\":7},\"reply\":{\"content\":\"\",\"is\":\"granted\",\"version\":0}},{\"ask\":{\"file\":\"b\",\"is\":\"lock\",\"mode\":\"exclusive\",\"txn\":7},\"reply\":{\"content\":\"\",\"is\":\"granted\",\"version\":0}},{\"ask\":{\"is\":\"prepare\",\"txn\":7,\"writes\":[{\"content\":\"78\",\"file\":\"a\",\"version\":1},{\"content\":\"79\",\"file\":\"b\",\"version\":1}]},\"reply\":{\"held\":[{\"file\":\"a\",\"mode\":\"exclusive\",\"since\":1},{\"file\":\"b\",\"mode\":\"exclusive\",\"since\":2}],\"is\":\"yes\",\"writes\":[{\"content\":\"78\",\"file\":\"a\",\"version\":1},{\"content\":\"79\",\"file\":\"b\",\"version\":1}]}},{\"ask\":{\"after\":";

/// The vote is open, and is ended.
const OPEN_LEFT: &str =
    ",\"ask\":{\"cite\":1,\"is\":\"decide\",\"txn\":7,\"verdict\":{\"is\":\"commit\",\"votes\":[{\"number\":3,\"server\":1}]}},\"is\":\"crashin\"},\"reply\":{\"is\":\"crashed\"}},{\"ask\":{\"is\":\"return\"},\"reply\":{\"is\":\"returned\"}},{\"ask\":{\"cite\":1,\"is\":\"decide\",\"txn\":7,\"verdict\":{\"is\":\"commit\",\"votes\":[{\"number\":3,\"server\":1}]}},\"reply\":{\"is\":\"installed\"}}]],\"view\":[]}\n";

/// The vote has ended.
const NOTHING_LEFT: &str =
    ",\"ask\":{\"cite\":1,\"is\":\"decide\",\"txn\":7,\"verdict\":{\"is\":\"commit\",\"votes\":[{\"number\":3,\"server\":1}]}},\"is\":\"crashin\"},\"reply\":{\"is\":\"crashed\"}},{\"ask\":{\"is\":\"return\"},\"reply\":{\"is\":\"returned\"}},{\"ask\":{\"cite\":1,\"is\":\"decide\",\"txn\":7,\"verdict\":{\"is\":\"commit\",\"votes\":[{\"number\":3,\"server\":1}]}},\"reply\":{\"code\":19,\"is\":\"refused\"}}]],\"view\":[]}\n";

/// The letter of each record: a copy, an intent, a lock kept, a vote prepared, a vote gone.
fn letter(record: &Record) -> u8 {
    match record {
        Record::Copy { .. } => b'c',
        Record::Intent { .. } => b'i',
        Record::Keep { .. } => b'k',
        Record::Prepared { .. } => b'p',
        Record::Gone { .. } => b'g',
    }
}

/// Whether these are records of these letters, in this order.
fn are_of_letters(records: &[Record], letters: &[u8]) -> bool {
    if records.len() != letters.len() {
        return false;
    }
    for (place, record) in records.iter().enumerate() {
        if letter(record) != letters[place] {
            return false;
        }
    }
    true
}

/// Whether server 1 gives all replies, and has written records of these letters then.
fn records(alloc: Global, entries: &[NodeEntry], letters: &[u8]) -> bool {
    let mut node = Node::new(alloc, Levels::default(), Levels::default().root());
    let records = answers_all(alloc, &mut node, entries) && are_of_letters(node.stable(), letters);
    forget(node);
    records
}

fn server_records(alloc: Global, journals: &Journals, letters: &[u8]) -> bool {
    match journals.servers() {
        [entries] => records(alloc, entries.as_slice(), letters),
        _ => false,
    }
}

/// The file whose server stops behind so many records, a digit.
fn file_of(alloc: Global, begun: &str, after: u8, left: &str) -> Result<String, Memory> {
    let mut text = String::new(alloc);
    text.push_str(begun)?;
    text.push(char::from(after))?;
    text.push_str(left)?;
    Ok(text)
}

/// Whether the server that stops so leaves what is told, and has written records of these letters in the end.
fn leaves(alloc: Global, begun: &str, after: u8, left: &str, letters: &[u8]) -> bool {
    let Ok(file) = file_of(alloc, begun, after, left) else {
        return false;
    };
    match journals_of(alloc, file.as_str()) {
        Some(journals) => {
            let leaves = server_records(alloc, &journals, letters);
            forget(journals);
            leaves
        }
        None => false,
    }
}

/// Two intents, three locks kept, and the vote prepared: without the last there is no vote and no lock.
#[test]
fn a_vote_stops_behind_each_of_its_records(rt: HostRuntime) {
    let alloc = rt.alloc();
    let letters: &[u8] = b"iikkkp";
    for (after, digit) in b"012345".iter().enumerate() {
        assert!(rt; leaves(alloc, VOTE, *digit, NO_VOTE_LEFT, &letters[..after]));
    }
    assert!(rt; leaves(alloc, VOTE, b'6', VOTE_LEFT, b"iikkkpccg"));
}

/// Behind both copies what is left to write is the end alone.
#[test]
fn the_end_of_a_vote_stops_behind_its_copies_and_behind_its_last_record(rt: HostRuntime) {
    let alloc = rt.alloc();
    assert!(rt; leaves(alloc, END, b'2', OPEN_LEFT, b"iikkpccg"));
    assert!(rt; leaves(alloc, END, b'3', NOTHING_LEFT, b"iikkpccg"));
}
