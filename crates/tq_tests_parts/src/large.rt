//! A content as long as any, in a tree as large as any: what clients write and read, in a journal file there and back.
use std::alloc::Global;
use std::mem::forget;
use std::sync::Wait;
use std::thread::Threads;
use tq_board::{ReadFault, journals_from_json, journals_to_json};
use tq_devices::{MemorySink, MemorySource};
use tq_shape::{Levels, Memory};
use tq_shell::{audit, threads};
use tq_store::Content;

/// A text but for a content in its midst.
struct Ends {
    before: &'static [u8],
    after: &'static [u8],
}

/// A client that writes a content and reads it.
const SCRIPT: Ends = Ends {
    before: b"client\nbegin\nwrite a ",
    after: b"\ncommit\nbegin\nread a\ncommit\n",
};

/// The journals of a server that took a copy.
const FILE: Ends = Ends {
    before: b"{\"desk\":[],\"format\":2,\"levels\":1,\"limits\":{\"entries\":1000000,\"files\":1000,\"ops\":64},\"servers\":[[{\"ask\":{\"content\":\"",
    after: b"\",\"file\":\"a\",\"from\":{\"number\":1,\"server\":1},\"is\":\"refresh\",\"version\":1},\"reply\":{\"is\":\"refreshed\"}}]],\"view\":[]}\n",
};

const NOTHING: Ends = Ends {
    before: b"",
    after: b"",
};

/// Both ends with so many sevens between them.
fn filled(alloc: Global, ends: &Ends, count: usize) -> Result<Vec<u8>, Memory> {
    let mut text = Vec::new(alloc);
    text.extend_from_slice(ends.before)?;
    for _ in 0..count {
        text.push(b'7')?;
    }
    text.extend_from_slice(ends.after)?;
    Ok(text)
}

// ---- a tree of ten levels

/// How long the journals of the client are as a text.
const LENGTH: usize = 435_771;

fn is_explained(alloc: Global, text: &[u8]) -> bool {
    let mut source = MemorySource::new(text, 65_536, None);
    let mut sink = MemorySink::new(alloc, 65_536, None);
    let status = audit(alloc, &mut source, &mut sink);
    matches!(status, Ok(0)) && sink.bytes() == b"explained 66\n".as_slice()
}

/// Whether the journals that the text stands for are written as this text.
fn is_written_again(alloc: Global, text: &[u8]) -> bool {
    let Ok(journals) = journals_from_json(alloc, text) else {
        return false;
    };
    let again = journals_to_json(alloc, &journals);
    forget(journals);
    match again {
        Ok(again) => again.as_bytes() == text,
        Err(_) => false,
    }
}

/// Whether a client writes and reads the content, and its journals are explained, there and back.
fn is_kept<H: Threads + Wait + Sync>(rt: &H, alloc: Global, script: &[u8]) -> bool {
    let mut source = MemorySource::new(script, 65_536, None);
    let mut sink = MemorySink::new(alloc, 65_536, None);
    let levels = Levels::new(10).unwrap();
    let status = threads(rt, alloc, levels, 0, 0, &mut source, &mut sink);
    let text = sink.bytes();
    matches!(status, Ok(0))
        && text.len() == LENGTH
        && is_explained(alloc, text)
        && is_written_again(alloc, text)
}

#[test]
fn the_longest_content_is_written_and_read_at_ten_levels(rt: HostRuntime) {
    let script = filled(rt.alloc(), &SCRIPT, 4_000).expect(&rt, "memory");
    assert!(rt; is_kept(&rt, rt.alloc(), script.as_slice()));
}

// ---- a byte more

fn is_content(alloc: Global, count: usize) -> Result<bool, Memory> {
    let bytes = filled(alloc, &NOTHING, count)?;
    let content = Content::new(bytes)?;
    Ok(content.is_some())
}

/// Whether the journals can be read that have a content of so many bytes.
fn is_read(alloc: Global, count: usize) -> Option<bool> {
    let Ok(file) = filled(alloc, &FILE, count.wrapping_mul(2)) else {
        return None;
    };
    match journals_from_json(alloc, file.as_slice()) {
        Ok(journals) => {
            forget(journals);
            Some(true)
        }
        Err(ReadFault::NotJournals) => Some(false),
        Err(_) => None,
    }
}

#[test]
fn a_longer_content_is_none_and_in_no_journal_file(rt: HostRuntime) {
    assert!(rt; matches!(is_content(rt.alloc(), 4_000), Ok(true)));
    assert!(rt; matches!(is_content(rt.alloc(), 4_001), Ok(false)));
    assert!(rt; is_read(rt.alloc(), 4_000) == Some(true));
    assert!(rt; is_read(rt.alloc(), 4_001) == Some(false));
}
