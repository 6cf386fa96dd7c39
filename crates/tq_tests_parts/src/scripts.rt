//! Scripts of clients in a tree of one level: what is written, and what the audit says of it.
use std::alloc::Global;
use std::sync::Wait;
use std::thread::Threads;
use tq_devices::{MemorySink, MemorySource};
use tq_shape::Levels;
use tq_shell::{audit, threads};

/// A script, and what the audit of its journals writes.
struct Case {
    script: &'static [u8],
    audited: &'static [u8],
}

const CASES: [Case; 2] = [
    Case {
        script: b"client\nchoose\n",
        audited: b"explained 1\n",
    },
    Case {
        script: b"client\nbegin\nwrite a x\ncommit\n",
        audited: b"explained 6\n",
    },
];

/// What the first script writes.
const CHOSEN: &[u8] =
    b"{\"desk\":[],\"format\":2,\"levels\":1,\"limits\":{\"entries\":1000000,\"files\":1000,\"ops\":64},\"servers\":[[]],\"view\":[{\"ask\":{\"is\":\"choose\",\"purpose\":\"read\"},\"reply\":{\"cost\":1,\"is\":\"chosen\",\"servers\":[1]}}]}\n";

/// Whether the audit of the journals writes this.
fn is_audited(alloc: Global, journals: &[u8], audited: &[u8]) -> bool {
    let mut source = MemorySource::new(journals, 65_536, None);
    let mut sink = MemorySink::new(alloc, 65_536, None);
    let status = audit(alloc, &mut source, &mut sink);
    matches!(status, Ok(0)) && sink.bytes() == audited
}

/// The journals that the script leaves, where it is run to its end.
fn left<H: Threads + Wait + Sync>(rt: &H, alloc: Global, script: &[u8]) -> Option<MemorySink> {
    let mut source = MemorySource::new(script, 65_536, None);
    let mut sink = MemorySink::new(alloc, 65_536, None);
    match threads(rt, alloc, Levels::default(), 0, 0, &mut source, &mut sink) {
        Ok(0) => Some(sink),
        _ => None,
    }
}

fn is_explained<H: Threads + Wait + Sync>(rt: &H, alloc: Global, case: &Case) -> bool {
    match left(rt, alloc, case.script) {
        Some(sink) => is_audited(alloc, sink.bytes(), case.audited),
        None => false,
    }
}

fn writes<H: Threads + Wait + Sync>(rt: &H, alloc: Global, script: &[u8], text: &[u8]) -> bool {
    match left(rt, alloc, script) {
        Some(sink) => sink.bytes() == text,
        None => false,
    }
}

#[test]
fn scripts_of_one_level_leave_journals_that_are_explained(rt: HostRuntime) {
    for case in CASES.iter() {
        assert!(rt; is_explained(&rt, rt.alloc(), case));
    }
    assert!(rt; writes(&rt, rt.alloc(), CASES[0].script, CHOSEN));
}
