//! A desk that is asked to commit one read, by evidence that is good, and by evidence that is changed in one place.
use super::asked::journals_of;
use std::alloc::Global;
use std::mem::forget;
use tq_desk::Desk;
use tq_tables::{DeskEntry, Journals, Same};

/// What the desk is asked behind the begin of transaction 1, and what it replies: of each rule of evidence the first change
/// that breaks it alone.
const CASES: [&str; 8] = [
    // Server 2 gave no grant and no vote.
    "{\"desk\":[{\"ask\":{\"is\":\"begin\"},\"reply\":{\"is\":\"txn\",\"txn\":1}},{\"ask\":{\"is\":\"commit\",\"ops\":[{\"content\":\"\",\"file\":\"a\",\"grants\":[{\"content\":\"\",\"mode\":\"shared\",\"number\":1,\"server\":1,\"version\":0}],\"kind\":\"read\",\"version\":0}],\"txn\":1,\"votes\":[{\"held\":[{\"file\":\"a\",\"mode\":\"shared\",\"since\":1}],\"number\":2,\"server\":1,\"writes\":[]}]},\"reply\":{\"code\":23,\"is\":\"refused\",\"rule\":1}}],\"format\":2,\"levels\":2,\"limits\":{\"entries\":1000000,\"files\":1000,\"ops\":64},\"servers\":[[],[],[]],\"view\":[]}\n",
    // The operation is a write, by shared locks.
    "{\"desk\":[{\"ask\":{\"is\":\"begin\"},\"reply\":{\"is\":\"txn\",\"txn\":1}},{\"ask\":{\"is\":\"commit\",\"ops\":[{\"content\":\"\",\"file\":\"a\",\"grants\":[{\"content\":\"\",\"mode\":\"shared\",\"number\":1,\"server\":1,\"version\":0},{\"content\":\"\",\"mode\":\"shared\",\"number\":1,\"server\":2,\"version\":0}],\"kind\":\"write\",\"version\":1}],\"txn\":1,\"votes\":[{\"held\":[{\"file\":\"a\",\"mode\":\"shared\",\"since\":1}],\"number\":2,\"server\":1,\"writes\":[]},{\"held\":[{\"file\":\"a\",\"mode\":\"shared\",\"since\":1}],\"number\":2,\"server\":2,\"writes\":[]}]},\"reply\":{\"code\":23,\"is\":\"refused\",\"rule\":2}}],\"format\":2,\"levels\":2,\"limits\":{\"entries\":1000000,\"files\":1000,\"ops\":64},\"servers\":[[],[],[]],\"view\":[]}\n",
    // The vote of server 2 is no later than its grant.
    "{\"desk\":[{\"ask\":{\"is\":\"begin\"},\"reply\":{\"is\":\"txn\",\"txn\":1}},{\"ask\":{\"is\":\"commit\",\"ops\":[{\"content\":\"\",\"file\":\"a\",\"grants\":[{\"content\":\"\",\"mode\":\"shared\",\"number\":1,\"server\":1,\"version\":0},{\"content\":\"\",\"mode\":\"shared\",\"number\":1,\"server\":2,\"version\":0}],\"kind\":\"read\",\"version\":0}],\"txn\":1,\"votes\":[{\"held\":[{\"file\":\"a\",\"mode\":\"shared\",\"since\":1}],\"number\":2,\"server\":1,\"writes\":[]},{\"held\":[{\"file\":\"a\",\"mode\":\"shared\",\"since\":1}],\"number\":1,\"server\":2,\"writes\":[]}]},\"reply\":{\"code\":23,\"is\":\"refused\",\"rule\":3}}],\"format\":2,\"levels\":2,\"limits\":{\"entries\":1000000,\"files\":1000,\"ops\":64},\"servers\":[[],[],[]],\"view\":[]}\n",
    // Server 1 voted for a write that there is not.
    "{\"desk\":[{\"ask\":{\"is\":\"begin\"},\"reply\":{\"is\":\"txn\",\"txn\":1}},{\"ask\":{\"is\":\"commit\",\"ops\":[{\"content\":\"\",\"file\":\"a\",\"grants\":[{\"content\":\"\",\"mode\":\"shared\",\"number\":1,\"server\":1,\"version\":0},{\"content\":\"\",\"mode\":\"shared\",\"number\":1,\"server\":2,\"version\":0}],\"kind\":\"read\",\"version\":0}],\"txn\":1,\"votes\":[{\"held\":[{\"file\":\"a\",\"mode\":\"shared\",\"since\":1}],\"number\":2,\"server\":1,\"writes\":[{\"content\":\"78\",\"file\":\"a\",\"version\":1}]},{\"held\":[{\"file\":\"a\",\"mode\":\"shared\",\"since\":1}],\"number\":2,\"server\":2,\"writes\":[]}]},\"reply\":{\"code\":23,\"is\":\"refused\",\"rule\":4}}],\"format\":2,\"levels\":2,\"limits\":{\"entries\":1000000,\"files\":1000,\"ops\":64},\"servers\":[[],[],[]],\"view\":[]}\n",
    // The read has a version that nobody granted.
    "{\"desk\":[{\"ask\":{\"is\":\"begin\"},\"reply\":{\"is\":\"txn\",\"txn\":1}},{\"ask\":{\"is\":\"commit\",\"ops\":[{\"content\":\"\",\"file\":\"a\",\"grants\":[{\"content\":\"\",\"mode\":\"shared\",\"number\":1,\"server\":1,\"version\":0},{\"content\":\"\",\"mode\":\"shared\",\"number\":1,\"server\":2,\"version\":0}],\"kind\":\"read\",\"version\":1}],\"txn\":1,\"votes\":[{\"held\":[{\"file\":\"a\",\"mode\":\"shared\",\"since\":1}],\"number\":2,\"server\":1,\"writes\":[]},{\"held\":[{\"file\":\"a\",\"mode\":\"shared\",\"since\":1}],\"number\":2,\"server\":2,\"writes\":[]}]},\"reply\":{\"code\":23,\"is\":\"refused\",\"rule\":5}}],\"format\":2,\"levels\":2,\"limits\":{\"entries\":1000000,\"files\":1000,\"ops\":64},\"servers\":[[],[],[]],\"view\":[]}\n",
    // There is nothing to commit.
    "{\"desk\":[{\"ask\":{\"is\":\"begin\"},\"reply\":{\"is\":\"txn\",\"txn\":1}},{\"ask\":{\"is\":\"commit\",\"ops\":[],\"txn\":1,\"votes\":[]},\"reply\":{\"code\":23,\"is\":\"refused\",\"rule\":6}}],\"format\":2,\"levels\":2,\"limits\":{\"entries\":1000000,\"files\":1000,\"ops\":64},\"servers\":[[],[],[]],\"view\":[]}\n",
    // The transaction was not begun.
    "{\"desk\":[{\"ask\":{\"is\":\"begin\"},\"reply\":{\"is\":\"txn\",\"txn\":1}},{\"ask\":{\"is\":\"commit\",\"ops\":[{\"content\":\"\",\"file\":\"a\",\"grants\":[{\"content\":\"\",\"mode\":\"shared\",\"number\":1,\"server\":1,\"version\":0},{\"content\":\"\",\"mode\":\"shared\",\"number\":1,\"server\":2,\"version\":0}],\"kind\":\"read\",\"version\":0}],\"txn\":2,\"votes\":[{\"held\":[{\"file\":\"a\",\"mode\":\"shared\",\"since\":1}],\"number\":2,\"server\":1,\"writes\":[]},{\"held\":[{\"file\":\"a\",\"mode\":\"shared\",\"since\":1}],\"number\":2,\"server\":2,\"writes\":[]}]},\"reply\":{\"code\":21,\"is\":\"refused\"}}],\"format\":2,\"levels\":2,\"limits\":{\"entries\":1000000,\"files\":1000,\"ops\":64},\"servers\":[[],[],[]],\"view\":[]}\n",
    // Good evidence, and the same asked again.
    "{\"desk\":[{\"ask\":{\"is\":\"begin\"},\"reply\":{\"is\":\"txn\",\"txn\":1}},{\"ask\":{\"is\":\"commit\",\"ops\":[{\"content\":\"\",\"file\":\"a\",\"grants\":[{\"content\":\"\",\"mode\":\"shared\",\"number\":1,\"server\":1,\"version\":0},{\"content\":\"\",\"mode\":\"shared\",\"number\":1,\"server\":2,\"version\":0}],\"kind\":\"read\",\"version\":0}],\"txn\":1,\"votes\":[{\"held\":[{\"file\":\"a\",\"mode\":\"shared\",\"since\":1}],\"number\":2,\"server\":1,\"writes\":[]},{\"held\":[{\"file\":\"a\",\"mode\":\"shared\",\"since\":1}],\"number\":2,\"server\":2,\"writes\":[]}]},\"reply\":{\"is\":\"committed\",\"serial\":1}},{\"ask\":{\"is\":\"commit\",\"ops\":[{\"content\":\"\",\"file\":\"a\",\"grants\":[{\"content\":\"\",\"mode\":\"shared\",\"number\":1,\"server\":1,\"version\":0},{\"content\":\"\",\"mode\":\"shared\",\"number\":1,\"server\":2,\"version\":0}],\"kind\":\"read\",\"version\":0}],\"txn\":1,\"votes\":[{\"held\":[{\"file\":\"a\",\"mode\":\"shared\",\"since\":1}],\"number\":2,\"server\":1,\"writes\":[]},{\"held\":[{\"file\":\"a\",\"mode\":\"shared\",\"since\":1}],\"number\":2,\"server\":2,\"writes\":[]}]},\"reply\":{\"code\":22,\"is\":\"refused\",\"verdict\":{\"is\":\"commit\",\"votes\":[{\"number\":2,\"server\":1},{\"number\":2,\"server\":2}]}}}],\"format\":2,\"levels\":2,\"limits\":{\"entries\":1000000,\"files\":1000,\"ops\":64},\"servers\":[[],[],[]],\"view\":[]}\n",
];

/// Whether the desk gives the reply of the entry.
fn answers(alloc: Global, desk: &mut Desk, entry: &DeskEntry) -> bool {
    if desk.begun() > 1 {
        return false;
    }
    match desk.answer(alloc, &entry.ask) {
        Ok(reply) => {
            let is_same = reply.is_same(&entry.reply);
            forget(reply);
            is_same
        }
        Err(_) => false,
    }
}

fn answers_all(alloc: Global, desk: &mut Desk, entries: &[DeskEntry]) -> bool {
    for entry in entries {
        if !answers(alloc, desk, entry) {
            return false;
        }
    }
    true
}

/// Whether a new desk gives all replies of the desk's journal.
fn is_judged(alloc: Global, journals: &Journals) -> bool {
    let mut desk = Desk::new(alloc, journals.levels(), journals.limits());
    let is_judged = answers_all(alloc, &mut desk, journals.desk());
    forget(desk);
    is_judged
}

fn is_case_judged(alloc: Global, file: &str) -> bool {
    match journals_of(alloc, file) {
        Some(journals) => {
            let is_judged = is_judged(alloc, &journals);
            forget(journals);
            is_judged
        }
        None => false,
    }
}

#[test]
fn each_change_of_good_evidence_is_named_by_its_rule(rt: HostRuntime) {
    for file in CASES.iter() {
        assert!(rt; is_case_judged(rt.alloc(), file));
    }
}
