//! The parts of a server's replies: locks, votes, refusals.

ghost use Rattle.std.specs.Prelude.{◌≡◌, refl};
ghost use Rattle.tq_json_read.specs.Slots.{made_by};
ghost use Rattle.tq_json_read.specs.Locking as spec;

use crate::entry::Plan;
use crate::object::take_object;
use crate::parts::{FromReader, Taken};
use crate::scalars::Word;
use std::alloc::Global;
use tq_asks::{CitedVote, HeldLock, Verdict};
use tq_json::Reader;
use tq_locks::Mode;
use tq_shape::SharedSeq;
use tq_store::{Content, FileName, Write};

const HELD_LOCK_NAMES: &[&str] = &["file", "mode", "since"];

impl<'a> FromReader<'a> for HeldLock {
    ghost at = { λ plan. made_by spec.held_lock };

    ghost none = { λ plan. refl };

    fn read(alloc: Global, plan: &Plan, reader: &mut Reader<'a>, depth: usize) -> Taken<HeldLock> {
        let (file, (mode, (since, ()))) = take_object(alloc, plan, HELD_LOCK_NAMES, reader, depth)?;
        Ok(held_lock_from(file, mode, since))
    }
}

fn held_lock_from(
    file: Option<FileName>,
    mode: Option<Mode>,
    since: Option<u64>,
) -> Option<HeldLock>
    ensures { result ≡ spec.held_lock_from file mode since }
{
    let file = file?;
    let mode = mode?;
    let since = since?;
    Some(HeldLock { file, mode, since })
}

const WRITE_NAMES: &[&str] = &["content", "file", "version"];

impl<'a> FromReader<'a> for Write {
    ghost at = { λ plan. made_by (spec.write plan.format) };

    ghost none = { λ plan. refl };

    fn read(alloc: Global, plan: &Plan, reader: &mut Reader<'a>, depth: usize) -> Taken<Write> {
        let (content, (file, (version, ()))) = take_object(
            alloc,
            plan,
            WRITE_NAMES,
            reader,
            depth,
        )?;
        Ok(write_from(content, file, version))
    }
}

fn write_from(
    content: Option<Content>,
    file: Option<FileName>,
    version: Option<u64>,
) -> Option<Write>
    ensures { result ≡ spec.write_from content file version }
{
    let content = content?;
    let file = file?;
    let version = version?;
    Some(Write {
        content,
        file,
        version,
    })
}

const CITED_VOTE_NAMES: &[&str] = &["number", "server"];

impl<'a> FromReader<'a> for CitedVote {
    ghost at = { λ plan. made_by spec.citation };

    ghost none = { λ plan. refl };

    fn read(alloc: Global, plan: &Plan, reader: &mut Reader<'a>, depth: usize) -> Taken<CitedVote> {
        let (number, (server, ())) = take_object(alloc, plan, CITED_VOTE_NAMES, reader, depth)?;
        Ok(citation_from(number, server))
    }
}

fn citation_from(number: Option<u64>, server: Option<u64>) -> Option<CitedVote>
    ensures { result ≡ spec.citation_from number server }
{
    let number = number?;
    let server = server?;
    Some(CitedVote { number, server })
}

const VERDICT_NAMES: &[&str] = &["is", "votes"];

impl<'a> FromReader<'a> for Verdict {
    ghost at = { λ plan. made_by spec.verdict };

    ghost none = { λ plan. refl };

    fn read(alloc: Global, plan: &Plan, reader: &mut Reader<'a>, depth: usize) -> Taken<Verdict> {
        let (kind, (votes, ())) = take_object(alloc, plan, VERDICT_NAMES, reader, depth)?;
        Ok(verdict_by(kind, votes))
    }
}

fn verdict_by(kind: Option<Word<'_>>, votes: Option<SharedSeq<CitedVote>>) -> Option<Verdict>
    ensures { result ≡ spec.verdict_by kind.entry votes }
{
    let kind = kind?;
    if kind.is("abort") {
        return Some(Verdict::Abort);
    }
    if kind.is("commit") {
        let votes = votes?;
        return Some(Verdict::Commit { votes });
    }
    None
}
