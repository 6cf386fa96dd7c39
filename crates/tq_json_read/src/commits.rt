//! The parts of a commit's evidence: grants, operations, votes.

ghost use Rattle.std.specs.Prelude.{◌≡◌, refl};
ghost use Rattle.tq_json_read.specs.Slots.{made_by};
ghost use Rattle.tq_json_read.specs.Desks as spec;

use crate::entry::Plan;
use crate::object::take_object;
use crate::parts::{FromReader, Taken};
use std::alloc::Global;
use tq_asks::HeldLock;
use tq_evidence::{Grant, Op, OpKind, Shareable, Vote};
use tq_json::Reader;
use tq_locks::Mode;
use tq_shape::SharedSeq;
use tq_store::{Content, FileName, Write};

const GRANT_NAMES: &[&str] = &["content", "mode", "number", "server", "version"];

impl<'a> FromReader<'a> for Grant {
    ghost at = { λ plan. made_by (spec.grant plan.format) };

    ghost none = { λ plan. refl };

    fn read(alloc: Global, plan: &Plan, reader: &mut Reader<'a>, depth: usize) -> Taken<Grant> {
        let (content, (mode, (number, (server, (version, ()))))) = take_object(
            alloc,
            plan,
            GRANT_NAMES,
            reader,
            depth,
        )?;
        Ok(grant_from(content, mode, number, server, version))
    }
}

fn grant_from(
    content: Option<Content>,
    mode: Option<Mode>,
    number: Option<u64>,
    server: Option<u64>,
    version: Option<u64>,
) -> Option<Grant>
    ensures { result ≡ spec.grant_from content mode number server version }
{
    let mode = mode?;
    let number = number?;
    let server = server?;
    let version = version?;
    let content = content?;
    Some(Grant {
        mode,
        number,
        server,
        version,
        content,
    })
}

const OP_NAMES: &[&str] = &["content", "file", "grants", "kind", "version"];

impl<'a> FromReader<'a> for Op {
    ghost at = { λ plan. made_by (spec.op plan.format) };

    ghost none = { λ plan. refl };

    fn read(alloc: Global, plan: &Plan, reader: &mut Reader<'a>, depth: usize) -> Taken<Op> {
        let (content, (file, (grants, (kind, (version, ()))))) = take_object(
            alloc, plan, OP_NAMES, reader, depth,
        )?;
        Ok(op_from(content, file, grants, kind, version))
    }
}

fn op_from(
    content: Option<Content>,
    file: Option<FileName>,
    grants: Option<Shareable<Grant>>,
    kind: Option<OpKind>,
    version: Option<u64>,
) -> Option<Op>
    ensures { result ≡ spec.op_from content file grants kind version }
{
    let file = file?;
    let kind = kind?;
    let version = version?;
    let content = content?;
    let grants = grants?;
    Some(Op {
        file,
        kind,
        version,
        content,
        grants,
    })
}

const VOTE_NAMES: &[&str] = &["held", "number", "server", "writes"];

impl<'a> FromReader<'a> for Vote {
    ghost at = { λ plan. made_by (spec.vote plan.format) };

    ghost none = { λ plan. refl };

    fn read(alloc: Global, plan: &Plan, reader: &mut Reader<'a>, depth: usize) -> Taken<Vote> {
        let (held, (number, (server, (writes, ())))) = take_object(
            alloc, plan, VOTE_NAMES, reader, depth,
        )?;
        Ok(vote_from(held, number, server, writes))
    }
}

fn vote_from(
    held: Option<SharedSeq<HeldLock>>,
    number: Option<u64>,
    server: Option<u64>,
    writes: Option<SharedSeq<Write>>,
) -> Option<Vote>
    ensures { result ≡ spec.vote_from held number server writes }
{
    let number = number?;
    let server = server?;
    let held = held?;
    let writes = writes?;
    Some(Vote {
        number,
        server,
        held,
        writes,
    })
}
