//! Rule 5: the ops ascend by file, a read before a write and one of each at most, and have their versions.

ghost use Rattle.std.specs.Prelude.{◌≡◌, ◌+◌, ◌==◌, Some};
ghost use Rattle.tq_evidence.specs.Evidence as spec;

use crate::{Grant, Op, OpKind, greatest_version, newest};

pub(crate) fn have_versions(ops: &[Op]) -> bool
    ensures { result ≡ spec.have_versions ops.now }
{
    ops_rise(ops) && are_versions(ops)
}

fn ops_rise(ops: &[Op]) -> bool
    ensures { result ≡ spec.ops_rise ops.now }
{
    match ops {
        [] => true,
        [_] => true,
        [first, second, ..] => stands_before(first, second) && ops_rise(&ops[1..]),
    }
}

fn stands_before(first: &Op, second: &Op) -> bool
    ensures { result ≡ spec.stands_before first.now second.now }
{
    let order = first.file.cmp(&second.file);
    order.is_lt() || (order.is_eq() && !first.is_write() && second.is_write())
}

fn are_versions(ops: &[Op]) -> bool
    ensures { result ≡ spec.are_versions ops.now }
{
    ops.iter().all(|op| has_version(op))
}

fn has_version(op: &Op) -> bool
    ensures { result ≡ spec.has_version op.now }
{
    match op.kind {
        OpKind::Write => is_one_above(op.version, greatest_version(op.grants.as_slice())),
        OpKind::Read => reads_newest(op),
    }
}

fn is_one_above(version: u64, greatest: u64) -> bool
    ensures { result ≡ (version == greatest + 1) }
{
    match greatest.checked_add(1) {
        Some(next) => version == next,
        None => false,
    }
}

fn reads_newest(op: &Op) -> bool
    ensures { result ≡ spec.reads_copy op.now (spec.newest op.now.grants) }
{
    match newest(op.grants.as_slice()) {
        Some(grant) => reads(op, grant),
        None => false,
    }
}

fn reads(op: &Op, grant: &Grant) -> bool
    ensures { result ≡ spec.reads_copy op.now (Some grant.now) }
{
    op.version == grant.version && op.content == grant.content
}
