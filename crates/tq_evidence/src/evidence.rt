//! The evidence of a commit, rule by rule. The work is near linear in the evidence: each rule goes through the grants
//! and the votes once, and what it looks up (a server in an op, a file in a vote) it finds by halving,
//! by a table, or among a few.

ghost use Rattle.std.specs.Prelude.{◌≡◌, IfOk};
ghost use Rattle.tq_evidence.specs.Evidence as spec;

mod coverage;
mod held;
mod listed;
mod members;
mod servers;
mod versions;
mod writes;

use crate::{Op, Rule, Vote};
use coverage::are_covered;
use members::{are_exclusive, are_quorums};
use std::alloc::Global;
use tq_shape::{Levels, Memory};
use versions::have_versions;
use writes::have_writes;

/// The first rule that the evidence of a commit fails; `None` where it is good.
pub fn failed_rule(
    alloc: Global,
    levels: Levels,
    ops: &[Op],
    votes: &[Vote],
) -> Result<Option<Rule>, Memory>
    ensures { IfOk result (λ rule. rule ≡ spec.failed_rule levels ops.now votes.now) }
{
    if !are_quorums(alloc, levels, ops)? {
        return Ok(Some(Rule::Quorum));
    }
    if !are_exclusive(ops) {
        return Ok(Some(Rule::Exclusive));
    }
    if !are_covered(alloc, ops, votes)? {
        return Ok(Some(Rule::Covered));
    }
    if !have_writes(alloc, ops, votes)? {
        return Ok(Some(Rule::Writes));
    }
    if !have_versions(ops) {
        return Ok(Some(Rule::Versions));
    }
    if ops.is_empty() {
        return Ok(Some(Rule::SomeOp));
    }
    Ok(None)
}
