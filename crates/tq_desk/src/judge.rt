//! Who judges the evidence of a commit: the rules, or a proof.

ghost use Rattle.std.specs.Prelude.{◌≡◌, IfOk};
ghost use Rattle.tq_evidence.specs.Evidence as spec;

use crate::DeskAsk;
use std::alloc::Global;
use tq_evidence::{Op, Rule, Vote, failed_rule};
use tq_shape::{Levels, Memory};

/// A judge of the evidence of commits.
pub trait Judge {
    ghost use Rattle.std.specs.Prelude.{ℕ};
    ghost use Rattle.tq_desk.specs.declared.ask.DeskAsk.{DeskAsk};

    /// The asks that may come before it, in a tree of so many levels.
    ghost takes: { ℕ → DeskAsk → Type 0 };

    /// The first rule that the evidence of a commit fails; `None` where it is good.
    fn failed_rule(
        alloc: Global,
        levels: Levels,
        txn: u64,
        ops: &[Op],
        votes: &[Vote],
    ) -> Result<Option<Rule>, Memory>
        requires { takes levels (DeskAsk.Commit txn ops.now votes.now) }
        ensures { IfOk result (λ rule. rule ≡ spec.failed_rule levels ops.now votes.now) };
}

/// The rules, by which any evidence is judged.
pub struct ByRules;

impl Judge for ByRules {
    ghost takes = { λ levels ask. Unit {0} };

    fn failed_rule(
        alloc: Global,
        levels: Levels,
        _txn: u64,
        ops: &[Op],
        votes: &[Vote],
    ) -> Result<Option<Rule>, Memory> {
        failed_rule(alloc, levels, ops, votes)
    }
}

/// The caller's proof that the evidence is good: nothing is looked at.
pub struct ByProof;

impl Judge for ByProof {
    ghost use Rattle.tq_desk.specs.DeskStep.{HasGoodEvidence};

    ghost takes = { HasGoodEvidence };

    fn failed_rule(
        _alloc: Global,
        _levels: Levels,
        _txn: u64,
        _ops: &[Op],
        _votes: &[Vote],
    ) -> Result<Option<Rule>, Memory> {
        Ok(None)
    }
}
