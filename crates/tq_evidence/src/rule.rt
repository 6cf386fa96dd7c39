//! The rules of evidence, in the order in which they are tested.

ghost use Rattle.std.specs.Prelude.{◌≡◌};
ghost use Rattle.tq_evidence.specs.Evidence as spec;

use tq_shape::ExactClone;

/// A rule that the evidence of a commit has to keep. They are tested in this order.
#[derive(Debug, Clone, Copy, PartialEq, Eq)]
pub enum Rule {
    /// The servers of each operation ascend and are a quorum.
    Quorum,
    /// Each grant of a write is exclusive.
    Exclusive,
    /// The votes ascend by server, are those of the operations' servers, and cover each grant.
    Covered,
    /// Each vote has the writes of the operations at its server.
    Writes,
    /// The operations ascend by file, and have their versions.
    Versions,
    /// There is an operation.
    SomeOp,
}

impl Rule {
    /// Its number, from 1 to 6.
    pub fn number(self) -> u64
        ensures { result ≡ spec.rule_number self }
    {
        match self {
            Rule::Quorum => 1,
            Rule::Exclusive => 2,
            Rule::Covered => 3,
            Rule::Writes => 4,
            Rule::Versions => 5,
            Rule::SomeOp => 6,
        }
    }

    /// The rule of that number, if there is one.
    pub fn at(number: u64) -> Option<Rule>
        ensures { result ≡ spec.rule_at number }
    {
        match number {
            1 => Some(Rule::Quorum),
            2 => Some(Rule::Exclusive),
            3 => Some(Rule::Covered),
            4 => Some(Rule::Writes),
            5 => Some(Rule::Versions),
            6 => Some(Rule::SomeOp),
            _ => None,
        }
    }
}

impl ExactClone for Rule {
    ghost use Rattle.std.proofs.Common.{rules};

    ghost clones = { Prim.search rules };
}
