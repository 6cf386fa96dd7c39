//! The two costs of a server, and what is set anew at one.

ghost use Rattle.std.specs.Prelude.{◌≡◌};
ghost use Rattle.tq_live.specs.View as spec;
ghost use Rattle.tq_live.specs.Costs.{even_costs};

/// What a server costs in a quorum that is read from, and in one that is written to.
#[derive(Clone, Copy, Debug, PartialEq, Eq)]
pub struct Costs {
    pub read: u64,
    pub write: u64,
}

impl Costs {
    /// The same for both.
    pub(crate) fn even(cost: u64) -> Costs
        ensures { result ≡ even_costs cost }
    {
        Costs {
            read: cost,
            write: cost,
        }
    }
}

/// A cost that is not from 1 to 1,000,000.
#[derive(Clone, Copy, Debug, PartialEq, Eq)]
pub struct BadCost;

/// The greatest cost of a server.
pub const MOST_COST: u64 = 1_000_000;

/// Whether a server may have the cost.
pub fn is_cost(cost: u64) -> bool
    ensures { result ≡ spec.is_cost cost }
{
    1 <= cost && cost <= MOST_COST
}

/// Whether a server may have both costs.
pub(crate) fn are_costs(read: u64, write: u64) -> bool
    ensures { result ≡ spec.are_costs read write }
{
    is_cost(read) && is_cost(write)
}

/// What is set anew at a server.
#[derive(Clone, Copy, Debug, PartialEq, Eq)]
pub(crate) enum Setting {
    Cost(Costs),
    Mark(bool),
}
