//! Whether a set of servers holds a quorum: how it stands to a subtree.

ghost use Rattle.std.specs.Prelude.{◌≡◌, not};
ghost use Rattle.tq_coterie.specs.Coterie.{complement_of, has, holds_member, members_under};
ghost use Rattle.tq_coterie.specs.Parts.{part_from_sides, member_or_empty};
ghost use Rattle.tq_coterie.specs.Coterie as spec;

use tq_shape::{Levels, ServerId};

/// Whether a quorum has all its servers among these numbers, which may stand in any order: exactly where no quorum
/// has all its servers among the others. It takes no memory.
pub fn holds_quorum(levels: Levels, numbers: &[u64]) -> bool
    ensures held { result ≡ spec.holds_quorum levels (has numbers.now) }
    ensures complement { result ≡ not (spec.holds_quorum levels (complement_of numbers.now)) }
{
    holds_member_under(levels.root(), numbers)
}

/// Whether a member of the subtree over `top` has all its servers among the numbers.
fn holds_member_under(top: ServerId, numbers: &[u64]) -> bool
    ensures { result ≡ holds_member (has numbers.now) (members_under top) }
{
    let chosen = numbers.contains(&top.number());
    match top.sides() {
        Some(sides) => two_of(
            chosen,
            holds_member_under(sides.left, numbers),
            holds_member_under(sides.right, numbers),
        ),
        None => chosen,
    }
}

/// Whether at least two of the three hold.
fn two_of(top: bool, left: bool, right: bool) -> bool
    ensures { result ≡ spec.two_of top left right }
{
    (top && (left || right)) || (left && right)
}

/// How a set of servers stands to a subtree.
#[derive(Clone, Copy, Debug, PartialEq, Eq)]
pub(crate) enum Overlap {
    /// No server of the subtree is in the set.
    Empty,
    /// The servers of the subtree that are in the set are a member of it.
    Member,
    /// They are neither.
    Neither,
}

/// How the set stands to the subtree over a server, from whether it has that server, and whether it has a member of
/// the left side and of the right. It has no others of the sides.
pub(crate) fn part_of_fork(chosen: bool, left: bool, right: bool) -> Overlap
    ensures { result ≡ part_from_sides chosen (member_or_empty left) (member_or_empty right) }
{
    match (chosen, left, right) {
        (true, true, false) | (true, false, true) | (false, true, true) => Overlap::Member,
        (false, false, false) => Overlap::Empty,
        _ => Overlap::Neither,
    }
}
