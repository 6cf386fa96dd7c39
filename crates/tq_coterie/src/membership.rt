//! Whether numbers are the servers of a quorum or of a blocker.

ghost use Rattle.std.specs.Prelude.{◌<◌, ◌^◌, ◌≡◌, ◌↔◌, IsTrue, Contains, All};
ghost use Rattle.tq_shape.specs.{Tree.IsServer, ServerSet.Ascends};
ghost use Rattle.tq_coterie.specs.Coterie.{coterie};
ghost use Rattle.tq_coterie.specs.Coterie as spec;

use crate::holding::Overlap;
use crate::marks::part_under_root;
use tq_shape::Levels;

/// Whether the numbers are, in this order, the servers of a quorum. It takes no memory.
pub fn is_quorum(levels: Levels, numbers: &[u64]) -> bool
    ensures { result ≡ spec.is_quorum levels numbers.now }
{
    is_member(levels, numbers)
}

/// Whether the numbers are a member of the coterie, in ascending order.
pub(crate) fn is_member(levels: Levels, numbers: &[u64]) -> bool
    ensures member { IsTrue result ↔ Contains (coterie levels) numbers.now }
    ensures servers { IsTrue result → All (IsServer levels) numbers.now }
    ensures ascending { IsTrue result → Ascends 0 numbers.now }
{
    let root = levels.root();
    // Most quorums are a path of the tree: that is found out sooner.
    if is_path(levels, numbers) {
        return true;
    }
    if !is_ascending(numbers) {
        return false;
    }
    if !is_within(levels, numbers) {
        return false;
    }
    matches!(part_under_root(root, numbers), Overlap::Member)
}

/// Whether the numbers are a path from the root down to a leaf, each but the first a side of the one before.
fn is_path(levels: Levels, numbers: &[u64]) -> bool
    ensures { IsTrue result → Contains (coterie levels) numbers.now }
{
    let Some((first, below)) = numbers.split_first() else {
        return false;
    };
    if *first != 1 || numbers.len() != levels.count() as usize {
        return false;
    }
    let mut top = 1;
    for number in below {
        if *number / 2 != top {
            return false;
        }
        top = *number;
    }
    true
}

/// Whether no number is above those of the tree.
fn is_within(levels: Levels, numbers: &[u64]) -> bool
    ensures { IsTrue result ↔ All (λ number. number < 2 ^ levels) numbers.now }
{
    let greatest = levels.servers();
    numbers.iter().all(|number| *number <= greatest)
}

/// Whether the numbers ascend, the first from above 0.
fn is_ascending(numbers: &[u64]) -> bool
    ensures { IsTrue result ↔ Ascends 0 numbers.now }
{
    let mut last = 0;
    for number in numbers {
        if *number <= last {
            return false;
        }
        last = *number;
    }
    true
}
