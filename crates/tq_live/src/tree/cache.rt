//! What a server keeps of its subtree, with the count of caches written.

ghost use Rattle.std.specs.Prelude.{◌≡◌, ◌+◌, ◌*◌, ◌^◌, ◌<◌, ◌≤◌, ◌↔◌, IfSome, Some, None, cond, IsTrue};
ghost use Rattle.tq_live.specs.{Subtree.{Over, leaves}, Costs.AreLow};
ghost use Rattle.tq_live.specs.Kept.{cache_of, column_over, least_kept, form_kept, blocker_weight, IsLight, form_of, subtree_of};
ghost use Rattle.tq_live.specs.Kept as spec;

use crate::costs::Costs;
use crate::least::SearchFor;
use crate::node::{Below, Sides};
use crate::purpose::Purpose;
use crate::weight::{Form, Weight};
use std::marker::Model;
use tq_shape::Levels;

/// What a server keeps of its subtree. A new one, too, is written by `repair` alone, which counts it.
#[derive(Debug, Drop)]
pub(crate) struct Cache {
    /// The cost of the first quorum of least cost to read from, among those that are up.
    read: Weight,
    /// The same to write to.
    write: Weight,
    /// The form of the quorum to read from.
    read_form: Form,
    /// The form of the quorum to write to.
    write_form: Form,
    /// The form of the first member that is all down.
    blocker: Form,
}

/// What it keeps for one purpose.
#[derive(Clone, Copy, Debug)]
struct Column {
    least: Weight,
    form: Form,
}

/// So many caches were written. It is raised by `repair` alone, and a new one stands in a new [`Turns`].
#[derive(Debug, Drop)]
pub(crate) struct Count {
    caches: u64,
}

/// How many caches were written.
#[derive(Debug, Drop)]
pub struct Turns {
    pub(super) count: Count,
}

impl Model for Count {
    ghost use Rattle.std.specs.Prelude.{ℕ};

    ghost Value = { ℕ };

    ghost view = { λ count. count.caches };

    ghost inverse = { λ caches. record { caches = caches } };
}

impl Model for Turns {
    ghost use Rattle.std.specs.Prelude.{ℕ};

    ghost Value = { ℕ };

    ghost view = { λ turns. turns.count };

    ghost inverse = { λ count. record { count = count } };
}

impl Turns {
    /// No cache yet.
    pub fn new() -> Turns
        ensures { result ≡ 0 }
    {
        Turns {
            count: Count { caches: 0 },
        }
    }

    /// How many caches were written since.
    pub fn count(&self) -> u64
        ensures { result ≡ self.now }
    {
        self.count.caches
    }

    /// Whether one more for each level can be counted.
    pub fn room(&self, levels: Levels) -> bool
        ensures { IsTrue result ↔ (self.now + levels < 2 ^ 64) }
    {
        u64::from(levels.count()) <= u64::MAX - self.count.caches
    }
}

impl Cache {
    /// A new one: that of a server of those costs and that mark, as `repair` writes and counts it.
    pub(crate) fn of(costs: Costs, up: bool, below: &Below, count: &mut Count) -> Cache
        requires cost { AreLow costs }
        requires small { leaves (subtree_of costs up below.now) ≤ 512 }
        requires room { count.old + 1 < 2 ^ 64 }
        ensures cache { result ≡ cache_of (subtree_of costs up below.now) }
        ensures bounded { IsLight (subtree_of costs up below.now) }
        ensures counted { count.new ≡ count.old + 1 }
    {
        let mut cache = Cache {
            read: Weight::no_weight(),
            write: Weight::no_weight(),
            read_form: Form::WithLeft,
            write_form: Form::WithLeft,
            blocker: Form::WithLeft,
        };
        repair(&mut cache, costs, up, below, count);
        cache
    }

    /// The cost of the first quorum of least cost for the purpose.
    pub(crate) fn least(&self, purpose: Purpose) -> Weight
        ensures { result ≡ least_kept purpose self.now }
    {
        match purpose {
            Purpose::Read => self.read,
            Purpose::Write => self.write,
        }
    }

    /// The form of the first least member.
    pub(crate) fn form(&self, sought: SearchFor) -> Form
        ensures { result ≡ form_kept sought self.now }
    {
        match sought {
            SearchFor::Quorum(purpose) => match purpose {
                Purpose::Read => self.read_form,
                Purpose::Write => self.write_form,
            },
            SearchFor::Blocker => self.blocker,
        }
    }
}

/// Writes the cache of a node from its costs, its mark and the caches of its sides, and counts it. Nothing else writes one or
/// raises a count.
pub(crate) fn repair(cache: &mut Cache, costs: Costs, up: bool, below: &Below, count: &mut Count)
    requires cost { AreLow costs }
    requires small { leaves (subtree_of costs up below.now) ≤ 512 }
    requires room { count.old + 1 < 2 ^ 64 }
    ensures cache { cache.new ≡ cache_of (subtree_of costs up below.now) }
    ensures bounded { IsLight (subtree_of costs up below.now) }
    ensures counted { count.new ≡ count.old + 1 }
{
    *cache = match below {
        Below::Nothing => Cache {
            read: weight(costs.read, up),
            write: weight(costs.write, up),
            read_form: Form::WithLeft,
            write_form: Form::WithLeft,
            blocker: Form::WithLeft,
        },
        Below::Over(sides) => over(costs, up, sides),
    };
    count.caches += 1;
}

/// What a server of those costs and that mark keeps, from the caches of its sides.
fn over(costs: Costs, up: bool, sides: &Sides) -> Cache
    requires cost { AreLow costs }
    ensures cache { result ≡ cache_of (Over costs up sides.now.left sides.now.right) }
    ensures bounded { IsLight (Over costs up sides.now.left sides.now.right) }
{
    let left = sides.left.least(Purpose::Read);
    let right = sides.right.least(Purpose::Read);
    let read = column_of(weight(costs.read, up), left, right);
    let write_left = sides.left.least(Purpose::Write);
    let write_right = sides.right.least(Purpose::Write);
    let write = column_of(weight(costs.write, up), write_left, write_right);
    let blocker = blocker_form(up, left.is_there(), right.is_there());
    Cache {
        read: read.least,
        write: write.least,
        read_form: read.form,
        write_form: write.form,
        blocker,
    }
}

/// What a server of that weight keeps for one purpose, from the weights of its sides. Which of them is less, and which are
/// there, is as good as random, so values are chosen and no way is taken.
fn column_of(here: Weight, left: Weight, right: Weight) -> Column
    requires here { IfSome here (λ w. w < 2 ^ 62) }
    requires left { IfSome left (λ w. w < 2 ^ 62) }
    requires right { IfSome right (λ w. w < 2 ^ 62) }
    ensures { result ≡ column_over here left right }
{
    let goes_right = right.is_less(left);
    let side = if goes_right { right } else { left };
    let one_side = here.with(side);
    let both = left.with(right);
    let takes_both = both.is_less(one_side);
    let least = if takes_both { both } else { one_side };
    let form = form_taken(goes_right, takes_both);
    Column { least, form }
}

/// The form that is taken where the side that is better is the right one or not, and both sides are better than that or not.
fn form_taken(goes_right: bool, takes_both: bool) -> Form
    ensures { result ≡ spec.form_taken goes_right takes_both }
{
    let one_side = if goes_right {
        Form::WithRight
    } else {
        Form::WithLeft
    };
    if takes_both {
        Form::BothSides
    } else {
        one_side
    }
}

/// The form of the first member that is all down, from whether a quorum is up at the top and in its sides.
fn blocker_form(here: bool, left: bool, right: bool) -> Form
    ensures { result ≡ form_of (blocker_weight here) (blocker_weight left) (blocker_weight right) }
{
    if right {
        return Form::WithLeft;
    }
    if left {
        return Form::WithRight;
    }
    if here {
        Form::BothSides
    } else {
        Form::WithLeft
    }
}

/// The weight of a server, if it may be taken.
fn weight(cost: u64, up: bool) -> Weight
    requires { cost ≤ 1000000 }
    ensures value { result ≡ cond up (Some cost) None }
    ensures bounded { IfSome result (λ w. w ≤ 1000000) }
{
    if up {
        Weight::of(cost)
    } else {
        Weight::no_weight()
    }
}
