//! What a pass knows of a queue.

use crossbeam_channel::protocol::{Join, Lesson, Outcome, Protocol, Split};
use std::collections::LinkedList;

/// What a pass knows: its parts of the right to know the whole, what it put, if it is the one that puts, and what it
/// took, each with its place among all that was put. No value of it is made.
pub struct PassKnowledge<M> {
    pub parts: u64,
    pub puts: bool,
    pub put: LinkedList<M>,
    pub taken: LinkedList<(u64, M)>,
}

/// What was put is what was taken, in order and each once, and then what the queue holds.
pub struct InOrder;

impl<M> Protocol<M, PassKnowledge<M>> for InOrder {
    ghost use Rattle.std.specs.Prelude.{true, []};
    ghost use Rattle.tq_cluster.specs.Rule.{hand, IsInOrder};

    ghost holds = { IsInOrder };

    ghost first = { hand 1024 true [] [] };
}

/// A pass that takes is cut off.
pub struct Cut;

impl<M> Split<PassKnowledge<M>> for Cut {
    ghost use Rattle.std.specs.Prelude.{false, [], ◌-◌};
    ghost use Rattle.tq_cluster.specs.Rule.{hand};

    ghost left = { λ v. hand (v.parts - 1) v.puts v.put v.taken };

    ghost right = { λ v. hand 1 false [] [] };
}

impl<M> Join<PassKnowledge<M>> for Cut {
    ghost use Rattle.std.specs.Prelude.{false, [], ◌+◌, ◌++◌};
    ghost use Rattle.tq_cluster.specs.Rule.{hand};

    ghost both = { λ v w. hand (v.parts + w.parts) v.puts v.put (v.taken ++ w.taken) };

    ghost spent = { hand 0 false [] [] };
}

/// A message was put.
pub struct Puts;

impl<M> Outcome<M, PassKnowledge<M>> for Puts {
    ghost use Rattle.std.specs.Prelude.{◌≡◌, [], ◌∷◌, ◌++◌};
    ghost use Rattle.tq_cluster.specs.Rule.{hand};

    ghost then = { λ v x w. w ≡ hand v.parts v.puts (v.put ++ x ∷ []) v.taken };
}

impl<M> Lesson<M, PassKnowledge<M>> for Puts {
    ghost fact = { λ v items. Unit {0} };
}

/// A message was taken.
pub struct Takes;

impl<M> Outcome<M, PassKnowledge<M>> for Takes {
    ghost use Rattle.std.specs.Prelude.{◌≡◌, ℕ, [], ◌∷◌, ◌++◌};
    ghost use Rattle.tq_cluster.specs.Rule.{hand};

    ghost then = { λ v x w. (place : ℕ)
        × (w ≡ hand v.parts v.puts v.put (v.taken ++ (place, x) ∷ [])) };
}

impl<M> Lesson<M, PassKnowledge<M>> for Takes {
    ghost fact = { λ v items. Unit {0} };
}

/// What one pass that has all parts learns.
pub struct Whole;

impl<M> Lesson<M, PassKnowledge<M>> for Whole {
    ghost use Rattle.tq_cluster.specs.Rule.{IsPrefixTaken};

    ghost fact = { λ v items. IsPrefixTaken v.put v.taken items };
}
