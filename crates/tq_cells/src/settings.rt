//! Which part a cell is to hold, and how it is asked.

ghost use Rattle.std.specs.Prelude.{◌≡◌, IfOk, OnOk, OnErr};
ghost use Rattle.tq_cells.specs.Passes.{IsThrice};

use std::alloc::Global;
use std::sync::Wait;
use tq_shape::{Answers, Memory};

/// What a part in a cell is to be, as no ask changes it: a server which one, a desk of which limits. And how it is asked.
pub trait Settings<P: Answers> {
    ghost use Rattle.std.specs.Prelude.{IsTrue};

    /// The part is of these settings.
    ghost are_of: { Self → P → Type 0 };

    /// Whether the part is of these settings.
    fn are_of_part(&self, part: &P) -> bool
        ensures { IsTrue result → are_of self.now part.now };

    /// Asks the part under a number, under which it may be asked, and tells its reply three times. Answers an error only
    /// where memory is refused: then the part is as it was.
    fn ask_part<R: Wait>(
        &self,
        rt: &R,
        alloc: Global,
        part: &mut P,
        number: u64,
        ask: &P::Ask,
    ) -> Result<Replies<P::Reply>, Memory>
        requires { P.is_ready part.old number }
        ensures replies { IfOk result (IsThrice (P.reply part.old number ask.now)) }
        ensures after { OnOk result (part.new ≡ P.after part.old number ask.now) }
        ensures err { OnErr result (part.new ≡ part.old) };
}

/// A reply three times: one to enter into the journal, one to keep, and one to hand on.
#[derive(Drop)]
pub struct Replies<R> {
    pub entered: R,
    pub kept: R,
    pub told: R,
}

/// Any part, by its plan.
pub(crate) struct ByPlan;

impl<P: Answers> Settings<P> for ByPlan {
    ghost are_of = { λ _ _. Unit {0} };

    fn are_of_part(&self, _part: &P) -> bool {
        true
    }

    fn ask_part<R: Wait>(
        &self,
        _rt: &R,
        alloc: Global,
        part: &mut P,
        number: u64,
        ask: &P::Ask,
    ) -> Result<Replies<P::Reply>, Memory> {
        ask_by_plan(alloc, part, number, ask)
    }
}

/// Asks the part under a number, under which it may be asked: its plan is made and copied, and then its change. Answers an
/// error only where memory is refused: then the part is as it was.
pub fn ask_by_plan<P: Answers>(
    alloc: Global,
    part: &mut P,
    number: u64,
    ask: &P::Ask,
) -> Result<Replies<P::Reply>, Memory>
    requires { P.is_ready part.old number }
    ensures replies { IfOk result (IsThrice (P.reply part.old number ask.now)) }
    ensures after { OnOk result (part.new ≡ P.after part.old number ask.now) }
    ensures err { OnErr result (part.new ≡ part.old) }
{
    let plan = part.plan(alloc, number, ask)?;
    let kept = P::same_reply(alloc, &plan.reply)?;
    let told = P::same_reply(alloc, &plan.reply)?;
    let entered = plan.reply;
    part.apply(alloc, plan.change)?;
    Ok(Replies {
        entered,
        kept,
        told,
    })
}
