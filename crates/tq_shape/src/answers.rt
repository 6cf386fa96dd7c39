//! The trait of a part that answers asks, and a reply with the change that belongs to it.

ghost use Rattle.std.specs.Prelude.{◌≡◌, ◌+◌, ℕ, IfOk, OnOk, OnErr};

use crate::Memory;
use std::alloc::Global;

/// A part that answers asks one after another, each under a number. An ask is first planned, while nothing changes,
/// and then its change is applied; the laws say that both together lead where the ask does.
pub trait Answers: Drop {
    /// What the part may be asked.
    type Ask: Drop;

    /// What it replies.
    type Reply: Drop;

    /// What an ask changes, with all that is kept of it.
    type Change: Drop;

    /// The part of the same settings that was asked nothing.
    ghost opening: { Self → Self };

    /// The part may be asked under this number.
    ghost is_ready: { Self → ℕ → Type 0 };

    /// The reply to an ask under a number.
    ghost reply: { Self → ℕ → Self.Ask → Self.Reply };

    /// The part after it.
    ghost after: { Self → ℕ → Self.Ask → Self };

    /// What it is to change.
    ghost change: { Self → ℕ → Self.Ask → Self.Change };

    /// The change may be made.
    ghost fits: { Self → Self.Change → Type 0 };

    /// The part with the change made.
    ghost changed: { Self → Self.Change → Self };

    /// Judges an ask under a number: its reply, and what is to be changed. Nothing changes. Answers an error only
    /// where memory is refused.
    fn plan(
        &self,
        alloc: Global,
        number: u64,
        ask: &Self::Ask,
    ) -> Result<Plan<Self::Reply, Self::Change>, Memory>
        requires { is_ready self.now number }
        ensures { IfOk result (λ plan.
            (plan.reply ≡ reply self.now number ask.now)
            × (plan.change ≡ change self.now number ask.now)) };

    /// Makes a change that was planned. All room is made before the first step of it: where memory is refused, the
    /// part is as it was.
    fn apply(&mut self, alloc: Global, planned: Self::Change) -> Result<(), Memory>
        requires { fits self.old planned }
        ensures ok { OnOk result (self.new ≡ changed self.old planned) }
        ensures err { OnErr result (self.new ≡ self.old) };

    /// An equal part. Answers an error only where memory is refused.
    fn copy(&self, alloc: Global) -> Result<Self, Memory>
        ensures { IfOk result (λ part. part ≡ self.now) };

    /// An equal ask. Answers an error only where memory is refused.
    fn same_ask(alloc: Global, ask: &Self::Ask) -> Result<Self::Ask, Memory>
        ensures { IfOk result (λ a. a ≡ ask.now) };

    /// An equal reply. Answers an error only where memory is refused.
    fn same_reply(alloc: Global, given: &Self::Reply) -> Result<Self::Reply, Memory>
        ensures { IfOk result (λ r. r ≡ given.now) };

    /// The change that is planned of an ask may be made.
    ghost plan_fits: { (s : Self) (n : ℕ) (a : Self.Ask) → is_ready s n → fits s (change s n a) };

    /// It leads where the ask does.
    ghost plan_leads: { (s : Self) (n : ℕ) (a : Self.Ask) → is_ready s n
        → changed s (change s n a) ≡ after s n a };

    /// A part that was asked nothing may be asked number 1.
    ghost opens_ready: { (s : Self) → is_ready (opening s) 1 };

    /// After an ask it may be asked the number after it.
    ghost stays_ready: { (s : Self) (n : ℕ) (a : Self.Ask) → is_ready s n
        → is_ready (after s n a) (n + 1) };

    /// An ask leaves the settings as they are.
    ghost keeps_settings: { (s : Self) (n : ℕ) (a : Self.Ask) → opening (after s n a) ≡ opening s };
}

/// What a part would do with an ask. It is data alone: nothing changes until the change is applied.
#[derive(Drop)]
pub struct Plan<R, C> {
    /// The reply to the ask.
    pub reply: R,
    /// What is to be changed.
    pub change: C,
}
