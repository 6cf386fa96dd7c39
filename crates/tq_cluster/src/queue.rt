//! The calls of a channel, under the rule.

ghost use Rattle.std.specs.{Prelude.{◌≡◌, ◌<◌, true, false, [], IfOk, IfSome, IfNone}, Bool.{OnTrue, OnFalse}};
ghost use Rattle.crossbeam_channel.specs.{Claims.{view, IsSeatAt}, Ends.{sends_on, receives_on}};
ghost use Rattle.tq_cluster.specs.Rule.{cut_off, hand, rejoined, with_put, HasPrefixTaken, HasTaken};

use crate::pass_knowledge::{Cut, InOrder, PassKnowledge, Puts, Takes, Whole};
use crossbeam_channel::{Pass, RuledReceiver, RuledSender, bounded_with};
use std::alloc::{AllocError, Global};
use std::sync::Wait;

pub type Sender<M> = RuledSender<M, PassKnowledge<M>, InOrder>;

pub type Receiver<M> = RuledReceiver<M, PassKnowledge<M>, InOrder>;

pub type Token<M> = Pass<M, PassKnowledge<M>>;

/// A queue with room for that many messages, and the pass that puts. Answers an error only where memory is refused.
pub(crate) fn open<M: Drop>(
    alloc: Global,
    room: usize,
) -> Result<(Sender<M>, Receiver<M>, Token<M>), AllocError>
    requires { 0 < room }
    ensures one { IfOk result (λ r. receives_on r.1 ≡ sends_on r.0) }
    ensures at { IfOk result (λ r. IsSeatAt (sends_on r.0) r.2) }
    ensures whole { IfOk result (λ r. view r.2 ≡ hand 1024 true [] []) }
{
    bounded_with::<M, PassKnowledge<M>, InOrder, Global>(alloc, room)
}

/// Puts a message, and waits for room. False where no one is left who takes: then nothing was put.
pub(crate) fn put<M: Drop, R: Wait>(
    rt: &R,
    sender: &Sender<M>,
    pass: &mut Token<M>,
    message: M,
) -> bool
    requires channel { IsSeatAt (sends_on sender.now) pass.old }
    requires puts { (view pass.old).puts ≡ true }
    ensures channel { IsSeatAt (sends_on sender.now) pass.new × (pass.new.id ≡ pass.old.id) }
    ensures put { OnTrue result (view pass.new ≡ with_put (view pass.old) message) }
    ensures not_put { OnFalse result (view pass.new ≡ view pass.old) }
{
    sender.send_as::<Puts, R>(rt, pass, message).is_ok()
}

/// Takes the message that is next in order, and waits for one. None where the queue is empty and no one is left who puts.
pub(crate) fn take<M: Drop, R: Wait>(
    rt: &R,
    receiver: &Receiver<M>,
    pass: &mut Token<M>,
) -> Option<M>
    requires channel { IsSeatAt (receives_on receiver.now) pass.old }
    requires parts { 0 < (view pass.old).parts }
    ensures channel { IsSeatAt (receives_on receiver.now) pass.new × (pass.new.id ≡ pass.old.id) }
    ensures taken { IfSome result (λ m. HasTaken (view pass.old) m (view pass.new)) }
    ensures none { IfNone result (view pass.new ≡ view pass.old) }
{
    receiver.recv_as::<Takes, R>(rt, pass).ok()
}

/// Cuts off a pass that takes.
pub(crate) fn taker<M: Drop>(sender: &Sender<M>, pass: &mut Token<M>) -> Token<M>
    requires channel { IsSeatAt (sends_on sender.now) pass.old }
    requires parts { 1 < (view pass.old).parts }
    ensures channel { IsSeatAt (sends_on sender.now) pass.new × (pass.new.id ≡ pass.old.id) }
    ensures taker { IsSeatAt (sends_on sender.now) result }
    ensures view { view pass.new ≡ cut_off (view pass.old) }
    ensures taker_view { view result ≡ hand 1 false [] [] }
{
    sender.another::<Cut>(pass)
}

/// Takes in what another pass took.
pub(crate) fn rejoin<M: Drop>(sender: &Sender<M>, pass: &mut Token<M>, other: Token<M>)
    requires channel { IsSeatAt (sends_on sender.now) pass.old }
    requires other { IsSeatAt (sends_on sender.now) other }
    requires parts { 0 < (view pass.old).parts }
    requires takes { (view other).puts ≡ false }
    ensures channel { IsSeatAt (sends_on sender.now) pass.new × (pass.new.id ≡ pass.old.id) }
    ensures view { view pass.new ≡ rejoined (view pass.old) (view other) }
{
    sender.absorb::<Cut>(pass, other)
}

/// What all took together is a prefix of what was put, in order, each once.
pub(crate) fn settle<M: Drop>(sender: &Sender<M>, pass: &mut Token<M>)
    requires channel { IsSeatAt (sends_on sender.now) pass.old }
    requires whole { ((view pass.old).parts ≡ 1024) × ((view pass.old).puts ≡ true) }
    ensures channel { IsSeatAt (sends_on sender.now) pass.new × (pass.new.id ≡ pass.old.id) }
    ensures same { view pass.new ≡ view pass.old }
    ensures prefix { HasPrefixTaken (view pass.old) }
{
    sender.learn_as::<Whole>(pass);
}
