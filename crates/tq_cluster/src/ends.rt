//! The two ends of a queue.

ghost use Rattle.std.specs.Prelude.{◌≡◌, ◌<◌, ◌+◌, true, false, [], ◌++◌, IfOk, IfSome, IfNone, OnErr};
ghost use Rattle.std.specs.Bool.{OnTrue, OnFalse};
ghost use Rattle.crossbeam_channel.specs.{Claims.{view, IsSeatAt}, Ends.{sends_on, receives_on}};
ghost use Rattle.tq_cluster.specs.Rule.{hand, HasPrefixTaken, IsCutOff, KeepsMessages, KeepsPartsAndTaken, PutsMore, TakesMore};

use crate::pass_knowledge::{InOrder, PassKnowledge};
use crate::queue::{Receiver, Sender, Token, open, put, rejoin, settle, take, taker};
use std::alloc::{AllocError, Global};
use std::sync::Wait;

/// The end that puts, with its pass. It stands for all 1024 parts of the queue, but for one with each taker that has
/// not come back.
#[derive(Drop)]
pub struct Putter<M: Drop> {
    pub sender: Sender<M>,
    pub receiver: Receiver<M>,
    pub pass: Token<M>,
    pub ghost one: { receives_on receiver ≡ sends_on sender },
    pub ghost at: { IsSeatAt (sends_on sender) pass },
    pub ghost puts: { (view pass).puts ≡ true },
}

/// An end that takes, with its pass: it stands for one part of the queue.
#[derive(Drop)]
pub struct Taker<M: Drop> {
    pub receiver: Receiver<M>,
    pub pass: Token<M>,
    pub ghost at: { IsSeatAt (receives_on receiver) pass },
    pub ghost takes: { (view pass).puts ≡ false },
    pub ghost part: { (view pass).parts ≡ 1 },
}

impl<M: Drop> Taker<M> {
    /// Takes the message that is next in order, at its place among all that were put, and waits for one. None where the
    /// queue is empty and no one is left who puts.
    pub fn take<R: Wait>(&mut self, rt: &R) -> Option<M>
        ensures channel { receives_on self.new.receiver ≡ receives_on self.old.receiver }
        ensures taken { IfSome result (λ m. TakesMore (view self.old.pass) m (view self.new.pass)) }
        ensures none { IfNone result (view self.new.pass ≡ view self.old.pass) }
    {
        take(rt, &self.receiver, &mut self.pass)
    }
}

impl<M: Drop> Putter<M> {
    /// A queue with room for that many messages, into which nothing was put. Answers an error only where memory is
    /// refused.
    pub fn new(alloc: Global, room: usize) -> Result<Putter<M>, AllocError>
        requires { 0 < room }
        ensures { IfOk result (λ p. view p.pass ≡ hand 1024 true [] []) }
    {
        let (sender, receiver, pass) = open(alloc, room)?;
        Ok(Putter {
            sender,
            receiver,
            pass,
        })
    }

    /// Puts a message behind those that were put before, and waits for room. False where no one is left who takes: then
    /// nothing was put.
    pub fn put<R: Wait>(&mut self, rt: &R, message: M) -> bool
        ensures channel { sends_on self.new.sender ≡ sends_on self.old.sender }
        ensures put { OnTrue result (PutsMore (view self.old.pass) message (view self.new.pass)) }
        ensures not_put { OnFalse result ((view self.new.pass).put ≡ (view self.old.pass).put) }
        ensures rest { KeepsPartsAndTaken (view self.old.pass) (view self.new.pass) }
    {
        put(rt, &self.sender, &mut self.pass, message)
    }

    /// One end more that takes: it took nothing yet. Answers an error only where memory is refused, and all is as it was.
    pub fn taker(&mut self) -> Result<Taker<M>, AllocError>
        requires { 1 < (view self.old.pass).parts }
        ensures channel { sends_on self.new.sender ≡ sends_on self.old.sender }
        ensures same { KeepsMessages (view self.old.pass) (view self.new.pass) }
        ensures ok { IfOk result (λ t.
            (receives_on t.receiver ≡ sends_on self.new.sender)
            × IsCutOff (view self.old.pass) (view self.new.pass) (view t.pass)) }
        ensures err { OnErr result (view self.new.pass ≡ view self.old.pass) }
    {
        let receiver = self.receiver.try_clone()?;
        let pass = taker(&self.sender, &mut self.pass);
        Ok(Taker { receiver, pass })
    }

    /// An end that took comes back, and what it took with it.
    pub fn rejoin(&mut self, taker: Taker<M>)
        requires channel { receives_on taker.receiver ≡ sends_on self.old.sender }
        requires parts { 0 < (view self.old.pass).parts }
        ensures channel { sends_on self.new.sender ≡ sends_on self.old.sender }
        ensures put { (view self.new.pass).put ≡ (view self.old.pass).put }
        ensures taken { (view self.new.pass).taken
            ≡ (view self.old.pass).taken ++ (view taker.pass).taken }
        ensures parts { (view self.new.pass).parts ≡ (view self.old.pass).parts + 1 }
    {
        let Taker { receiver: _, pass } = taker;
        rejoin(&self.sender, &mut self.pass, pass);
    }

    /// Where all takers came back: what they took is the first of what was put, in order, each once. This does nothing,
    /// and says so.
    pub fn settle(&mut self)
        requires { (view self.old.pass).parts ≡ 1024 }
        ensures channel { sends_on self.new.sender ≡ sends_on self.old.sender }
        ensures same { view self.new.pass ≡ view self.old.pass }
        ensures prefix { HasPrefixTaken (view self.old.pass) }
    {
        settle(&self.sender, &mut self.pass);
    }
}
