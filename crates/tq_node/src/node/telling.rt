//! Asks that are answered at once, with no plan of their change, and their replies told twice.
ghost use Rattle.std.specs.Prelude.{◌≡◌, ◌<◌, false, OnOk, OnErr, IfOk};
ghost use Rattle.tq_node.specs.Node as node;
ghost use Rattle.tq_node.specs.Telling.{IsEndTold, IsLockTold, IsTold, IsVoteTold, IsWorkTold, KeepsUntold, ReachesTold};

use super::Node;
use crate::votes::locks_of;
use crate::{CitedVote, NodeAsk, NodeRefusal, NodeReply, Raised, Telling, Verdict, WorkAsk};
use std::alloc::Global;
use tq_intents::SharedWrite;
use tq_locks::{LockOutcome, Mode};
use tq_shape::{Memory, Plan, Shared, SharedSeq};
use tq_store::{Content, FileName, Write};

impl Node {
    /// Answers an ask, of a number above that of the last one answered, as `answer` does, and tells the reply twice, with
    /// the files whose copies this may have raised: no other copy changes, and each of theirs is of the version told or of
    /// a later one. Where memory is wanting the server is as it was.
    // Compiled into its callers: what it tells is long, and is read there in other pieces than it is
    // written in, which waits for each store before it.
    #[inline(always)]
    pub fn tell(&mut self, alloc: Global, number: u64, ask: &NodeAsk) -> Result<Telling, Memory>
        requires { self.old.last < number }
        ensures entered { IfOk result
            (λ telling. telling.entered ≡ node.reply_to_ask self.old ask.now) }
        ensures told { IfOk result (λ telling. telling.told ≡ node.reply_to_ask self.old ask.now) }
        ensures after { OnOk result (self.new ≡ node.server_after self.old number ask.now) }
        ensures raised { IfOk result (KeepsUntold self.old self.new ask.now) }
        ensures reached { IfOk result (ReachesTold self.new ask.now) }
        ensures err { OnErr result (self.new ≡ self.old) }
    {
        match ask {
            NodeAsk::Work(work) => self.tell_work(alloc, number, work),
            NodeAsk::Crash => self.tell_crash(alloc, number),
            NodeAsk::Return => self.tell_return(alloc, number),
            NodeAsk::CrashIn { .. } => self.tell_planned(alloc, number, ask),
        }
    }

    /// Plans the ask and makes the change: a stop in the midst of an ask, which comes seldom.
    fn tell_planned(&mut self, alloc: Global, number: u64, ask: &NodeAsk) -> Result<Telling, Memory>
        requires { self.old.last < number }
        ensures told { IfOk result (IsTold self.old self.new number ask.now) }
        ensures err { OnErr result (self.new ≡ self.old) }
    {
        let plan = self.plan(alloc, number, ask)?;
        let Plan { reply, change } = plan;
        let told = reply.clone()?;
        let raised = Raised::by(alloc, &change.step)?;
        self.apply(alloc, change)?;
        Ok(Telling {
            entered: reply,
            told,
            raised,
        })
    }

    /// Answers the ask to crash.
    // Not compiled into `tell`, whose callers would grow by it: it comes seldom.
    #[inline(never)]
    fn tell_crash(&mut self, alloc: Global, number: u64) -> Result<Telling, Memory>
        requires { self.old.last < number }
        ensures told { IfOk result (IsTold self.old self.new number NodeAsk.Crash) }
        ensures err { OnErr result (self.new ≡ self.old) }
    {
        if self.down {
            return self.tell_refusal(alloc, number, NodeRefusal::AlreadyDown);
        }
        self.crash(number);
        self.note(number);
        Ok(Telling {
            entered: NodeReply::Crashed,
            told: NodeReply::Crashed,
            raised: Raised::Nothing,
        })
    }

    /// Answers the ask to return.
    #[inline(never)]
    fn tell_return(&mut self, alloc: Global, number: u64) -> Result<Telling, Memory>
        requires { self.old.last < number }
        ensures told { IfOk result (IsTold self.old self.new number NodeAsk.Return) }
        ensures err { OnErr result (self.new ≡ self.old) }
    {
        if !self.down {
            return self.tell_refusal(alloc, number, NodeRefusal::AlreadyUp);
        }
        self.come_back(number);
        self.note(number);
        Ok(Telling {
            entered: NodeReply::Returned,
            told: NodeReply::Returned,
            raised: Raised::Nothing,
        })
    }

    fn tell_work(
        &mut self,
        alloc: Global,
        number: u64,
        ask: &Shared<WorkAsk>,
    ) -> Result<Telling, Memory>
        requires { self.old.last < number }
        ensures told { IfOk result (IsWorkTold self.old self.new number ask.now) }
        ensures err { OnErr result (self.new ≡ self.old) }
    {
        if self.down {
            return self.tell_refusal(alloc, number, NodeRefusal::Down);
        }
        match ask.get() {
            WorkAsk::Lock { txn, file, mode } => self.tell_lock(alloc, number, *txn, file, *mode),
            WorkAsk::Prepare { txn, writes } => self.tell_vote(alloc, number, *txn, writes),
            WorkAsk::Decide { txn, verdict, cite } => {
                self.tell_end(alloc, number, *txn, verdict, *cite)
            }
            WorkAsk::Release { txn } => self.tell_release(alloc, number, *txn),
            WorkAsk::Peek { file } => self.tell_copy(number, file),
            WorkAsk::Refresh {
                file,
                version,
                content,
                from,
            } => self.tell_refresh(
                alloc,
                number,
                ask,
                file.get(),
                *version,
                content.get(),
                *from,
            ),
        }
    }

    /// Refuses an ask: nothing changes but the number of the last one. The reply is made before that.
    fn tell_refusal(
        &mut self,
        alloc: Global,
        number: u64,
        reason: NodeRefusal,
    ) -> Result<Telling, Memory>
        requires { self.old.last < number }
        ensures entered { IfOk result (λ telling. telling.entered ≡ NodeReply.Refused reason) }
        ensures told { IfOk result (λ telling. telling.told ≡ NodeReply.Refused reason) }
        ensures after { OnOk result (self.new ≡ node.with_last number self.old) }
        ensures raised { IfOk result (λ telling. telling.raised ≡ Raised.Nothing) }
        ensures err { OnErr result (self.new ≡ self.old) }
    {
        let telling = refusal_telling(alloc, reason)?;
        self.note(number);
        Ok(telling)
    }

    /// Grants a lock, or tells why not.
    fn tell_lock(
        &mut self,
        alloc: Global,
        number: u64,
        txn: u64,
        file: &FileName,
        mode: Mode,
    ) -> Result<Telling, Memory>
        requires rises { self.old.last < number }
        requires up { self.old.state.records.down ≡ false }
        ensures told { IfOk result (IsLockTold self.old self.new number txn file.now mode) }
        ensures err { OnErr result (self.new ≡ self.old) }
    {
        if self.intents.of(txn).is_some() {
            return self.tell_refusal(alloc, number, NodeRefusal::Prepared);
        }
        let copy = self.copies.get(file);
        let version = copy.version;
        let content = copy.content.clone()?;
        let told = copy.content.clone()?;
        let outcome = self.locks.ask(alloc, txn, file, mode, number, version)?;
        if let LockOutcome::Held { by } = outcome {
            return self.tell_refusal(alloc, number, NodeRefusal::Held { by });
        }
        self.note(number);
        Ok(Telling {
            entered: NodeReply::Granted { version, content },
            told: NodeReply::Granted {
                version,
                content: told,
            },
            raised: Raised::Nothing,
        })
    }

    /// Votes for the writes of a transaction, or tells why not.
    fn tell_vote(
        &mut self,
        alloc: Global,
        number: u64,
        txn: u64,
        writes: &SharedSeq<Write>,
    ) -> Result<Telling, Memory>
        requires rises { self.old.last < number }
        requires up { self.old.state.records.down ≡ false }
        ensures told { IfOk result (IsVoteTold self.old self.new number txn writes.now) }
        ensures err { OnErr result (self.new ≡ self.old) }
    {
        if let Some(reason) = self.prepare_refusal(txn, writes.as_slice()) {
            return self.tell_refusal(alloc, number, reason);
        }
        let (held, locks) = locks_of(alloc, &self.locks, txn)?;
        let entered = NodeReply::Yes {
            held: held.clone()?,
            writes: writes.clone()?,
        };
        let told = NodeReply::Yes {
            held,
            writes: writes.clone()?,
        };
        self.vote(alloc, number, txn, writes.clone()?, locks)?;
        Ok(Telling {
            entered,
            told,
            raised: Raised::Nothing,
        })
    }

    /// Ends the vote of a transaction by the verdict, if there is one.
    fn tell_end(
        &mut self,
        alloc: Global,
        number: u64,
        txn: u64,
        verdict: &Verdict,
        _cite: u64,
    ) -> Result<Telling, Memory>
        requires rises { self.old.last < number }
        requires up { self.old.state.records.down ≡ false }
        ensures told { IfOk result (IsEndTold self.old self.new number txn verdict.now _cite) }
        ensures err { OnErr result (self.new ≡ self.old) }
    {
        let Some(vote) = self.intents.of(txn) else {
            return self.tell_refusal(alloc, number, NodeRefusal::NothingHere);
        };
        let given = vote.number;
        if !verdict.cites(self.server.number(), given) {
            self.discard(number, txn, given)?;
            self.note(number);
            return Ok(Telling {
                entered: NodeReply::Discarded,
                told: NodeReply::Discarded,
                raised: Raised::Nothing,
            });
        }
        let writes = vote.writes.clone()?;
        self.install(alloc, number, txn, given, &writes)?;
        self.note(number);
        Ok(Telling {
            entered: NodeReply::Installed,
            told: NodeReply::Installed,
            raised: Raised::Written(writes),
        })
    }

    /// Ends the locks of a transaction, or tells why not.
    fn tell_release(&mut self, alloc: Global, number: u64, txn: u64) -> Result<Telling, Memory>
        requires rises { self.old.last < number }
        requires up { self.old.state.records.down ≡ false }
        ensures told { IfOk result (IsWorkTold self.old self.new number (WorkAsk.Release txn)) }
        ensures err { OnErr result (self.new ≡ self.old) }
    {
        if let Some(reason) = self.release_refusal(txn) {
            return self.tell_refusal(alloc, number, reason);
        }
        self.release(number, txn);
        self.note(number);
        Ok(Telling {
            entered: NodeReply::Released,
            told: NodeReply::Released,
            raised: Raised::Nothing,
        })
    }

    /// Tells the copy of a file.
    fn tell_copy(&mut self, number: u64, file: &FileName) -> Result<Telling, Memory>
        requires rises { self.old.last < number }
        requires up { self.old.state.records.down ≡ false }
        ensures told { IfOk result (IsWorkTold self.old self.new number (WorkAsk.Peek file.now)) }
        ensures err { OnErr result (self.new ≡ self.old) }
    {
        self.copies.note(file);
        let copy = self.copies.get_noted(file);
        let version = copy.version;
        let content = copy.content.clone()?;
        let told = copy.content.clone()?;
        self.note(number);
        Ok(Telling {
            entered: NodeReply::Copy { version, content },
            told: NodeReply::Copy {
                version,
                content: told,
            },
            raised: Raised::Nothing,
        })
    }

    /// Takes a copy that is newer, or tells that it is not. All memory is asked for before the first change.
    fn tell_refresh(
        &mut self,
        alloc: Global,
        number: u64,
        ask: &Shared<WorkAsk>,
        file: &FileName,
        version: u64,
        content: &Content,
        _from: CitedVote,
    ) -> Result<Telling, Memory>
        requires rises { self.old.last < number }
        requires ask { ask.now ≡ WorkAsk.Refresh file.now version content.now _from }
        requires up { self.old.state.records.down ≡ false }
        ensures told { IfOk result (IsWorkTold self.old self.new number ask.now) }
        ensures err { OnErr result (self.new ≡ self.old) }
    {
        let kept = content.clone()?;
        let written = SharedWrite::of_refresh(ask.clone()?);
        self.copies.reserve(alloc, 1)?;
        self.intents.reserve(1)?;
        if !self.copies.install_newer(*file, version, kept) {
            return self.tell_refusal(alloc, number, NodeRefusal::NotNewer);
        }
        self.intents.push_copy(written);
        self.note(number);
        Ok(Telling {
            entered: NodeReply::Refreshed,
            told: NodeReply::Refreshed,
            raised: Raised::Asked,
        })
    }
}

/// A refusal, which raises no copy.
fn refusal_telling(alloc: Global, reason: NodeRefusal) -> Result<Telling, Memory>
    ensures entered { IfOk result (λ telling. telling.entered ≡ NodeReply.Refused reason) }
    ensures told { IfOk result (λ telling. telling.told ≡ NodeReply.Refused reason) }
    ensures raised { IfOk result (λ telling. telling.raised ≡ Raised.Nothing) }
{
    let entered = NodeReply::of_refusal(alloc, reason)?;
    let told = entered.clone()?;
    Ok(Telling {
        entered,
        told,
        raised: Raised::Nothing,
    })
}
