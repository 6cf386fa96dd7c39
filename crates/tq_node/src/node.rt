//! The server, by plan and change.

ghost use Rattle.std.specs.Prelude.{◌≡◌, ◌<◌, ◌≤◌, false, OnOk, OnErr, IfOk, IsSome, None, Ok};
ghost use Rattle.std.specs.FinMap as fin;
ghost use Rattle.tq_intents.specs.Kept.{AreDead};
ghost use Rattle.tq_locks.specs.Locks.{blocker};
ghost use Rattle.tq_node.specs.Records as spec;
ghost use Rattle.tq_node.specs.Node as node;
ghost use Rattle.tq_node.specs.{Node.{HasOnlyKept, IsKept}, Cases.{IsOnlyStepOf, IsStepOf}};
ghost use Rattle.tq_node.specs.NodeChanges.{server_at_stop, node_change, node_changed, server_in_vote, server_after_vote, Installs, Locks, NodeFits, StepsCopies, Takes, TakesOrNotes, planned_stop, work_replied, write_of, IsEndPlan, IsLockPlan, IsRefreshPlan, IsWorkPlan};

mod refusals;
mod telling;

use crate::votes::locks_of;
use crate::{CitedVote, NodeAsk, NodeChange, NodeRefusal, NodeReply, NodeStep, Verdict, WorkAsk};
use std::alloc::Global;
use std::marker::Model;
use tq_intents::{Intents, NewerWrite, OpenVote, Record, SharedWrite, VoteLocks, VotesLeft};
use tq_locks::{LockTable, Mode};
use tq_shape::{Levels, Memory, Plan, Seq, ServerId, SharedSeq};
use tq_store::{Content, Copies, FileName, Write};

/// A server: its copies, locks and open votes, the stable records that keep them, and whether it is down.
pub struct Node {
    server: ServerId,
    copies: Copies,
    locks: LockTable,
    intents: Intents,
    down: bool,
    last: u64,
}

// Written out, so that a crate above lets go of one by a call.
impl Drop for Node {
    fn drop(self) {
        let Self {
            server: _,
            copies: _,
            locks: _,
            intents: _,
            down: _,
            last: _,
        } = self;
    }
}

impl Model for Node {
    ghost use Rattle.tq_intents.specs.Kept.{kept_votes};
    ghost use Rattle.tq_node.specs.Node.{IsSound, NodeView, node_code};
    ghost use Rattle.tq_intents.specs.contracts.record.Record as record_type;
    ghost use Rattle.tq_intents.specs.contracts.record.OpenVote as vote_type;

    ghost Value = { NodeView };

    ghost coded = { node_code record_type.the_row.coded vote_type.the_row.coded };

    ghost view = { λ a. record {
      levels = a.server.levels;
      server = a.server.number;
      state = record {
        records = record {
          copies = a.copies.files;
          locks = a.locks.locks;
          votes = kept_votes a.intents.records;
          down = a.down;
        };
        stable = a.intents.records;
      };
      last = a.last;
    } };

    ghost invariant = { λ a. IsSound a.intents.records a.last a.copies.files a.locks.locks };
}

impl Node {
    /// A server of the tree that is up and has stored nothing.
    pub fn new(alloc: Global, levels: Levels, server: ServerId) -> Node
        requires { server.levels ≡ levels }
        ensures { result ≡ node.opening_server levels server.number }
    {
        Node {
            server,
            copies: Copies::new(alloc),
            locks: LockTable::new(alloc),
            intents: Intents::new(alloc),
            down: false,
            last: 0,
        }
    }

    /// The stable records, in the order in which they were written.
    pub fn stable(&self) -> &[Record]
        ensures list { result.now ≡ self.now.state.stable }
        ensures kept { IsKept self.now.state }
    {
        self.intents.stable()
    }

    /// The server of the tree that it is.
    pub fn server(&self) -> ServerId
        ensures levels { result.levels ≡ self.now.levels }
        ensures number { result.number ≡ self.now.server }
    {
        self.server
    }

    /// Whether it is down.
    pub fn is_down(&self) -> bool
        ensures { result ≡ self.now.state.records.down }
    {
        self.down
    }

    /// Its copies, which go through a crash.
    pub fn copies(&self) -> &Copies
        ensures { result.now.files ≡ self.now.state.records.copies }
    {
        &self.copies
    }

    /// The locks held at it.
    pub fn locks(&self) -> &LockTable
        ensures { result.now.locks ≡ self.now.state.records.locks }
    {
        &self.locks
    }

    /// The open votes, ascending by transaction.
    pub fn votes(&self) -> VotesLeft<'_>
        ensures { result ≡ fin.entries self.now.state.records.votes }
    {
        self.intents.votes()
    }

    /// The number of the last ask answered, 0 at first.
    pub fn last(&self) -> u64
        ensures { result ≡ self.now.last }
    {
        self.last
    }

    /// An equal server, with memory of its own.
    pub fn copy(&self, alloc: Global) -> Result<Node, Memory>
        ensures { IfOk result (λ copy. copy ≡ self.now) }
    {
        let copies = self.copies.copy(alloc)?;
        let locks = self.locks.copy(alloc)?;
        let intents = self.intents.copy(alloc)?;
        Ok(Node {
            server: self.server,
            copies,
            locks,
            intents,
            down: self.down,
            last: self.last,
        })
    }

    /// What `answer` would reply to the ask. It changes nothing.
    pub fn foresee(&self, alloc: Global, number: u64, ask: &NodeAsk) -> Result<NodeReply, Memory>
        requires { self.now.last < number }
        ensures { IfOk result (λ reply. reply ≡ node.reply_to_ask self.now ask.now) }
    {
        let plan = self.plan(alloc, number, ask)?;
        Ok(plan.reply)
    }

    /// The reply to an ask, of a number above that of the last one answered, and what `apply` is to change. Nothing
    /// changes.
    #[inline(always)]
    pub fn plan(
        &self,
        alloc: Global,
        number: u64,
        ask: &NodeAsk,
    ) -> Result<Plan<NodeReply, NodeChange>, Memory>
        requires { self.now.last < number }
        ensures reply { IfOk result (λ plan. plan.reply ≡ node.reply_to_ask self.now ask.now) }
        ensures change { IfOk result (λ plan. plan.change ≡ node_change self.now number ask.now) }
    {
        if let Some(reason) = self.refusal(ask) {
            let refused = NodeReply::of_refusal(alloc, reason)?;
            return Ok(plan_with(number, refused, NodeStep::Nothing));
        }
        match ask {
            NodeAsk::Work(work) => {
                let plan = self.plan_work(alloc, number, work.get())?;
                Ok(plan_with(number, plan.reply, plan.change))
            }
            NodeAsk::Crash => Ok(plan_with(number, NodeReply::Crashed, NodeStep::Crash)),
            NodeAsk::Return => Ok(plan_with(number, NodeReply::Returned, NodeStep::Return)),
            NodeAsk::CrashIn { ask, after } => {
                let step = self.plan_stop(alloc, number, ask.get(), *after)?;
                Ok(Plan {
                    reply: NodeReply::Crashed,
                    change: NodeChange {
                        number,
                        step,
                        stops: true,
                    },
                })
            }
        }
    }

    /// What is left of the ask's step where the server stops behind the first `after` of the records that it would
    /// write; nothing where it would be refused.
    fn plan_stop(
        &self,
        alloc: Global,
        number: u64,
        ask: &WorkAsk,
        after: u32,
    ) -> Result<NodeStep, Memory>
        ensures { IfOk result (λ step. step ≡ planned_stop self.now number ask.now after) }
    {
        if self.work_refusal(ask).is_some() {
            return Ok(NodeStep::Nothing);
        }
        let plan = self.plan_work(alloc, number, ask)?;
        let Plan { reply: _, change } = plan;
        let step = change.cut(alloc, after as usize)?;
        Ok(step)
    }

    /// The reply to an ask that the server doesn't refuse, and its step.
    fn plan_work(
        &self,
        alloc: Global,
        number: u64,
        ask: &WorkAsk,
    ) -> Result<Plan<NodeReply, NodeStep>, Memory>
        requires { spec.work_refusal self.now.state.records ask.now ≡ None }
        ensures { IfOk result (IsWorkPlan self.now number ask.now) }
    {
        match ask {
            WorkAsk::Lock { txn, file, mode } => {
                let plan = self.plan_lock(*txn, *file, *mode)?;
                Ok(plan)
            }
            WorkAsk::Prepare { txn, writes } => self.plan_vote(alloc, number, *txn, writes),
            WorkAsk::Decide { txn, verdict, .. } => {
                let plan = self.plan_end(alloc, *txn, verdict)?;
                Ok(plan)
            }
            WorkAsk::Release { txn } => Ok(Plan {
                reply: NodeReply::Released,
                change: NodeStep::Release { txn: *txn },
            }),
            WorkAsk::Peek { file } => {
                let reply = self.peek(*file)?;
                Ok(Plan {
                    reply,
                    change: NodeStep::Nothing,
                })
            }
            WorkAsk::Refresh {
                file,
                version,
                content,
                ..
            } => {
                let plan = plan_refresh(*file.get(), *version, content.get())?;
                Ok(plan)
            }
        }
    }

    /// The plan of a lock that is granted.
    fn plan_lock(
        &self,
        txn: u64,
        file: FileName,
        mode: Mode,
    ) -> Result<Plan<NodeReply, NodeStep>, Memory>
        ensures { IfOk result (IsLockPlan self.now txn file mode) }
    {
        let copy = self.copies.get(&file);
        let version = copy.version;
        let content = copy.content.clone()?;
        Ok(Plan {
            reply: NodeReply::Granted { version, content },
            change: NodeStep::Lock {
                txn,
                file,
                mode,
                version,
            },
        })
    }

    /// The plan of a vote that is given.
    fn plan_vote(
        &self,
        alloc: Global,
        number: u64,
        txn: u64,
        writes: &SharedSeq<Write>,
    ) -> Result<Plan<NodeReply, NodeStep>, Memory>
        ensures { IfOk result (IsWorkPlan self.now number (WorkAsk.Prepare txn writes.now)) }
    {
        let (held, locks) = locks_of(alloc, &self.locks, txn)?;
        let answered = writes.clone()?;
        let writes = writes.clone()?;
        Ok(Plan {
            reply: NodeReply::Yes {
                held,
                writes: answered,
            },
            change: NodeStep::Vote {
                txn,
                vote: OpenVote {
                    number,
                    writes,
                    locks,
                },
            },
        })
    }

    /// The plan of the end of an open vote.
    fn plan_end(
        &self,
        alloc: Global,
        txn: u64,
        verdict: &Verdict,
    ) -> Result<Plan<NodeReply, NodeStep>, Memory>
        requires { IsSome (fin.get self.now.state.records.votes txn) }
        ensures { IfOk result (IsEndPlan self.now txn verdict.now) }
    {
        let number = self.vote_number(txn);
        if self.installs(txn, verdict) {
            let writes = self.intents.of(txn).unwrap().writes.clone()?;
            let newer = self.newer(alloc, &writes)?;
            Ok(Plan {
                reply: NodeReply::Installed,
                change: NodeStep::Install {
                    txn,
                    number,
                    writes,
                    newer,
                },
            })
        } else {
            Ok(Plan {
                reply: NodeReply::Discarded,
                change: NodeStep::Discard { txn, number },
            })
        }
    }

    fn lock(
        &mut self,
        number: u64,
        txn: u64,
        file: FileName,
        mode: Mode,
        version: u64,
    ) -> Result<(), Memory>
        requires closed { fin.get self.old.state.records.votes txn ≡ None }
        requires free { blocker self.old.state.records.locks file txn mode ≡ None }
        ensures after { OnOk result (Locks self.old self.new number txn file mode version) }
        ensures err { OnErr result (self.new ≡ self.old) }
    {
        self.locks.grant(txn, file, mode, number, version)?;
        Ok(())
    }

    fn peek(&self, file: FileName) -> Result<NodeReply, Memory>
        ensures reply { IfOk result (λ reply. reply ≡ work_replied self.now (WorkAsk.Peek file)) }
    {
        let copy = self.copies.get(&file);
        Ok(NodeReply::Copy {
            version: copy.version,
            content: copy.content.clone()?,
        })
    }

    fn release(&mut self, number: u64, txn: u64)
        requires { fin.get self.old.state.records.votes txn ≡ None }
        ensures { Takes self.old self.new number (NodeStep.Release txn) }
    {
        self.locks.release(txn);
    }

    /// Installs a newer copy. All memory is asked for before the first change.
    fn refresh(&mut self, alloc: Global, number: u64, write: Write) -> Result<(), Memory>
        ensures after { OnOk result (Takes self.old self.new number (NodeStep.Refresh write)) }
        ensures err { OnErr result (self.new ≡ self.old) }
    {
        let file = write.file;
        let version = write.version;
        let kept = write.content.clone()?;
        let written = SharedWrite::alone(alloc, write)?;
        self.copies.reserve(alloc, 1)?;
        self.intents.reserve(1)?;
        self.copies.install(file, version, kept);
        self.intents.push_copy(written);
        Ok(())
    }

    /// Gives a vote. All memory is asked for before the first change.
    #[inline(always)]
    fn vote(
        &mut self,
        alloc: Global,
        number: u64,
        txn: u64,
        writes: SharedSeq<Write>,
        locks: VoteLocks,
    ) -> Result<(), Memory>
        requires rises { self.old.last < number }
        requires closed { fin.get self.old.state.records.votes txn ≡ None }
        requires locks { locks ≡ spec.kept_locks_of self.old.state.records.locks txn }
        ensures after { OnOk result
            (self.new ≡ server_after_vote self.old number txn writes locks) }
        ensures err { OnErr result (self.new ≡ self.old) }
    {
        self.intents.prepare(alloc, txn, number, writes, locks)?;
        self.locks.keep(txn);
        self.last = number;
        Ok(())
    }

    /// Writes the first records of a vote that is not given to its end.
    fn leave_unfinished(&mut self, number: u64, records: Seq<Record>) -> Result<(), Memory>
        requires rises { self.old.last < number }
        requires dead { AreDead number records }
        ensures after { OnOk result (self.new ≡ server_in_vote self.old number records) }
        ensures err { OnErr result (self.new ≡ self.old) }
    {
        self.intents.push_unfinished(records)?;
        self.last = number;
        Ok(())
    }

    /// Installs the first newer writes of a vote, which stays open. All memory is asked for before the first change.
    fn install_first(
        &mut self,
        alloc: Global,
        number: u64,
        newer: Seq<NewerWrite>,
    ) -> Result<(), Memory>
        ensures after { OnOk result (Takes self.old self.new number (NodeStep.Copies newer)) }
        ensures err { OnErr result (self.new ≡ self.old) }
    {
        self.copies.reserve(alloc, newer.len())?;
        self.intents.reserve(newer.len())?;
        self.intents.install_copies(&mut self.copies, newer);
        Ok(())
    }

    /// The number of a transaction's open vote, 0 where there is none.
    fn vote_number(&self, txn: u64) -> u64
        ensures { result ≡ (spec.open_vote self.now.state.records txn).number }
    {
        match self.intents.of(txn) {
            Some(vote) => vote.number,
            None => 0,
        }
    }

    /// Whether the verdict is Commit and cites the open vote.
    fn installs(&self, txn: u64, verdict: &Verdict) -> bool
        ensures { result ≡ spec.installs self.now.server self.now.state.records txn verdict.now }
    {
        verdict.cites(self.server.number(), self.vote_number(txn))
    }

    /// The writes that are above the copies here.
    fn newer(&self, alloc: Global, writes: &SharedSeq<Write>) -> Result<Seq<NewerWrite>, Memory>
        ensures { IfOk result (λ it. it ≡ spec.newer_writes self.now.state.records writes.now) }
    {
        let list = writes.as_slice();
        let mut newer = Vec::with_capacity(alloc, list.len())?;
        for place in 0..list.len() {
            let write = &list[place];
            if self.copies.get(&write.file).version < write.version {
                let write = SharedWrite::at(writes.clone()?, place);
                newer.push_reserved(NewerWrite::of(write)?);
            }
        }
        Ok(Seq::from_vec(newer))
    }

    /// Ends a vote, and installs nothing.
    fn discard(&mut self, number: u64, txn: u64, vote: u64) -> Result<(), Memory>
        requires open { IsSome (fin.get self.old.state.records.votes txn) }
        requires vote { vote ≡ (spec.open_vote self.old.state.records txn).number }
        ensures after { OnOk result (Takes self.old self.new number (NodeStep.Discard txn vote)) }
        ensures err { OnErr result (self.new ≡ self.old) }
    {
        self.intents.reserve(1)?;
        self.intents.finish(txn);
        self.locks.release(txn);
        Ok(())
    }

    /// Installs a vote's writes and ends it. Those that are not newer than the copies change nothing, so only the contract
    /// speaks of all the writes. All memory is asked for before the first change.
    #[inline(always)]
    fn install(
        &mut self,
        alloc: Global,
        number: u64,
        txn: u64,
        vote: u64,
        writes: &SharedSeq<Write>,
    ) -> Result<(), Memory>
        requires open { IsSome (fin.get self.old.state.records.votes txn) }
        requires vote { vote ≡ (spec.open_vote self.old.state.records txn).number }
        ensures after { OnOk result (Installs self.old self.new number txn vote writes.now) }
        ensures err { OnErr result (self.new ≡ self.old) }
    {
        let count = writes.as_slice().len();
        self.copies.reserve(alloc, count)?;
        self.intents.reserve(count + 1)?;
        self.intents.install_newer(&mut self.copies, writes, count)?;
        self.intents.finish(txn);
        self.locks.release(txn);
        Ok(())
    }

    /// Makes a change that was planned, of this server as it stands. All memory is asked for before the first step of
    /// it, so that out of memory leaves the server as it was. The copies are those that the step leaves, also where the
    /// server stops behind it.
    #[inline(always)]
    pub fn apply(&mut self, alloc: Global, change: NodeChange) -> Result<(), Memory>
        requires { NodeFits self.old change }
        ensures ok { OnOk result (self.new ≡ node_changed self.old change) }
        ensures copies { OnOk result (StepsCopies self.old self.new change) }
        ensures err { OnErr result (self.new ≡ self.old) }
    {
        let NodeChange {
            number,
            step,
            stops,
        } = change;
        self.take(alloc, number, step)?;
        self.leave(stops);
        self.note(number);
        Ok(())
    }

    /// Makes the step of a change. Its number need not be noted yet.
    fn take(&mut self, alloc: Global, number: u64, step: NodeStep) -> Result<(), Memory>
        requires { NodeFits self.old (record { number = number; step = step; stops = false }) }
        ensures after { OnOk result (TakesOrNotes self.old self.new number step) }
        ensures last { self.new.last ≤ number }
        ensures err { OnErr result (self.new ≡ self.old) }
    {
        match step {
            NodeStep::Nothing => Ok(()),
            NodeStep::Lock {
                txn,
                file,
                mode,
                version,
            } => self.lock(number, txn, file, mode, version),
            NodeStep::Vote { txn, vote } => {
                let OpenVote {
                    number: _,
                    writes,
                    locks,
                } = vote;
                self.vote(alloc, number, txn, writes, locks)
            }
            NodeStep::Discard { txn, number: vote } => self.discard(number, txn, vote),
            NodeStep::Install {
                txn,
                number: vote,
                writes,
                newer: _,
            } => self.install(alloc, number, txn, vote, &writes),
            NodeStep::Release { txn } => {
                self.release(number, txn);
                Ok(())
            }
            NodeStep::Refresh { write } => self.refresh(alloc, number, write),
            NodeStep::Unfinished { records } => self.leave_unfinished(number, records),
            NodeStep::Copies { newer } => self.install_first(alloc, number, newer),
            NodeStep::Crash => {
                self.crash(number);
                Ok(())
            }
            NodeStep::Return => {
                self.come_back(number);
                Ok(())
            }
        }
    }

    /// Goes down, and keeps the locks of the open votes alone.
    fn crash(&mut self, number: u64)
        ensures { Takes self.old self.new number NodeStep.Crash }
    {
        self.locks.drop_unstable();
        self.down = true;
    }

    /// Where it stops, goes down with what its stable records keep.
    fn leave(&mut self, stops: bool)
        ensures after { self.new ≡ server_at_stop stops self.old }
        ensures copies { self.new.state.records.copies ≡ self.old.state.records.copies }
    {
        if stops {
            let last = self.last;
            self.crash(last);
        }
    }

    /// Comes up again.
    fn come_back(&mut self, number: u64)
        ensures { Takes self.old self.new number NodeStep.Return }
    {
        self.down = false;
    }

    /// Notes the number of the ask that is being answered.
    fn note(&mut self, last: u64)
        requires { self.old.last ≤ last }
        ensures { self.new ≡ node.with_last last self.old }
    {
        self.last = last;
    }

    /// The step: the refusal where there is one, and else the answer.
    fn respond(&mut self, alloc: Global, number: u64, ask: &NodeAsk) -> Result<NodeReply, Memory>
        requires { self.old.last < number }
        ensures reply { IfOk result (λ reply. reply ≡ node.reply_to_ask self.old ask.now) }
        ensures after { OnOk result (self.new ≡ node.server_after self.old number ask.now) }
        ensures err { OnErr result (self.new ≡ self.old) }
    {
        let plan = self.plan(alloc, number, ask)?;
        let Plan { reply, change } = plan;
        self.apply(alloc, change)?;
        Ok(reply)
    }

    /// Answers an ask, of a number above that of the last one answered.
    /// Where memory is wanting the server is as it was, and the ask may be put again.
    pub fn answer(&mut self, alloc: Global, number: u64, ask: &NodeAsk) -> Result<NodeReply, Memory>
        requires { self.old.last < number }
        ensures reply { IfOk result (λ reply. reply ≡ node.reply_to_ask self.old ask.now) }
        ensures after { OnOk result (self.new ≡ node.server_after self.old number ask.now) }
        ensures err { OnErr result (self.new ≡ self.old) }

        // The same as a relation, one case for each refusal and each answer; no other reply and no other records are in it.
        ensures by_cases { IfOk result (IsStepOf self.old self.new number ask.now) }
        ensures only { IfOk result (IsOnlyStepOf self.old self.new number ask.now) }

        // The stable records keep the copies, the open votes and their locks; after a crash they are all there is.
        ensures kept { IsKept self.new.state }
        ensures crashed { result ≡ Ok NodeReply.Crashed → HasOnlyKept self.new.state }
    {
        let told = self.respond(alloc, number, ask);
        let _ = &self.last;
        told
    }
}

/// The plan of an ask of that number.
fn plan_with(number: u64, reply: NodeReply, step: NodeStep) -> Plan<NodeReply, NodeChange>
    ensures reply { result.reply ≡ reply }
    ensures change { result.change ≡ record { number = number; step = step; stops = false } }
{
    Plan {
        reply,
        change: NodeChange {
            number,
            step,
            stops: false,
        },
    }
}

/// The plan of a copy that is taken over.
fn plan_refresh(
    file: FileName,
    version: u64,
    content: &Content,
) -> Result<Plan<NodeReply, NodeStep>, Memory>
    ensures { IfOk result (IsRefreshPlan (write_of file version content.now)) }
{
    let content = content.clone()?;
    Ok(Plan {
        reply: NodeReply::Refreshed,
        change: NodeStep::Refresh {
            write: Write {
                file,
                version,
                content,
            },
        },
    })
}
