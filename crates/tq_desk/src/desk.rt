//! The desk, by plan and change: what an ask changes.

ghost use Rattle.std.specs.{Prelude.{◌≡◌, ◌+◌, ◌<◌, ◌^◌, IfOk, OnOk, OnErr, None, [], true}, Option.option_copied};
ghost use Rattle.std.specs.FinMap as fin;
ghost use Rattle.tq_desk.specs.{DeskJournal.desk_state, DecisionLog.{AnswersByLogs, BeginsByLog, EndsByLog}};
ghost use Rattle.tq_desk.specs.DeskPlans.{desk_change, desk_changed, with_commit, DeskFits, IsDeskPlan};
ghost use Rattle.tq_evidence.specs.Evidence.{ops_rise};
ghost use Rattle.tq_desk.specs.DeskStep as spec;

use crate::files::{WrittenFiles, written_names};
use crate::finals::Finals;
use crate::{Ballot, ByRules, DeskAsk, DeskRefusal, DeskReply, Judge};
use std::alloc::Global;
use std::marker::Model;
use tq_asks::{CitedVote, Verdict};
use tq_evidence::{Op, Vote};
use tq_shape::{Levels, Limits, Memory, Plan, Seq, SharedSeq};
use tq_store::FileName;

/// The desk: it begins transactions and keeps how each ended.
pub struct Desk {
    levels: Levels,
    limits: Limits,
    begun: u64,
    finals: Finals,
    commits: u64,
    files: WrittenFiles,
}

impl Model for Desk {
    ghost use Rattle.std.specs.Prelude.{◌≤◌};
    ghost use Rattle.std.specs.FinMap as map;
    ghost use Rattle.tq_desk.specs.{DeskStep.DeskView, DeskJournal.desk_code};
    ghost use Rattle.tq_asks.specs.contracts.ask.Verdict as verdict_type;

    ghost Value = { DeskView };

    ghost coded = { desk_code verdict_type.the_row.coded };

    ghost view = { λ a. record {
      levels = a.levels;
      limits = a.limits;
      begun = a.begun;
      finals = a.finals.finals;
      commits = a.commits;
      files = a.files.files;
    } };

    ghost invariant = { λ a. a.commits ≤ map.len a.finals.finals };
}

// Written out, so that a crate above lets go of one by a call.
impl Drop for Desk {
    fn drop(self) {
        let Self {
            levels: _,
            limits: _,
            begun: _,
            finals: _,
            commits: _,
            files: _,
        } = self;
    }
}

impl Desk {
    /// A desk that was asked nothing. It takes no memory yet.
    pub fn new(alloc: Global, levels: Levels, limits: Limits) -> Desk
        ensures value { result ≡ spec.opening_desk levels limits }
        ensures journal { result ≡ desk_state (record { levels = levels; limits = limits }) [] }
    {
        Desk {
            levels,
            limits,
            begun: 0,
            finals: Finals::new(alloc),
            commits: 0,
            files: WrittenFiles::new(alloc),
        }
    }

    /// The levels of the tree.
    pub fn levels(&self) -> Levels
        ensures { result ≡ self.now.levels }
    {
        self.levels // as at first
    }

    /// What bounds it.
    pub fn limits(&self) -> Limits
        ensures { result ≡ self.now.limits }
    {
        self.limits // as at first
    }

    /// How many transactions were begun, which is the number of the last.
    pub fn begun(&self) -> u64
        ensures value { result ≡ self.now.begun }
        ensures journal { BeginsByLog self.now result }
    {
        self.begun // numbers go up from 1
    }

    /// How a transaction ended: `None` where it has not, or was not begun.
    pub fn verdict(&self, txn: u64) -> Option<&Verdict>
        ensures value { option_copied result ≡ fin.get self.now.finals txn }
        ensures journal { EndsByLog self.now txn (option_copied result) }
    {
        let _ended = &self.commits;
        self.finals.get(txn)
    }

    /// Answers an ask. A desk that stands where a legal journal leaves it answers what the journal says, and then stands
    /// where the journal with this ask and reply leaves it. Out of memory leaves the desk as it was.
    pub fn answer(&mut self, alloc: Global, ask: &DeskAsk) -> Result<DeskReply, Memory>
        requires { self.old.begun + 1 < 2 ^ 64 }
        ensures reply { IfOk result (λ reply. reply ≡ spec.desk_reply self.old ask.now) }
        ensures after { OnOk result (self.new ≡ spec.desk_after self.old ask.now) }
        ensures err { OnErr result (self.new ≡ self.old) }
        ensures journal { IfOk result (AnswersByLogs self.old self.new ask.now) }
    {
        let plan = self.plan::<ByRules>(alloc, ask)?;
        let Plan { reply, change } = plan;
        self.apply(change)?;
        Ok(reply)
    }

    /// What the desk would answer to the ask now. Nothing changes.
    pub fn foresee(&self, alloc: Global, ask: &DeskAsk) -> Result<DeskReply, Memory>
        requires { self.now.begun + 1 < 2 ^ 64 }
        ensures { IfOk result (λ reply. reply ≡ spec.desk_reply self.now ask.now) }
    {
        let plan = self.plan::<ByRules>(alloc, ask)?;
        Ok(plan.reply)
    }

    /// The reply to an ask, and what `apply` is to change. Of a commit the evidence is judged by `J`. Nothing changes.
    pub fn plan<J: Judge>(
        &self,
        alloc: Global,
        ask: &DeskAsk,
    ) -> Result<Plan<DeskReply, DeskChange>, Memory>
        requires begun { self.now.begun + 1 < 2 ^ 64 }
        requires judged { J.takes self.now.levels ask.now }
        ensures reply { IfOk result (λ plan. plan.reply ≡ spec.desk_reply self.now ask.now) }
        ensures change { IfOk result (λ plan. plan.change ≡ desk_change self.now ask.now) }
    {
        match ask {
            DeskAsk::Begin => {
                let txn = self.begun + 1;
                Ok(Plan {
                    reply: DeskReply::Txn(txn),
                    change: DeskChange::Begin { txn },
                })
            }
            DeskAsk::Commit { txn, ops, votes } => {
                let plan = self.plan_commit::<J>(alloc, *txn, ops.as_slice(), votes)?;
                Ok(plan)
            }
            DeskAsk::Resolve { txn } => {
                let plan = self.plan_resolve(*txn)?;
                Ok(plan)
            }
        }
    }

    /// Makes a change that was planned, of this desk as it stands. All memory is asked for before the first step of
    /// it, so that out of memory leaves the desk as it was.
    pub fn apply(&mut self, change: DeskChange) -> Result<(), Memory>
        requires { DeskFits self.old change }
        ensures ok { OnOk result (self.new ≡ desk_changed self.old change) }
        ensures err { OnErr result (self.new ≡ self.old) }
    {
        match change {
            DeskChange::Nothing => Ok(()),
            DeskChange::Begin { txn } => {
                self.begun = txn;
                Ok(())
            }
            DeskChange::Abort { txn } => self.abort(txn),
            DeskChange::Commit { txn, votes, files } => self.accept(txn, votes, files),
        }
    }

    /// A desk equal to this one, with memory of its own.
    pub fn copy(&self, _alloc: Global) -> Result<Desk, Memory>
        ensures { IfOk result (λ copy. copy ≡ self.now) }
    {
        let finals = self.finals.copy()?;
        let files = self.files.copy()?;
        Ok(Desk {
            levels: self.levels,
            limits: self.limits,
            begun: self.begun,
            finals,
            commits: self.commits,
            files,
        })
    }

    /// The plan of a Resolve.
    fn plan_resolve(&self, txn: u64) -> Result<Plan<DeskReply, DeskChange>, Memory>
        ensures { IfOk result (IsDeskPlan self.now (DeskAsk.Resolve txn)) }
    {
        if !self.is_begun(txn) {
            return Ok(refusal_plan(DeskRefusal::NoSuchTxn));
        }
        match self.end_of(txn)? {
            None => Ok(Plan {
                reply: DeskReply::Verdict(Verdict::Abort),
                change: DeskChange::Abort { txn },
            }),
            Some(recorded) => Ok(Plan {
                reply: DeskReply::Verdict(recorded),
                change: DeskChange::Nothing,
            }),
        }
    }

    /// The plan of a Commit.
    fn plan_commit<J: Judge>(
        &self,
        alloc: Global,
        txn: u64,
        ops: &[Op],
        votes: &Ballot,
    ) -> Result<Plan<DeskReply, DeskChange>, Memory>
        requires { J.takes self.now.levels (DeskAsk.Commit txn ops.now votes.now) }
        ensures { IfOk result (IsDeskPlan self.now (DeskAsk.Commit txn ops.now votes.now)) }
    {
        match self.commit_refusal::<J>(alloc, txn, ops, votes.as_slice())? {
            Some(reason) => Ok(refusal_plan(reason)),
            None => {
                let _ended = self.finals.len();
                let votes = votes.cited()?;
                let files = written_names(alloc, ops)?;
                Ok(Plan {
                    reply: DeskReply::Committed {
                        serial: self.commits + 1,
                    },
                    change: DeskChange::Commit { txn, votes, files },
                })
            }
        }
    }

    /// Whether the number is that of a transaction begun.
    fn is_begun(&self, txn: u64) -> bool
        ensures { result ≡ spec.is_begun self.now txn }
    {
        1 <= txn && txn <= self.begun
    }

    /// How a transaction ended, if it has.
    fn end_of(&self, txn: u64) -> Result<Option<Verdict>, Memory>
        ensures { IfOk result (λ verdict. verdict ≡ fin.get self.now.finals txn) }
    {
        match self.verdict(txn) {
            Some(verdict) => Ok(Some(verdict.clone()?)),
            None => Ok(None),
        }
    }

    /// Records that a transaction aborted that had not ended.
    fn abort(&mut self, txn: u64) -> Result<(), Memory>
        requires { fin.get self.old.finals txn ≡ None }
        ensures after { OnOk result (self.new ≡ spec.desk_after_abort self.old txn) }
        ensures err { OnErr result (self.new ≡ self.old) }
    {
        self.finals.reserve(1)?;
        self.finals.keep(txn, Verdict::Abort);
        Ok(())
    }

    /// What a commit is refused for: the first reason that holds.
    fn commit_refusal<J: Judge>(
        &self,
        alloc: Global,
        txn: u64,
        ops: &[Op],
        votes: &[Vote],
    ) -> Result<Option<DeskRefusal>, Memory>
        requires { J.takes self.now.levels (DeskAsk.Commit txn ops.now votes.now) }
        ensures { IfOk result (λ it. it ≡ spec.commit_refusal self.now txn ops.now votes.now) }
    {
        if !self.is_begun(txn) {
            return Ok(Some(DeskRefusal::NoSuchTxn));
        }
        if let Some(verdict) = self.end_of(txn)? {
            return Ok(Some(DeskRefusal::Decided(verdict)));
        }
        if ops.len() > self.limits.ops() as usize {
            return Ok(Some(DeskRefusal::TooManyOps));
        }
        if let Some(rule) = J::failed_rule(alloc, self.levels, txn, ops, votes)? {
            return Ok(Some(DeskRefusal::BadEvidence { rule }));
        }
        if self.writes_too_many_files(ops) {
            return Ok(Some(DeskRefusal::TooManyFiles));
        }
        Ok(None)
    }

    /// Whether the commits would have written more files than the limit.
    fn writes_too_many_files(&self, ops: &[Op]) -> bool
        requires { ops_rise ops.now ≡ true }
        ensures { result ≡ spec.writes_too_many_files self.now ops.now }
    {
        self.files.len() + self.files.count_new(ops) > self.limits.files() as usize
    }

    /// Records the commit of a transaction that had not ended.
    fn accept(
        &mut self,
        txn: u64,
        votes: SharedSeq<CitedVote>,
        files: Seq<FileName>,
    ) -> Result<(), Memory>
        requires { fin.get self.old.finals txn ≡ None }
        ensures after { OnOk result (self.new ≡ with_commit self.old txn votes files) }
        ensures err { OnErr result (self.new ≡ self.old) }
    {
        self.finals.reserve(1)?;
        self.files.reserve(files.len())?;
        let _ended = self.finals.len();
        self.commits += 1;
        self.finals.keep(txn, Verdict::Commit { votes });
        self.files.add_all(files.as_slice());
        Ok(())
    }
}

/// The plan that refuses, and changes nothing.
fn refusal_plan(reason: DeskRefusal) -> Plan<DeskReply, DeskChange>
    ensures reply { result.reply ≡ DeskReply.Refused reason }
    ensures change { result.change ≡ DeskChange.Nothing }
{
    Plan {
        reply: DeskReply::Refused(reason),
        change: DeskChange::Nothing,
    }
}

/// What an ask changes in a desk.
#[derive(Drop)]
pub enum DeskChange {
    /// The ask is refused, or only looks.
    Nothing,
    /// The transaction begins.
    Begin {
        txn: u64,
    },
    /// The transaction, which had not ended, aborts.
    Abort {
        txn: u64,
    },
    /// The transaction, which had not ended, commits on these votes and writes these files.
    Commit {
        txn: u64,
        votes: SharedSeq<CitedVote>,
        files: Seq<FileName>,
    },
}
