//! The view, its asks and its replies, and what an ask changes in it.

ghost use Rattle.std.specs.Prelude.{◌≡◌, [], IfOk, OnOk, OnErr};

use crate::choice::Choice;
use crate::costs::{Costs, are_costs};
use crate::purpose::Purpose;
use crate::tree::{LiveTree, Turns};
use std::alloc::Global;
use std::marker::Model;
use tq_coterie::{Blocker, Quorum};
use tq_shape::{ExactClone, Levels, Memory, Plan, ServerId};

/// What a view is asked.
#[derive(Clone, Copy, Debug, PartialEq, Eq)]
pub enum ViewAsk {
    /// The server is to have these costs.
    SetCost { server: u64, read: u64, write: u64 },
    /// The server is to be marked up or down.
    Mark { server: u64, up: bool },
    /// Which quorum is up at least cost for the purpose.
    Choose { purpose: Purpose },
}

/// What a view answers.
#[derive(Clone, Drop, PartialEq)]
pub enum ViewReply {
    /// The server has these costs from now on.
    CostSet,
    /// The server has this mark from now on; it may have had it before.
    Marked,
    /// The first quorum of least cost for the purpose among those that are up, with its cost.
    Chosen { quorum: Quorum, cost: u64 },
    /// Nothing has changed.
    Refused(ViewRefusal),
}

/// Why a view refuses.
#[derive(Clone, Debug, Drop, PartialEq)]
pub enum ViewRefusal {
    /// The tree has no server of that number.
    NoSuchServer,
    /// One of the costs is not from 1 to 1,000,000.
    BadCost,
    /// No quorum is up: these servers, all down, have one in common with every quorum.
    Blocked(Blocker),
}

impl ExactClone for ViewAsk {
    ghost use Rattle.std.proofs.Common.{rules};

    ghost clones = { Prim.search rules };
}

impl ExactClone for ViewRefusal {
    ghost use Rattle.std.proofs.Common.{rules};

    ghost clones = { Prim.search rules };
}

impl ExactClone for ViewReply {
    ghost use Rattle.std.proofs.Common.{rules};

    ghost clones = { Prim.search rules };
}

/// The costs and marks of the servers of a tree, by asks and replies.
pub struct View {
    levels: Levels,
    tree: LiveTree,
    /// The quorum that was chosen last to read from: the next choice of the same one for that purpose shares its list.
    /// Contracts do not see it.
    kept_read: Option<Quorum>,
    /// The same to write to.
    kept_write: Option<Quorum>,
}

// Written out, so that a crate above lets go of one by a call.
impl Drop for View {
    fn drop(self) {
        let Self {
            levels: _,
            tree: _,
            kept_read: _,
            kept_write: _,
        } = self;
    }
}

impl Model for View {
    ghost use Rattle.std.specs.Prelude.{◌≡◌};
    ghost use Rattle.tq_live.specs.Live.{Live};

    ghost Value = { Live };

    ghost view = { λ view. view.tree };

    ghost invariant = { λ view. view.tree.levels ≡ view.levels };
}

impl View {
    ghost use Rattle.std.specs.Prelude.{◌≡◌, [], IfOk, OnOk, OnErr};
    ghost use Rattle.tq_live.specs.{Live.HasQuorumOrBlocker, ViewLaws.{view_change, view_changed, ViewFits}};
    ghost use Rattle.tq_live.specs.View.{view_reply, view_after, view_state, GoesWithJournal, IsFirstReply, ReplaysJournals};
    ghost use Rattle.tq_live.specs.declared.{purpose.Purpose.Purpose, view.ViewAsk.TheVariants.Choose};

    /// Every server at cost 1 for each purpose and up. From there, asks and replies lead where their journal says.
    pub fn new(alloc: Global, levels: Levels) -> Result<View, Memory>
        ensures new { IfOk result (λ view. view ≡ view_state levels []) }
        ensures replays { ReplaysJournals levels }
    {
        let tree = LiveTree::new(alloc, levels)?;
        Ok(View {
            levels,
            tree,
            kept_read: None,
            kept_write: None,
        })
    }

    /// The costs and marks as they stand.
    pub fn tree(&self) -> &LiveTree
        ensures { result.now ≡ self.now }
    {
        let _ = &self.levels;
        &self.tree
    }

    /// Answers one ask. A view that stands where a journal leaves it stands, after the answer, where the journal
    /// with this ask and reply leaves it.
    pub fn answer(&mut self, alloc: Global, ask: &ViewAsk) -> Result<ViewReply, Memory>
        ensures reply { IfOk result (λ reply. reply ≡ view_reply self.old ask.now) }
        ensures first { IfOk result (λ reply. IsFirstReply self.old ask.now reply) }
        ensures either { (purpose : Purpose) → HasQuorumOrBlocker self.old purpose }
        ensures after { OnOk result (self.new ≡ view_after self.old ask.now) }
        ensures unchanged { OnErr result (self.new ≡ self.old) }
        ensures journal { IfOk result (λ reply. GoesWithJournal self.old self.new ask.now reply) }
    {
        let plan = self.plan(alloc, ask)?;
        let Plan { reply, change } = plan;
        self.apply(change);
        Ok(reply)
    }

    /// The reply that `answer` would give to the ask. Nothing changes.
    pub fn foresee(&self, alloc: Global, ask: &ViewAsk) -> Result<ViewReply, Memory>
        ensures { IfOk result (λ reply. reply ≡ view_reply self.now ask.now) }
    {
        let plan = self.plan(alloc, ask)?;
        Ok(plan.reply)
    }

    /// The reply to an ask, and what `apply` is to change. Nothing changes.
    #[inline(always)]
    pub fn plan(&self, alloc: Global, ask: &ViewAsk) -> Result<Plan<ViewReply, ViewChange>, Memory>
        ensures reply { IfOk result (λ plan. plan.reply ≡ view_reply self.now ask.now) }
        ensures change { IfOk result (λ plan. plan.change ≡ view_change self.now ask.now) }
    {
        match *ask {
            ViewAsk::SetCost {
                server,
                read,
                write,
            } => Ok(self.plan_cost(server, read, write)),
            ViewAsk::Mark { server, up } => Ok(self.plan_mark(server, up)),
            ViewAsk::Choose { purpose } => self.plan_choice(alloc, purpose),
        }
    }

    /// Makes a change that was planned, and can then neither fail nor be refused. It takes no memory.
    #[inline(always)]
    pub fn apply(&mut self, change: ViewChange)
        requires { ViewFits self.old change }
        ensures { self.new ≡ view_changed self.old change }
    {
        match change {
            ViewChange::Nothing => (),
            ViewChange::Cost { server, costs } => {
                self.tree.put_costs(server, costs, &mut Turns::new());
            }
            ViewChange::Mark { server, up } => {
                self.tree.set_mark(server, up, &mut Turns::new());
            }
            ViewChange::Keep { purpose, quorum } => match purpose {
                Purpose::Read => self.kept_read = Some(quorum),
                Purpose::Write => self.kept_write = Some(quorum),
            },
        }
    }

    /// An equal view.
    pub fn copy(&self, alloc: Global) -> Result<View, Memory>
        ensures { IfOk result (λ view. view ≡ self.now) }
    {
        let levels = self.levels;
        let tree = self.tree.copy(alloc)?;
        Ok(View {
            levels,
            tree,
            kept_read: None,
            kept_write: None,
        })
    }

    /// The plan of new costs.
    #[inline(always)]
    fn plan_cost(&self, server: u64, read: u64, write: u64) -> Plan<ViewReply, ViewChange>
        ensures reply { result.reply ≡ view_reply self.now (ViewAsk.SetCost server read write) }
        ensures change { result.change ≡ view_change self.now (ViewAsk.SetCost server read write) }
    {
        match self.levels.server(server) {
            None => plan_refusal(ViewRefusal::NoSuchServer),
            Some(server) if are_costs(read, write) => Plan {
                reply: ViewReply::CostSet,
                change: ViewChange::Cost {
                    server,
                    costs: Costs { read, write },
                },
            },
            Some(_) => plan_refusal(ViewRefusal::BadCost),
        }
    }

    /// The plan of a new mark.
    #[inline(always)]
    fn plan_mark(&self, server: u64, up: bool) -> Plan<ViewReply, ViewChange>
        ensures reply { result.reply ≡ view_reply self.now (ViewAsk.Mark server up) }
        ensures change { result.change ≡ view_change self.now (ViewAsk.Mark server up) }
    {
        match self.levels.server(server) {
            None => plan_refusal(ViewRefusal::NoSuchServer),
            Some(server) => Plan {
                reply: ViewReply::Marked,
                change: ViewChange::Mark { server, up },
            },
        }
    }

    /// The plan of a choice: a quorum is kept.
    fn plan_choice(
        &self,
        alloc: Global,
        purpose: Purpose,
    ) -> Result<Plan<ViewReply, ViewChange>, Memory>
        ensures reply { IfOk result (λ plan. plan.reply ≡ view_reply self.now (Choose purpose)) }
        ensures change { IfOk result (λ plan. plan.change ≡ view_change self.now (Choose purpose)) }
    {
        let kept = match purpose {
            Purpose::Read => self.kept_read.as_ref(),
            Purpose::Write => self.kept_write.as_ref(),
        };
        match self.tree.choose_or_share(alloc, purpose, kept)? {
            Choice::Quorum { quorum, cost } => {
                let kept = quorum.clone()?;
                Ok(Plan {
                    reply: ViewReply::Chosen { quorum, cost },
                    change: ViewChange::Keep {
                        purpose,
                        quorum: kept,
                    },
                })
            }
            Choice::Blocked(blocker) => Ok(plan_refusal(ViewRefusal::Blocked(blocker))),
        }
    }
}

/// The plan that refuses, and changes nothing.
fn plan_refusal(reason: ViewRefusal) -> Plan<ViewReply, ViewChange>
    ensures reply { result.reply ≡ ViewReply.Refused reason }
    ensures change { result.change ≡ ViewChange.Nothing }
{
    Plan {
        reply: ViewReply::Refused(reason),
        change: ViewChange::Nothing,
    }
}

/// What an ask changes in a view.
#[derive(Drop)]
pub enum ViewChange {
    /// The ask is refused, or only looks.
    Nothing,
    /// The server has these costs, which are ones that a server may have.
    Cost { server: ServerId, costs: Costs },
    /// The server has this mark.
    Mark { server: ServerId, up: bool },
    /// Costs and marks stay. This quorum was chosen for the purpose, and the next choice of the same one for it shares its
    /// list.
    Keep { purpose: Purpose, quorum: Quorum },
}
