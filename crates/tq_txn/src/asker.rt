//! What lines ask, and what they are told.

use crate::{DeskTold, NodeTold};
use std::alloc::Global;
use tq_asks::{NodeAsk, NodeReply};
use tq_desk::{DeskAsk, DeskReply};
use tq_live::{ViewAsk, ViewReply};
use tq_shape::{Answered, AskFault, ServerId};

/// The view's answer, as it was received: the ask, the reply, and the number of their entry in the view's journal.
#[derive(Drop)]
pub struct ViewTold {
    pub number: u64,
    pub ask: ViewAsk,
    pub reply: ViewReply,
}

/// What is told of an ask: its reply with the number of its entry, or why it was not taken.
pub type Told<R> = Result<Answered<R>, AskFault>;

/// An ask, and what was told of it.
#[derive(Drop)]
pub enum Exchange {
    Node {
        server: u64,
        ask: NodeAsk,
        answer: Told<NodeReply>,
    },
    Desk {
        ask: DeskAsk,
        answer: Told<DeskReply>,
    },
    View {
        ask: ViewAsk,
        answer: Told<ViewReply>,
    },
}

/// Whoever can ask the parts of a system: one ask a call.
pub trait Asker {
    ghost use Rattle.std.specs.Prelude.{◌≡◌, ◌++◌, ℕ, List, IfOk};
    ghost use Rattle.tq_desk.specs.DeskStep.{HasGoodEvidence};
    ghost use Rattle.tq_txn.specs.{declared.asker.Exchange.Exchange, Told.{IsVerdictTold, answers_in}};
    ghost use Rattle.tq_txn.specs.Dialogue.{node_exchange, desk_exchange, view_exchange};
    ghost use Rattle.tq_txn_states.specs.Voting.{CitesOnly};

    /// The asks in their order, each with what was told of it; not those that met want of memory.
    ghost told: { Self → List Exchange };

    /// The levels of the tree whose servers can be asked.
    ghost levels: { Self → ℕ };

    fn node(&mut self, alloc: Global, server: ServerId, ask: NodeAsk) -> Result<NodeTold, AskFault>
        requires { server.levels ≡ levels self.old }
        ensures exchanges { told self.new
            ≡ told self.old ++ node_exchange server.number ask result }
        ensures same { IfOk result (λ t. (t.server ≡ server.number) × (t.ask ≡ ask)) }
        ensures tree { levels self.new ≡ levels self.old };

    /// Tells a server a verdict that the desk told, as `node` asks it.
    fn tell(&mut self, alloc: Global, server: ServerId, ask: NodeAsk) -> Result<NodeTold, AskFault>
        requires of_tree { server.levels ≡ levels self.old }
        requires verdict { IsVerdictTold (told self.old) ask }
        ensures exchanges { told self.new
            ≡ told self.old ++ node_exchange server.number ask result }
        ensures same { IfOk result (λ t. (t.server ≡ server.number) × (t.ask ≡ ask)) }
        ensures tree { levels self.new ≡ levels self.old };

    fn desk(&mut self, alloc: Global, ask: DeskAsk) -> Result<DeskTold, AskFault>
        requires evidence { HasGoodEvidence (levels self.old) ask }
        requires founded { CitesOnly (answers_in (told self.old)) ask }
        ensures exchanges { told self.new ≡ told self.old ++ desk_exchange ask result }
        ensures same { IfOk result (λ t. t.ask ≡ ask) }
        ensures tree { levels self.new ≡ levels self.old };

    fn view(&mut self, alloc: Global, ask: ViewAsk) -> Result<ViewTold, AskFault>
        ensures exchanges { told self.new ≡ told self.old ++ view_exchange ask result }
        ensures same { IfOk result (λ t. t.ask ≡ ask) }
        ensures tree { levels self.new ≡ levels self.old };
}
