//! The service that lines are asked of, with what contracts see of its answers.

ghost use Rattle.std.specs.Prelude.{◌≡◌, IfOk};

use crate::history::History;
use crate::told::{
    handed_ask, told_before, with_answer, with_desk, with_fault, with_handed, with_view,
};
use std::alloc::Global;
use std::marker::Model;
use tq_asks::{NodeAsk, NodeReply};
use tq_core::{Service, Warrant};
use tq_desk::{ByProof, ByRules, DeskAsk};
use tq_live::ViewAsk;
use tq_shape::{Answered, Levels, Limits, Memory, ServerId};
use tq_txn::{AskFault, Asker, DeskTold, Exchange, NodeTold, ViewTold};

/// A service that is asked. Contracts see beside it what was told of its asks, in their order; no memory is taken for
/// that.
#[derive(Drop)]
pub(crate) struct Recorder {
    service: Service,
    told: History<Exchange>,
}

impl Model for Recorder {
    ghost use Rattle.tq_interpreter.specs.Recorded.{RecorderView, IsReplayed};

    ghost Value = { RecorderView };

    ghost view = { λ a. record { journals = a.service; told = a.told.items } };

    ghost invariant = { λ a. IsReplayed (record { journals = a.service; told = a.told.items }) };
}

impl Recorder {
    ghost use Rattle.std.specs.Prelude.{◌≡◌, ◌++◌, [], None, IfOk};
    ghost use Rattle.tq_core.specs.Founded.{unfounded_in_node_ask};
    ghost use Rattle.tq_tables.specs.Journals.{no_entries};
    ghost use Rattle.tq_txn.specs.Dialogue.{node_exchange};
    ghost use Rattle.tq_interpreter.specs.Recorded.{full_limits, told_exchanges, IsReplayed};
    ghost use Rattle.tq_txn.specs.declared.asker.Exchange.TheVariants as exchanges;

    /// A service with full limits that was asked nothing.
    pub(crate) fn new(alloc: Global, levels: Levels) -> Result<Recorder, Memory>
        ensures { IfOk result (λ recorder. recorder.journals ≡ no_entries levels full_limits) }
    {
        let service = Service::new(alloc, levels, Limits::full())?;
        Ok(Recorder::over(service))
    }

    /// The same of a service that was asked before.
    pub(crate) fn over(service: Service) -> Recorder
        ensures { result.journals ≡ service }
    {
        let told = told_before(&service);
        Recorder { service, told }
    }

    /// The service that is asked.
    pub(crate) fn service(&self) -> &Service
        ensures { result.now ≡ self.now.journals }
    {
        &self.service
    }

    /// Asks the server what is known to be founded, and keeps no copy of the ask: the entry's number and the reply are told.
    pub(crate) fn put(
        &mut self,
        alloc: Global,
        server: ServerId,
        ask: NodeAsk,
    ) -> Result<Answered<NodeReply>, AskFault>
        requires of_tree { server.levels ≡ self.old.journals.levels }
        requires founded { unfounded_in_node_ask self.old.journals ask ≡ None }
        ensures exchanges { self.new.told
            ≡ self.old.told ++ told_exchanges result (exchanges.Node server.number ask result) }
        ensures tree { self.new.journals.levels ≡ self.old.journals.levels }
    {
        let number = server.number();
        let given = handed_ask(&ask);
        let answer = self.service.ask_node::<ByProof>(alloc, server, ask);
        self.told = with_handed(&self.told, number, &given, &answer);
        answer
    }

    /// Asks the server, and keeps a copy of the ask; `J` finds the entry that it cites.
    #[inline(always)]
    fn ask<J: Warrant>(
        &mut self,
        alloc: Global,
        server: ServerId,
        ask: NodeAsk,
    ) -> Result<NodeTold, AskFault>
        requires of_tree { server.levels ≡ self.old.journals.levels }
        requires founded { J.founds_node self.old.journals ask }
        ensures exchanges { self.new.told ≡ self.old.told
            ++ node_exchange server.number ask result }
        ensures same { IfOk result (λ t. (t.server ≡ server.number) × (t.ask ≡ ask)) }
        ensures tree { self.new.journals.levels ≡ self.old.journals.levels }
    {
        let number = server.number();
        let copy = match copy_of_node_ask(&ask) {
            Ok(copy) => copy,
            Err(_) => return Err(AskFault::Memory),
        };
        match self.service.ask_node::<J>(alloc, server, ask) {
            Ok(told) => {
                // Taken apart and built anew: moved whole, the reply is copied once more.
                let Answered {
                    number: entry,
                    reply,
                } = told;
                self.told = with_answer(&self.told, number, &copy, entry, &reply);
                Ok(NodeTold {
                    server: number,
                    number: entry,
                    ask: copy,
                    reply,
                })
            }
            Err(fault) => {
                self.told = with_fault(&self.told, number, copy, &fault);
                Err(fault)
            }
        }
    }

    /// What was told, replayed from empty journals, leads to these: this does nothing, and says so.
    pub(crate) fn show_replayed(&self)
        ensures { IsReplayed self.now }
    {
        let _ = &self.service;
    }
}

/// An ask equal to this.
pub(crate) fn copy_of_node_ask(ask: &NodeAsk) -> Result<NodeAsk, Memory>
    ensures { IfOk result (λ copy. copy ≡ ask.now) }
{
    Ok(ask.clone()?)
}

fn copy_of_desk_ask(ask: &DeskAsk) -> Result<DeskAsk, Memory>
    ensures { IfOk result (λ copy. copy ≡ ask.now) }
{
    Ok(ask.clone()?)
}

impl Asker for Recorder {
    ghost use Rattle.std.specs.Prelude.{◌≡◌, ◌++◌, IfOk};
    ghost use Rattle.tq_desk.specs.DeskStep.{HasGoodEvidence};
    ghost use Rattle.tq_txn.specs.Dialogue.{node_exchange, desk_exchange, view_exchange};
    ghost use Rattle.tq_txn.specs.Told.{IsVerdictTold, answers_in};
    ghost use Rattle.tq_txn_states.specs.Voting.{CitesOnly};

    ghost told = { λ a. a.told };

    ghost levels = { λ a. a.journals.levels };

    #[inline(always)]
    fn node(&mut self, alloc: Global, server: ServerId, ask: NodeAsk) -> Result<NodeTold, AskFault>
        requires { server.levels ≡ self.old.journals.levels }
        ensures exchanges { self.new.told ≡ self.old.told
            ++ node_exchange server.number ask result }
        ensures same { IfOk result (λ t. (t.server ≡ server.number) × (t.ask ≡ ask)) }
        ensures tree { self.new.journals.levels ≡ self.old.journals.levels }
    {
        self.ask::<ByRules>(alloc, server, ask)
    }

    #[inline(always)]
    fn tell(&mut self, alloc: Global, server: ServerId, ask: NodeAsk) -> Result<NodeTold, AskFault>
        requires of_tree { server.levels ≡ self.old.journals.levels }
        requires verdict { IsVerdictTold self.old.told ask }
        ensures exchanges { self.new.told ≡ self.old.told
            ++ node_exchange server.number ask result }
        ensures same { IfOk result (λ t. (t.server ≡ server.number) × (t.ask ≡ ask)) }
        ensures tree { self.new.journals.levels ≡ self.old.journals.levels }
    {
        self.show_replayed();
        self.ask::<ByProof>(alloc, server, ask)
    }

    fn desk(&mut self, alloc: Global, ask: DeskAsk) -> Result<DeskTold, AskFault>
        requires evidence { HasGoodEvidence self.old.journals.levels ask }
        requires founded { CitesOnly (answers_in self.old.told) ask }
        ensures exchanges { self.new.told ≡ self.old.told ++ desk_exchange ask result }
        ensures same { IfOk result (λ t. t.ask ≡ ask) }
        ensures tree { self.new.journals.levels ≡ self.old.journals.levels }
    {
        let copy = copy_of_desk_ask(&ask)?;
        let answer = self.service.ask_desk::<ByProof>(alloc, ask);
        self.told = with_desk(&self.told, &copy, &answer);
        match answer {
            Ok(told) => Ok(DeskTold {
                number: told.number,
                ask: copy,
                reply: told.reply,
            }),
            Err(fault) => Err(fault),
        }
    }

    #[inline(always)]
    fn view(&mut self, alloc: Global, ask: ViewAsk) -> Result<ViewTold, AskFault>
        ensures exchanges { self.new.told ≡ self.old.told ++ view_exchange ask result }
        ensures same { IfOk result (λ t. t.ask ≡ ask) }
        ensures tree { self.new.journals.levels ≡ self.old.journals.levels }
    {
        let answer = self.service.ask_view(alloc, ask);
        self.told = with_view(&self.told, &ask, &answer);
        match answer {
            Ok(told) => Ok(ViewTold {
                number: told.number,
                ask,
                reply: told.reply,
            }),
            Err(fault) => Err(fault),
        }
    }
}
