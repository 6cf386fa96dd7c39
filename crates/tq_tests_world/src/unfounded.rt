//! Lines of a client where what an ask cites is not founded: no session reaches that.
ghost use Rattle.std.specs.Prelude.{◌≡◌};

use std::alloc::Global;
use std::mem::forget;
use tq_asks::{NodeAsk, Verdict};
use tq_desk::DeskAsk;
use tq_live::ViewAsk;
use tq_shape::{Levels, Part, ServerId};
use tq_txn::{
    AskFault, Asker, DeskTold, Exchange, LineFault, NodeTold, ViewTold, apply_at, ask_any,
};

/// One of whom the servers are asked what is not founded; of the others it asks nothing. It is left where it is, since to
/// let it go is dear to prove.
#[derive(Drop)]
struct Forger {
    levels: Levels,
    exchanges: Vec<Exchange>,
}

impl Asker for Forger {
    ghost told = { λ a. a.exchanges.items };

    ghost levels = { λ a. a.levels };

    fn node(
        &mut self,
        _alloc: Global,
        server: ServerId,
        ask: NodeAsk,
    ) -> Result<NodeTold, AskFault> {
        let server = server.number();
        let part = Part::Server(server);
        let fault = AskFault::Unfounded { part, number: 7 };
        match self.exchanges.reserve(1) {
            Ok(()) => {
                let answer = Err(fault);
                self.exchanges.push_reserved(Exchange::Node {
                    server,
                    ask,
                    answer,
                });
                Err(fault)
            }
            Err(_) => {
                forget(ask);
                Err(AskFault::Memory)
            }
        }
    }

    fn tell(
        &mut self,
        alloc: Global,
        server: ServerId,
        ask: NodeAsk,
    ) -> Result<NodeTold, AskFault> {
        self.node(alloc, server, ask)
    }

    fn desk(&mut self, _alloc: Global, ask: DeskAsk) -> Result<DeskTold, AskFault> {
        forget(ask);
        Err(AskFault::Memory)
    }

    fn view(&mut self, _alloc: Global, _ask: ViewAsk) -> Result<ViewTold, AskFault> {
        Err(AskFault::Memory)
    }
}

fn is_unfounded(fault: &LineFault) -> bool {
    matches!(
        fault,
        LineFault::Unfounded {
            part: Part::Server(1),
            number: 7
        }
    )
}

/// Whether an apply ends at its server.
fn applies_nothing(forger: &mut Forger, alloc: Global, server: ServerId) -> bool
    requires { server.levels ≡ forger.old.levels }
    ensures { forger.new.levels ≡ forger.old.levels }
{
    match apply_at(forger, alloc, 1, Verdict::Abort, 2, server) {
        Ok(_) => false,
        Err(fault) => {
            let is_unfounded = is_unfounded(&fault);
            forget(fault);
            is_unfounded
        }
    }
}

/// Whether an ask whose reply does not matter has none.
fn has_no_reply(forger: &mut Forger, alloc: Global, server: ServerId) -> bool
    requires { server.levels ≡ forger.old.levels }
{
    match ask_any(forger, alloc, server, NodeAsk::Crash) {
        Ok(reply) => {
            let is_none = reply.is_none();
            forget(reply);
            is_none
        }
        Err(_) => false,
    }
}

fn ends_unfounded(alloc: Global) -> bool {
    let levels = Levels::new(1).unwrap();
    let server = ServerId::new(levels, 1);
    let exchanges = Vec::new(alloc);
    let mut forger = Forger { levels, exchanges };
    let is_ended = applies_nothing(&mut forger, alloc, server)
        && has_no_reply(&mut forger, alloc, server);
    forget(forger);
    is_ended
}

#[test]
fn an_ask_ends_where_its_citation_is_not_founded(rt: HostRuntime) {
    assert!(rt; ends_unfounded(rt.alloc()));
}
