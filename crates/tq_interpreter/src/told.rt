//! What contracts see of what was told.

ghost use Rattle.std.specs.{Prelude.{◌≡◌, ◌++◌, ◌∷◌, [], Ok, Err}, List.flat_map};
ghost use Rattle.tq_txn.specs.declared.asker.Exchange.TheVariants as exchanges;
ghost use Rattle.tq_txn.specs.Dialogue.{unless_memory};
ghost use Rattle.tq_interpreter.specs.Recorded.{mark_of, told_exchanges};

use crate::history::History;
use tq_asks::{NodeAsk, NodeReply};
use tq_core::Service;
use tq_desk::{DeskAsk, DeskReply};
use tq_live::{ViewAsk, ViewReply};
use tq_shape::{Answered, AskFault};
use tq_txn::Exchange;

/// What was told before, and an ask with its answer.
#[derive(Drop)]
struct Asked<'a, A, R> {
    before: &'a History<Exchange>,
    ask: &'a A,
    answer: &'a Result<Answered<R>, AskFault>,
}

/// What was told before, and an ask of a server with what it answered.
#[derive(Drop)]
struct ServerAnswered<'a> {
    before: &'a History<Exchange>,
    server: u64,
    ask: &'a NodeAsk,
    number: u64,
    reply: &'a NodeReply,
}

/// What was told before, and an ask that no server took.
#[derive(Drop)]
struct ServerUnasked<'a> {
    before: &'a History<Exchange>,
    server: u64,
    ask: &'a NodeAsk,
    fault: &'a AskFault,
}

/// What was told before, and what a server that was handed an ask answered.
#[derive(Drop)]
struct ServerHanded<'a> {
    before: &'a History<Exchange>,
    server: u64,
    ask: &'a History<NodeAsk>,
    answer: &'a Result<Answered<NodeReply>, AskFault>,
}

/// What was told where nothing was asked of the service yet: what stands for its journals.
pub(crate) fn told_before(service: &Service) -> History<Exchange>
    ensures { result.items ≡ mark_of service.now ∷ [] }
{
    History::of(service)
}

/// What was told, with an ask of a server more that it answered by the entry of that number.
pub(crate) fn with_answer(
    before: &History<Exchange>,
    server: u64,
    ask: &NodeAsk,
    number: u64,
    reply: &NodeReply,
) -> History<Exchange>
    ensures { result.items ≡ before.now.items
        ++ exchanges.Node server ask.now
        (Ok (record { number = number; reply = reply.now })) ∷ [] }
{
    History::of(&ServerAnswered {
        before,
        server,
        ask,
        number,
        reply,
    })
}

/// What was told, with an ask of a server more that was not taken. One that met want of memory is not told.
pub(crate) fn with_fault(
    before: &History<Exchange>,
    server: u64,
    ask: NodeAsk,
    fault: &AskFault,
) -> History<Exchange>
    ensures { result.items ≡ before.now.items
        ++ unless_memory fault.now (exchanges.Node server ask (Err fault.now)) }
{
    History::of(&ServerUnasked {
        before,
        server,
        ask: &ask,
        fault,
    })
}

/// The ask that is handed to a server, for contracts to see it afterwards.
pub(crate) fn handed_ask(ask: &NodeAsk) -> History<NodeAsk>
    ensures { result.items ≡ ask.now ∷ [] }
{
    History::of(ask)
}

/// What was told, with the ask that was handed to a server more. One that met want of memory is not told.
pub(crate) fn with_handed(
    before: &History<Exchange>,
    server: u64,
    ask: &History<NodeAsk>,
    answer: &Result<Answered<NodeReply>, AskFault>,
) -> History<Exchange>
    ensures { result.items ≡ before.now.items
        ++ flat_map (λ ask. told_exchanges answer.now (exchanges.Node server ask answer.now))
        ask.now.items }
{
    History::of(&ServerHanded {
        before,
        server,
        ask,
        answer,
    })
}

/// What was told, with an ask of the desk more. An ask that met want of memory is not told.
pub(crate) fn with_desk(
    before: &History<Exchange>,
    ask: &DeskAsk,
    answer: &Result<Answered<DeskReply>, AskFault>,
) -> History<Exchange>
    ensures { result.items ≡ before.now.items
        ++ told_exchanges answer.now (exchanges.Desk ask.now answer.now) }
{
    History::of(&Asked {
        before,
        ask,
        answer,
    })
}

/// What was told, with an ask of the view more, as `with_desk`.
pub(crate) fn with_view(
    before: &History<Exchange>,
    ask: &ViewAsk,
    answer: &Result<Answered<ViewReply>, AskFault>,
) -> History<Exchange>
    ensures { result.items ≡ before.now.items
        ++ told_exchanges answer.now (exchanges.View ask.now answer.now) }
{
    History::of(&Asked {
        before,
        ask,
        answer,
    })
}
