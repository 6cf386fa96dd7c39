//! What is the same of a call of a server, of the desk and of the view.

ghost use Rattle.std.specs.Prelude.{◌≡◌};
ghost use Rattle.tq_txn.specs.declared.asker.Exchange.TheVariants as exchanges;
ghost use Rattle.tq_cluster.specs.Told as spec;

use tq_asks::{NodeAsk, NodeReply};
use tq_desk::{Desk, DeskAsk, DeskReply};
use tq_live::{View, ViewAsk, ViewReply};
use tq_node::Node;
use tq_shape::{Answers, Part};
use tq_txn::{Exchange, Told};

/// A part of a cluster: callers keep what they are told of it as exchanges.
pub(crate) trait Recorded: Answers {
    ghost use Rattle.std.specs.Prelude.{◌≡◌};
    ghost use Rattle.tq_shape.specs.declared.part.Part.{Part};
    ghost use Rattle.tq_txn.specs.{Dialogue.Told, declared.asker.Exchange.Exchange};

    /// An ask of the part of that name, and what was told of it.
    ghost exchange: { Part → Self.Ask → Told Self.Reply → Exchange };

    /// That exchange. It takes no memory.
    fn record(part: Part, ask: Self::Ask, answer: Told<Self::Reply>) -> Exchange
        ensures { result ≡ exchange part ask answer };
}

impl Recorded for Node {
    ghost exchange = { λ part ask answer. exchanges.Node (spec.server_of part) ask answer };

    fn record(part: Part, ask: NodeAsk, answer: Told<NodeReply>) -> Exchange
        ensures { result ≡ exchanges.Node (spec.server_of part) ask answer }
    {
        let server = server_of(part);
        Exchange::Node {
            server,
            ask,
            answer,
        }
    }
}

impl Recorded for Desk {
    ghost exchange = { λ part ask answer. exchanges.Desk ask answer };

    fn record(_part: Part, ask: DeskAsk, answer: Told<DeskReply>) -> Exchange
        ensures { result ≡ exchanges.Desk ask answer }
    {
        Exchange::Desk { ask, answer }
    }
}

impl Recorded for View {
    ghost exchange = { λ part ask answer. exchanges.View ask answer };

    fn record(_part: Part, ask: ViewAsk, answer: Told<ViewReply>) -> Exchange
        ensures { result ≡ exchanges.View ask answer }
    {
        Exchange::View { ask, answer }
    }
}

/// The number of a server by its name, 0 for another part.
fn server_of(part: Part) -> u64
    ensures { result ≡ spec.server_of part }
{
    match part {
        Part::Server(number) => number,
        Part::Desk => 0,
        Part::View => 0,
    }
}
