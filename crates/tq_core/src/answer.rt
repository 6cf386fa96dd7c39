//! Steps, their answers and refusals.

use tq_asks::{NodeAsk, NodeReply};
use tq_desk::{DeskAsk, DeskReply};
use tq_live::{ViewAsk, ViewReply};
use tq_shape::Part;
use tq_tables::{DeskEntry, NodeEntry, ViewEntry};

/// An ask with the part that is asked.
#[derive(Clone, Drop)]
pub enum Step {
    Node { server: u64, ask: NodeAsk },
    Desk(DeskAsk),
    View(ViewAsk),
}

/// The reply of a part.
#[derive(Drop)]
pub enum Reply {
    Node(NodeReply),
    Desk(DeskReply),
    View(ViewReply),
}

/// A part's reply, and the number of its entry in the part's journal.
#[derive(Drop)]
pub struct Answer {
    pub number: u64,
    pub reply: Reply,
}

/// Why a step was not taken. It left everything as it was.
#[derive(Clone, Copy, Debug, PartialEq, Eq)]
pub enum Refusal {
    Memory,
    NoSuchServer,
    /// The part's journal has as many entries as the limit says.
    JournalFull { part: Part },
    /// The ask cites an entry that does not stand there with that content: this is the first such.
    Unfounded { part: Part, number: u64 },
}

/// The entries of a part, the oldest first.
#[derive(Clone, Copy)]
pub enum Journal<'a> {
    Server(&'a [NodeEntry]),
    Desk(&'a [DeskEntry]),
    View(&'a [ViewEntry]),
}
