//! Entries of one part.

use tq_shape::Seq;
use tq_tables::{DeskEntry, NodeEntry, ViewEntry};

/// Entries of one part, the oldest first.
#[derive(Drop)]
pub enum Entries {
    Server(Seq<NodeEntry>),
    Desk(Seq<DeskEntry>),
    View(Seq<ViewEntry>),
}
