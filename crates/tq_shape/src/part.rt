//! The names of parts, and an entry of a journal.

/// The name of a part: a server by its number, the desk or the view.
#[derive(Clone, Copy, Debug, PartialEq, Eq)]
pub enum Part {
    Server(u64),
    Desk,
    View,
}

/// An ask of a part with the part's reply.
#[derive(Drop)]
pub struct Entry<A, R> {
    pub ask: A,
    pub reply: R,
}
