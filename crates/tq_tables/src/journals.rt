//! The journals of all parts, and an entry of any part, lent.

ghost use Rattle.std.specs.Prelude.{◌≡◌, ◌≤◌, ◌+◌, ◌^◌, length, All};
ghost use Rattle.tq_tables.specs.Journals.{AreJournals, IsOfTree, entries_in};

use std::marker::Model;
use tq_asks::{NodeAsk, NodeReply};
use tq_desk::{DeskAsk, DeskReply};
use tq_live::{ViewAsk, ViewReply};
use tq_shape::{Entry, Levels, Limits};

/// An ask of a server with its reply.
pub type NodeEntry = Entry<NodeAsk, NodeReply>;

/// An ask of the desk with its reply.
pub type DeskEntry = Entry<DeskAsk, DeskReply>;

/// An ask of the view with its reply.
pub type ViewEntry = Entry<ViewAsk, ViewReply>;

/// The journals of all parts of a system, each the oldest entry first. There is one for each server of the tree, none
/// has more entries than the limit, and a quorum or a blocker in the view's journal is of the tree.
pub struct Journals {
    levels: Levels,
    limits: Limits,
    servers: Vec<Vec<NodeEntry>>,
    desk: Vec<DeskEntry>,
    view: Vec<ViewEntry>,
}

// Written out, so that a crate above lets go of one by a call.
impl Drop for Journals {
    fn drop(self) {
        let Self {
            levels: _,
            limits: _,
            servers: _,
            desk: _,
            view: _,
        } = self;
    }
}

impl Model for Journals {
    ghost use Rattle.tq_tables.specs.Journals.{AreJournals, JournalsView, entries_in};

    ghost Value = { JournalsView };

    ghost view = { λ a. record {
      levels = a.levels;
      limits = a.limits;
      servers = entries_in a.servers.items;
      desk = a.desk.items;
      view = a.view.items;
    } };

    ghost invariant = { λ a. AreJournals (record {
      levels = a.levels;
      limits = a.limits;
      servers = entries_in a.servers.items;
      desk = a.desk.items;
      view = a.view.items;
    }) };
}

impl Journals {
    /// The journals of a system, of the servers upwards from server 1. It takes no memory.
    pub fn new(
        levels: Levels,
        limits: Limits,
        servers: Vec<Vec<NodeEntry>>,
        desk: Vec<DeskEntry>,
        view: Vec<ViewEntry>,
    ) -> Journals
        requires { AreJournals (record {
          levels = levels;
          limits = limits;
          servers = entries_in servers.items;
          desk = desk.items;
          view = view.items;
        }) }
        ensures { result ≡ record {
          levels = levels;
          limits = limits;
          servers = entries_in servers.items;
          desk = desk.items;
          view = view.items;
        } }
    {
        Journals {
            levels,
            limits,
            servers,
            desk,
            view,
        }
    }

    /// The entries of the servers, of the desk and of the view. It takes no memory.
    pub(crate) fn into_entries(self) -> (Vec<Vec<NodeEntry>>, Vec<DeskEntry>, Vec<ViewEntry>)
        ensures servers { entries_in result.0.items ≡ self.servers }
        ensures desk { result.1.items ≡ self.desk }
        ensures view { result.2.items ≡ self.view }
        ensures form { AreJournals self }
    {
        let Self {
            levels: _,
            limits: _,
            servers,
            desk,
            view,
        } = self;
        (servers, desk, view)
    }

    /// How many levels the tree of servers has.
    pub fn levels(&self) -> Levels
        ensures { result ≡ self.now.levels }
    {
        self.levels
    }

    /// The limits of the system.
    pub fn limits(&self) -> Limits
        ensures { result ≡ self.now.limits }
    {
        self.limits
    }

    /// The entries of each server, upwards from server 1.
    pub fn servers(&self) -> &[Vec<NodeEntry>]
        ensures value { entries_in result.now ≡ self.now.servers }
        ensures one_each { length self.now.servers + 1 ≡ 2 ^ self.now.levels }
        ensures fit { All (λ entries. length entries ≤ self.now.limits.entries) self.now.servers }
    {
        self.servers.as_slice()
    }

    /// The entries of the desk.
    pub fn desk(&self) -> &[DeskEntry]
        ensures value { result.now ≡ self.now.desk }
        ensures fits { length result.now ≤ self.now.limits.entries }
    {
        self.desk.as_slice()
    }

    /// The entries of the view.
    pub fn view(&self) -> &[ViewEntry]
        ensures value { result.now ≡ self.now.view }
        ensures fits { length result.now ≤ self.now.limits.entries }
        ensures of_tree { All (λ entry. IsOfTree self.now.levels entry.reply) result.now }
    {
        self.view.as_slice()
    }
}

/// An entry of the journal of a server, of the desk or of the view, lent.
#[derive(Clone, Copy)]
pub enum PartEntry<'a> {
    Server(&'a NodeEntry),
    Desk(&'a DeskEntry),
    View(&'a ViewEntry),
}
