//! A caller: a pass for each part, and what it was told.

ghost use Rattle.std.specs.Prelude.{◌≡◌, ◌+◌, ◌^◌, [], map, vec_len};

use std::alloc::Global;
use std::marker::Model;
use tq_cells::Pass;
use tq_desk::Desk;
use tq_live::View;
use tq_node::Node;
use tq_shape::{Levels, Seq};
use tq_txn::Exchange;

/// One who asks the parts of a cluster: a pass for each part, and what it was told of its asks, in their order. All of
/// this was told by parts.
pub struct Caller {
    pub(crate) levels: Levels,
    pub(crate) servers: Vec<Pass<Node>>,
    pub(crate) desk: Pass<Desk>,
    pub(crate) view: Pass<View>,
    pub(crate) told: Vec<Exchange>,
}

// Written out, so that each function lets go of one by a call.
impl Drop for Caller {
    fn drop(self) {
        let Self {
            levels: _,
            servers: _,
            desk: _,
            view: _,
            told: _,
        } = self;
    }
}

impl Model for Caller {
    ghost use Rattle.std.specs.Prelude.{◌≡◌, ◌+◌, ◌^◌, length, map};
    ghost use Rattle.tq_cluster.specs.Told.{AreOfParts, CallerView};

    ghost Value = { CallerView };

    ghost view = { λ c. record {
      levels = c.levels;
      told = c.told.items;
      seen = record {
        servers = map (λ pass. pass.seen) c.servers.items;
        desk = c.desk.seen;
        view = c.view.seen;
      };
    } };

    ghost invariant = { λ c.
        (length c.servers.items + 1 ≡ 2 ^ c.levels) × AreOfParts c.levels c.told.items };
}

impl Caller {
    /// A caller with these passes, which was told nothing.
    pub(crate) fn new(
        alloc: Global,
        levels: Levels,
        servers: Vec<Pass<Node>>,
        desk: Pass<Desk>,
        view: Pass<View>,
    ) -> Caller
        requires { vec_len servers + 1 ≡ 2 ^ levels }
        ensures { result ≡ record {
          levels = levels;
          told = [];
          seen = record {
            servers = map (λ pass. pass.seen) servers.items;
            desk = desk.seen;
            view = view.seen;
          };
        } }
    {
        Caller {
            levels,
            servers,
            desk,
            view,
            told: Vec::new(alloc),
        }
    }

    /// Makes room for so many exchanges more, if memory is there: what was told need not move then, as it grows.
    pub(crate) fn make_room(&mut self, exchanges: usize)
        ensures { self.new ≡ self.old }
    {
        let _levels = self.levels;
        let _made = self.told.reserve(exchanges);
    }

    /// What it was told of its asks, in their order. It takes no memory.
    pub(crate) fn into_told(self) -> Seq<Exchange>
        ensures { result ≡ self.told }
    {
        let Caller {
            levels: _,
            servers: _,
            desk: _,
            view: _,
            told,
        } = self;
        Seq::from_vec(told)
    }
}
