//! The servers that may have a copy of a file before a commit of it is followed.
ghost use Rattle.std.specs.Prelude.{◌≡◌, ◌-◌, ◌^◌, [], true, replicate, IfOk};
ghost use Rattle.tq_tables.specs.{Files.{AreHolders, held_by}, Parts.{AreOfTree, nodes_at}, Rows.servers_where};

use std::alloc::Global;
use tq_node::Node;
use tq_shape::{Levels, Memory, ServerId, ServerSet};

/// The servers of a system, and those that may have a copy of a file that has no row yet: the first row of a file looks
/// at these alone.
pub(crate) struct Holders {
    /// No other server has such a copy.
    pub(crate) early: ServerSet,
    pub(crate) all: ServerSet,
}

// Written out, as that of the tables.
impl Drop for Holders {
    fn drop(self) {
        let Self { early: _, all: _ } = self;
    }
}

impl Holders {
    /// Of servers that were asked nothing, where no file has a row.
    pub(crate) fn new(alloc: Global, levels: Levels, nodes: &[Node]) -> Result<Holders, Memory>
        requires { nodes.now ≡ nodes_at levels 1 (replicate (2 ^ levels - 1) []) }
        ensures { IfOk result (λ holders. AreHolders levels nodes.now [] holders) }
    {
        let early = ServerSet::new(alloc, levels)?;
        let all = all_servers(alloc, levels, nodes)?;
        Ok(Holders { early, all })
    }

    /// Equal ones, with memory of their own.
    pub(crate) fn copy(&self) -> Result<Holders, Memory>
        ensures { IfOk result (λ copy. copy ≡ self.now) }
    {
        let early = self.early.clone()?;
        let all = self.all.clone()?;
        Ok(Holders { early, all })
    }

    /// The server may have such a copy, unless each file whose copy rose there has a row. It takes no memory.
    #[inline(always)]
    pub(crate) fn hold(&mut self, server: ServerId, found: bool)
        requires { server.levels ≡ self.old.early.levels }
        ensures { self.new ≡ held_by found server.number self.old }
    {
        if !found {
            self.early.insert(server);
        }
    }
}

/// All servers.
fn all_servers(alloc: Global, levels: Levels, nodes: &[Node]) -> Result<ServerSet, Memory>
    requires { AreOfTree levels 1 nodes.now }
    ensures { IfOk result (λ all. all ≡ servers_where levels (λ node. true) nodes.now) }
{
    let mut all = ServerSet::new(alloc, levels)?;
    for node in nodes {
        all.insert(node.server());
    }
    Ok(all)
}
