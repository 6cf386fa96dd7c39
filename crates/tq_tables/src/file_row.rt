//! The row of a file.

ghost use Rattle.std.specs.{Prelude.{◌≡◌, ◌+◌, ◌<◌, ◌≤◌, ◌^◌, length, IfOk}, List.All};
ghost use Rattle.tq_shape.specs.ServerSet.{Ascends, servers_of_numbers};
ghost use Rattle.tq_store.specs.Copies.{copy_of};
ghost use Rattle.tq_tables.specs.{Files.{IsExact, next_row, row_by_copy, stood_in}, Parts.AreOfTree};

use tq_node::Node;
use tq_shape::{Memory, ServerSet};
use tq_store::FileName;

/// A file that a commit wrote.
pub struct FileRow {
    pub file: FileName,
    /// How many commits wrote it.
    pub version: u64,
    /// The servers whose copy is of that version or a later one.
    pub current: ServerSet,
    /// All other servers, also those that no commit asked.
    pub stale: ServerSet,
}

// Written out, so that a crate above lets go of one by a call.
impl Drop for FileRow {
    fn drop(self) {
        let Self {
            file: _,
            version: _,
            current: _,
            stale: _,
        } = self;
    }
}

impl FileRow {
    /// An equal row, with memory of its own.
    pub(crate) fn copy(&self) -> Result<FileRow, Memory>
        ensures { IfOk result (λ copy. copy ≡ self.now) }
    {
        let current = self.current.clone()?;
        let stale = self.stale.clone()?;
        Ok(FileRow {
            file: self.file,
            version: self.version,
            current,
            stale,
        })
    }

    /// The row after one commit more that writes the file. A server whose copy is below a version is below the next one
    /// too, so only those that were current are looked at.
    pub(crate) fn of_next_commit(&self, nodes: &[Node]) -> Result<FileRow, Memory>
        requires of_tree { AreOfTree self.now.current.levels 1 nodes.now }
        requires exact { IsExact nodes.now self.now }
        requires room { self.now.version + 1 < 2 ^ 64 }
        ensures { IfOk result (λ row. row ≡ next_row nodes.now self.now) }
    {
        let mut row = self.copy()?;
        row.version += 1;
        row.set_currency_of_each(&self.current, nodes);
        Ok(row)
    }

    /// Each of these servers is current or stale as its copy of the file says. It takes no memory.
    #[inline(always)]
    pub(crate) fn set_currency_of_each(&mut self, servers: &ServerSet, nodes: &[Node])
        requires of_tree { AreOfTree self.old.current.levels 1 nodes.now }
        requires levels { self.old.stale.levels ≡ self.old.current.levels }
        requires within { All (λ number. number ≤ length nodes.now) servers.now.numbers }
        ensures stands { self.new
            ≡ stood_in nodes.now self.old
            (servers_of_numbers servers.now.levels servers.now.numbers) }
        ensures ascending { Ascends 0 servers.now.numbers }
    {
        for server in servers.iter() {
            let place = (server.number() - 1) as usize;
            self.set_currency(&nodes[place], 0);
        }
    }

    /// The server, whose copy of the file is at least of that version, is current where its copy is of the row's version or
    /// a later one, and else stale. It takes no memory.
    #[inline(always)]
    pub(crate) fn set_currency(&mut self, node: &Node, least: u64)
        requires least { least ≤ (copy_of node.now.state.records.copies self.old.file).version }
        requires current { node.now.levels ≡ self.old.current.levels }
        requires stale { node.now.levels ≡ self.old.stale.levels }
        ensures { self.new ≡ row_by_copy node.now self.old }
    {
        let server = node.server();
        if least >= self.version || node.copies().get(&self.file).version >= self.version {
            self.current.insert(server);
            self.stale.remove(server);
        } else {
            self.current.remove(server);
            self.stale.insert(server);
        }
    }
}
