//! The rows of the locks that are held.

ghost use Rattle.std.specs.Prelude.{◌≡◌, ◌++◌, map, IfOk, OnOk};
ghost use Rattle.std.specs.FinMap as fin;
ghost use Rattle.tq_tables.specs.Rows as spec;

use std::alloc::Global;
use tq_locks::Mode;
use tq_node::Node;
use tq_shape::{Memory, ServerId};
use tq_store::FileName;

/// The locks that are held at the servers.
pub fn lock_rows(alloc: Global, nodes: &[Node]) -> Result<Vec<LockRow>, Memory>
    ensures { IfOk result (λ rows. rows.items ≡ spec.lock_rows nodes.now) }
{
    let mut rows = Vec::new(alloc);
    for node in nodes {
        push_locks(alloc, &mut rows, node)?;
    }
    Ok(rows)
}

/// Puts the locks of a server at the end.
fn push_locks(alloc: Global, rows: &mut Vec<LockRow>, node: &Node) -> Result<(), Memory>
    ensures { OnOk result (rows.new.items ≡ rows.old.items
        ++ map (spec.lock_row node.now) (fin.entries node.now.state.records.locks)) }
{
    let server = node.server();
    for entry in node.locks().entries(alloc)? {
        rows.push(LockRow {
            server,
            file: entry.file,
            txn: entry.txn,
            mode: entry.lock.mode,
            since: entry.lock.since,
            version: entry.lock.version,
        })?;
    }
    Ok(())
}

/// A lock that a transaction holds at a server.
#[derive(Clone, Copy, Debug, PartialEq)]
pub struct LockRow {
    pub server: ServerId,
    pub file: FileName,
    pub txn: u64,
    pub mode: Mode,
    /// The number of the server's entry that granted it first without a break.
    pub since: u64,
    /// The version of the server's copy then.
    pub version: u64,
}
