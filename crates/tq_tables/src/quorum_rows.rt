//! The rows of all subtrees' least quorums.

ghost use Rattle.std.specs.{Prelude.{◌≡◌, IfOk}, Bool.OnFalse};
ghost use Rattle.tq_tables.specs.Rows as spec;

use std::alloc::Global;
use tq_live::{Least, LiveTree, Purpose};
use tq_shape::{Memory, ServerId};

/// For each server upwards the bests of its subtree, to read from and to write to.
pub fn quorum_rows(alloc: Global, tree: &LiveTree) -> Result<Vec<QuorumRow>, Memory>
    ensures { IfOk result (λ rows. rows.items ≡ spec.quorum_rows tree.now) }
{
    let levels = tree.levels();
    let mut rows = Vec::new(alloc);
    for below in 0..levels.servers() {
        let server = ServerId::new(levels, below + 1);
        let row = quorum_row(alloc, tree, server)?;
        rows.push(row)?;
    }
    Ok(rows)
}

/// The bests of the server's subtree, to read from and to write to.
fn quorum_row(alloc: Global, tree: &LiveTree, server: ServerId) -> Result<QuorumRow, Memory>
    requires { server.levels ≡ tree.now.levels }
    ensures { IfOk result (λ row. row ≡ spec.quorum_row tree.now server.number) }
{
    let read = least_row(alloc, tree, Purpose::Read, server)?;
    let write = least_row(alloc, tree, Purpose::Write, server)?;
    Ok(QuorumRow { read, write })
}

/// The best of the server's subtree for the purpose, none where there is none.
fn least_row(
    alloc: Global,
    tree: &LiveTree,
    purpose: Purpose,
    server: ServerId,
) -> Result<Option<Least>, Memory>
    requires { server.levels ≡ tree.now.levels }
    ensures { IfOk result (λ row. row ≡ spec.least_row tree.now purpose server.number) }
{
    let mut row = Least::new(alloc, tree.levels())?;
    if least_into(tree, purpose, server, &mut row) {
        Ok(Some(row))
    } else {
        Ok(None)
    }
}

/// Writes the best of the server's subtree for the purpose into the row and answers true. Where there is none, the row stays
/// and the answer is false. It takes no memory.
pub(crate) fn least_into(
    tree: &LiveTree,
    purpose: Purpose,
    server: ServerId,
    row: &mut Least,
) -> bool
    requires server { server.levels ≡ tree.now.levels }
    requires row { row.old.servers.levels ≡ tree.now.levels }
    ensures least { spec.row_if result row.new
        ≡ spec.least_row tree.now purpose server.number }
    ensures stays { OnFalse result (row.new ≡ row.old) }
    ensures tree { row.new.servers.levels ≡ tree.now.levels }
{
    tree.best_into(purpose, server, row)
}

/// The first quorums of least cost of a server's subtree among those that are up; none where none is up.
pub struct QuorumRow {
    /// By what reading at the servers costs.
    pub read: Option<Least>,
    /// By what writing at the servers costs.
    pub write: Option<Least>,
}

// Written out, so that a crate above lets go of one by a call.
impl Drop for QuorumRow {
    fn drop(self) {
        let Self { read: _, write: _ } = self;
    }
}
