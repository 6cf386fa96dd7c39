//! Tables beside bare journals.

ghost use Rattle.std.specs.Prelude.{◌≡◌, ◌-◌, ◌^◌, [], replicate, IfOk};
ghost use Rattle.tq_tables.specs.{Journals.{AreJournals, entries_in, no_entries}, Parts.AreLegal, Tabled.journals_of};
ghost use Rattle.tq_tables.specs.Tables.{tables_of};

use crate::{DeskEntry, Journals, NodeEntry, Tables, ViewEntry};
use std::alloc::Global;
use tq_shape::{Levels, Limits, Memory};

/// Tables, and beside them bare journals of the same parts, each the oldest entry first. What holds of the journals, and
/// that the tables are theirs, is said by the type that keeps both.
pub struct TabledJournals {
    pub limits: Limits,
    pub tables: Tables,
    pub servers: Vec<Vec<NodeEntry>>,
    pub desk: Vec<DeskEntry>,
    pub view: Vec<ViewEntry>,
}

// Written out, so that a crate above lets go of one by a call.
impl Drop for TabledJournals {
    fn drop(self) {
        let Self {
            limits: _,
            tables: _,
            servers: _,
            desk: _,
            view: _,
        } = self;
    }
}

impl TabledJournals {
    /// Those of a system that was asked nothing.
    pub fn new(alloc: Global, levels: Levels, limits: Limits) -> Result<TabledJournals, Memory>
        ensures journals { IfOk result (λ tabled. journals_of tabled ≡ no_entries levels limits) }
        ensures tables { IfOk result (λ tabled.
            tabled.tables ≡ tables_of (no_entries levels limits)) }
    {
        let servers = empty_journals(alloc, levels)?;
        let tables = Tables::new(alloc, levels, limits)?;
        Ok(TabledJournals {
            limits,
            tables,
            servers,
            desk: Vec::new(alloc),
            view: Vec::new(alloc),
        })
    }

    /// These journals with their tables: each reply is the one that its part gives there. The entries are not copied.
    pub fn of(alloc: Global, journals: Journals) -> Result<TabledJournals, Memory>
        requires { AreLegal journals }
        ensures journals { IfOk result (λ tabled. journals_of tabled ≡ journals) }
        ensures tables { IfOk result (λ tabled. tabled.tables ≡ tables_of journals) }
        ensures form { IfOk result (λ tabled. AreJournals (journals_of tabled)) }
    {
        let tables = Tables::of(alloc, &journals)?;
        let limits = journals.limits();
        let (servers, desk, view) = journals.into_entries();
        Ok(TabledJournals {
            limits,
            tables,
            servers,
            desk,
            view,
        })
    }

    /// The journals. It takes no memory.
    pub fn into_journals(self) -> Journals
        requires { AreJournals (journals_of self) }
        ensures { result ≡ journals_of self }
    {
        let Self {
            limits,
            tables,
            servers,
            desk,
            view,
        } = self;
        Journals::new(tables.levels(), limits, servers, desk, view)
    }
}

/// A journal with no entry for each server of the tree.
fn empty_journals(alloc: Global, levels: Levels) -> Result<Vec<Vec<NodeEntry>>, Memory>
    ensures { IfOk result (λ servers. entries_in servers.items ≡ replicate (2 ^ levels - 1) []) }
{
    let mut servers = Vec::new(alloc);
    for _ in 0..levels.servers() {
        servers.push(Vec::new(alloc))?;
    }
    Ok(servers)
}
