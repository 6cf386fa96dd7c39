//! What was pulled so far, with its tables.

ghost use Rattle.std.specs.Prelude.{◌≡◌, ◌<◌, ◌^◌, ◌++◌, length, IfOk, OnOk, OnErr};
ghost use Rattle.tq_shape.specs.Tree.{IsServer};
ghost use Rattle.tq_tables.specs.{Parts.AreLegal, Tables.tables_of, Journals.no_entries};
ghost use Rattle.tq_mirror.specs.Prefixes.{AreKept, IsTaken, server_prefix};

use crate::entries::Entries;
use crate::fault::PullFault;
use crate::following::{follow_desk, follow_server, follow_view, has_nothing_new};
use std::alloc::Global;
use std::marker::Model;
use std::mem;
use tq_shape::{Levels, Limits, Memory, Part, Seq};
use tq_tables::{DeskEntry, NodeEntry, TabledJournals, Tables, ViewEntry};

/// So many entries of tables are copied and let go of while one more is asked, about; a server is as dear as these.
const COPIES: usize = 8;

/// An entry of the desk is asked as dear as so many of a server, about: the evidence of commits is judged.
const DESK: usize = 4;

/// What was pulled of the journals of a system: of each part the first entries, and the tables over them, which alone
/// keep how the parts stand. Contracts see it as these entries; the journals that have them alone are legal.
///
/// Spare tables, equal to these, may stand beside them. Entries that come are tried on the spare tables, which take the
/// place of the tables where all is well; the tables that stood there follow then, and are the spare ones. So each entry is
/// asked twice, and nothing is copied but where there are no spare tables: at first, and behind so many entries that to
/// follow would cost more.
pub struct Prefixes {
    tabled: TabledJournals,
    spare: Option<Tables>,
}

// Written out, so that a crate above lets go of one by a call.
impl Drop for Prefixes {
    fn drop(self) {
        let Self {
            tabled: _,
            spare: _,
        } = self;
    }
}

impl Model for Prefixes {
    ghost use Rattle.std.specs.Prelude.{◌≡◌, IfSome};
    ghost use Rattle.tq_tables.specs.{Journals.JournalsView, Tabled.journals_of};
    ghost use Rattle.tq_mirror.specs.Prefixes.{AreKept};

    ghost Value = { JournalsView };

    ghost view = { λ a. journals_of a.tabled };

    ghost invariant = { λ a. AreKept a.tabled.tables (journals_of a.tabled)
        × IfSome a.spare (λ spare. spare ≡ a.tabled.tables) };
}

impl Prefixes {
    /// Nothing was pulled. Answers an error only where memory is refused.
    pub fn new(alloc: Global, levels: Levels, limits: Limits) -> Result<Prefixes, Memory>
        ensures { IfOk result (λ prefixes. prefixes ≡ no_entries levels limits) }
    {
        let tabled = TabledJournals::new(alloc, levels, limits)?;
        Ok(Prefixes {
            tabled,
            spare: None,
        })
    }

    /// How many levels the tree of servers has.
    pub fn levels(&self) -> Levels
        ensures { result ≡ self.now.levels }
    {
        self.tabled.tables.levels()
    }

    /// The limits of the system.
    pub fn limits(&self) -> Limits
        ensures { result ≡ self.now.limits }
    {
        self.tabled.limits
    }

    /// The tables over what was pulled: those of journals that have these entries alone, which are legal.
    pub fn tables(&self) -> &Tables
        ensures value { result.now ≡ tables_of self.now }
        ensures legal { AreLegal self.now }
    {
        self.kept_tables()
    }

    /// The tables, and what holds of them and of the entries.
    pub(crate) fn kept_tables(&self) -> &Tables
        ensures { AreKept result.now self.now }
    {
        let _ = &self.tabled.limits;
        &self.tabled.tables
    }

    /// The spare tables, or a copy of the tables where there are none.
    pub(crate) fn take_spare(&mut self, alloc: Global) -> Result<Tables, Memory>
        ensures same { self.new ≡ self.old }
        ensures spare { IfOk result (λ spare. AreKept spare self.old) }
    {
        let _ = &self.tabled.limits;
        match self.spare.take() {
            Some(spare) => Ok(spare),
            None => self.tabled.tables.copy(alloc),
        }
    }

    /// What was pulled of the server of that number.
    pub fn server(&self, number: u64) -> &[NodeEntry]
        requires { IsServer self.now.levels number }
        ensures { result.now ≡ server_prefix self.now number }
    {
        let place = (number - 1) as usize;
        self.tabled.servers[place].as_slice()
    }

    /// How many entries were pulled of the server of that number.
    fn server_count(&self, number: u64) -> usize
        requires { IsServer self.now.levels number }
        ensures value { result ≡ length (server_prefix self.now number) }
        ensures few { result < 2 ^ 63 }
    {
        let place = (number - 1) as usize;
        self.tabled.servers[place].len()
    }

    /// Whether so many entries are much of all that was pulled: then tables that follow them cost more than a copy.
    fn is_much(&self, entries: usize) -> bool {
        let mut all = self.tabled.desk.len();
        all = all.saturating_add(self.tabled.view.len());
        for journal in self.tabled.servers.as_slice() {
            all = all.saturating_add(journal.len()).saturating_add(COPIES);
        }
        entries > all / COPIES
    }

    /// What was pulled of the desk.
    pub fn desk(&self) -> &[DeskEntry]
        ensures { result.now ≡ self.now.desk }
    {
        self.tabled.desk.as_slice()
    }

    /// What was pulled of the view.
    pub fn view(&self) -> &[ViewEntry]
        ensures { result.now ≡ self.now.view }
    {
        self.tabled.view.as_slice()
    }

    /// Takes entries of the server of that number, as `take_desk` takes those of the desk.
    pub fn take_server(
        &mut self,
        alloc: Global,
        number: u64,
        entries: Vec<NodeEntry>,
        least: u64,
    ) -> Result<(), PullFault>
        requires { IsServer self.old.levels number }
        ensures { IsTaken self.old self.new
            (Part.Server number) (Entries.Server entries.items) least result }
    {
        let known = self.server_count(number);
        if has_nothing_new(known, entries.len(), least) {
            return Ok(());
        }
        let Some(ahead) = self.ahead_of_server(alloc, number, entries.as_slice(), least)? else {
            return Err(PullFault::Foreign {
                part: Part::Server(number),
                entries: Entries::Server(Seq::from_vec(entries)),
            });
        };
        let more = entries.len();
        let place = (number - 1) as usize;
        let journal = &mut self.tabled.servers[place];
        let behind = put_behind(journal, &mut self.tabled.tables, entries, ahead)?;
        self.spare = None;
        if self.is_much(more) {
            return Ok(());
        }
        let fresh = &self.tabled.servers[place].as_slice()[known..];
        self.spare = follow_server(alloc, behind, number, known, fresh).unwrap_or(None);
        Ok(())
    }

    /// Takes the entries that come next behind those that were pulled of the desk; the tables are then those over all of
    /// them. Answers `Foreign` with the entries where the desk, where its prefix leaves it, would not give them, or where
    /// with them there are fewer than `least`, and `Memory` where memory is refused. At a fault all is as it was.
    pub fn take_desk(
        &mut self,
        alloc: Global,
        entries: Vec<DeskEntry>,
        least: u64,
    ) -> Result<(), PullFault>
        ensures { IsTaken self.old self.new Part.Desk (Entries.Desk entries.items) least result }
    {
        if has_nothing_new(self.desk().len(), entries.len(), least) {
            return Ok(());
        }
        let Some(ahead) = self.ahead_of_desk(alloc, entries.as_slice(), least)? else {
            return Err(PullFault::Foreign {
                part: Part::Desk,
                entries: Entries::Desk(Seq::from_vec(entries)),
            });
        };
        let known = self.tabled.desk.len();
        let more = entries.len();
        let tabled = &mut self.tabled;
        let behind = put_behind(&mut tabled.desk, &mut tabled.tables, entries, ahead)?;
        self.spare = None;
        if self.is_much(more.saturating_mul(DESK)) {
            return Ok(());
        }
        let fresh = &self.tabled.desk.as_slice()[known..];
        self.spare = follow_desk(alloc, behind, fresh).unwrap_or(None);
        Ok(())
    }

    /// Takes entries of the view, as `take_desk` takes those of the desk.
    pub fn take_view(
        &mut self,
        alloc: Global,
        entries: Vec<ViewEntry>,
        least: u64,
    ) -> Result<(), PullFault>
        ensures { IsTaken self.old self.new Part.View (Entries.View entries.items) least result }
    {
        if has_nothing_new(self.view().len(), entries.len(), least) {
            return Ok(());
        }
        let Some(ahead) = self.ahead_of_view(alloc, entries.as_slice(), least)? else {
            return Err(PullFault::Foreign {
                part: Part::View,
                entries: Entries::View(Seq::from_vec(entries)),
            });
        };
        let known = self.tabled.view.len();
        let more = entries.len();
        let tabled = &mut self.tabled;
        let behind = put_behind(&mut tabled.view, &mut tabled.tables, entries, ahead)?;
        self.spare = None;
        if self.is_much(more) {
            return Ok(());
        }
        let fresh = &self.tabled.view.as_slice()[known..];
        self.spare = follow_view(alloc, behind, fresh).unwrap_or(None);
        Ok(())
    }
}

/// Puts the entries behind those of the journal, and the tables ahead in the place of the tables, which are handed back.
/// Out of memory changes nothing.
fn put_behind<E: Drop>(
    journal: &mut Vec<E>,
    tables: &mut Tables,
    entries: Vec<E>,
    ahead: Tables,
) -> Result<Tables, Memory>
    ensures entries { OnOk result (journal.new.items ≡ journal.old.items ++ entries.items) }
    ensures ahead { OnOk result (tables.new ≡ ahead) }
    ensures behind { IfOk result (λ behind. behind ≡ tables.old) }
    ensures same { OnErr result (journal.new.items ≡ journal.old.items) }
    ensures unchanged { OnErr result (tables.new ≡ tables.old) }
{
    let mut next = entries;
    journal.append(&mut next)?;
    Ok(mem::replace(tables, ahead))
}
