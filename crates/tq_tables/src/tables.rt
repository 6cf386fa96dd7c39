//! The tables of a system.

ghost use Rattle.std.specs.Prelude.{◌≡◌, ◌+◌, ◌^◌, ◌↔◌, true, Some, None, length, IsTrue, IfOk, IsOk, OnOk, OnErr};
ghost use Rattle.std.specs.{Bool.OnFalse, List.All};
ghost use Rattle.tq_live.specs.{Live.Live, View.view_after};
ghost use Rattle.tq_tables.specs.Tables.{FollowsDesk, FollowsNode, FollowsView, MayAskDesk, MayAskNode, desk_replies, node_replies, view_replies, TablesView};
ghost use Rattle.tq_tables.specs.Reserved.{IsReserve, ready_entry, reserved_entry};
ghost use Rattle.tq_tables.specs.Files as spec;

use crate::file_rows::rows_written;
use crate::file_table::FileTable;
use crate::followed::Followed;
use crate::holders::Holders;
use crate::intent_rows::{OpenIntents, intent_rows};
use crate::lock_rows::lock_rows;
use crate::parts::{Parts, Replies, twice};
use crate::quorum_rows::{least_into, quorum_rows};
use crate::ready_entry::{Ready, ReadyEntry};
use crate::{FileRow, IntentRow, Journals, LockRow, PartEntry, QuorumRow};
use std::alloc::Global;
use std::marker::Model;
use tq_asks::{NodeAsk, NodeReply};
use tq_desk::{ByRules, Desk, DeskAsk, DeskReply, Judge, Op};
use tq_live::{Least, Purpose, View, ViewAsk, ViewReply};
use tq_node::{Node, Telling};
use tq_shape::{Levels, Limits, Memory, Part, ServerId};

/// The servers, the desk and the view that the tables follow, and rows that say how these stand: the least quorum of
/// each subtree, the files that commits wrote, the locks that are held, and the votes that are open.
///
/// The rows of files are kept, and an ask changes only those of the files that it is about. The other rows are read
/// off the parts, which keep them in order: the best of each subtree, the lock tables, and the open votes.
///
/// A note of an entry may be reserved: what is followed after it is kept beside then, and a note takes this.
pub struct Tables {
    followed: Followed,
    ready: Option<Box<Ready>>,
}

// Written out, so that a crate above lets go of one by a call.
impl Drop for Tables {
    fn drop(self) {
        let Self {
            followed: _,
            ready: _,
        } = self;
    }
}

impl Model for Tables {
    ghost use Rattle.tq_intents.specs.contracts.record.Record as record_type;
    ghost use Rattle.tq_intents.specs.contracts.record.OpenVote as vote_type;
    ghost use Rattle.tq_asks.specs.contracts.ask.Verdict as verdict_type;
    ghost use Rattle.tq_tables.specs.contracts.quorum_rows.QuorumRow as quorum_type;
    ghost use Rattle.tq_tables.specs.contracts.file_row.FileRow as file_type;
    ghost use Rattle.tq_tables.specs.contracts.lock_rows.LockRow as lock_type;
    ghost use Rattle.tq_tables.specs.contracts.intent_rows.IntentRow as intent_type;
    ghost use Rattle.tq_tables.specs.contracts.ready_entry.ReadyEntry as ready_type;
    ghost use Rattle.tq_tables.specs.Reserved.{AreFollowed, IsReserve, reserved_entry, tables_in, with_ready};
    ghost use Rattle.tq_tables.specs.Tables.{TablesView, tables_code};

    ghost Value = { TablesView };

    ghost coded = { tables_code
        record_type.the_row.coded vote_type.the_row.coded verdict_type.the_row.coded
        quorum_type.the_row.coded file_type.the_row.coded lock_type.the_row.coded
        intent_type.the_row.coded ready_type.the_row.coded };

    ghost view = { λ a. with_ready (tables_in a.followed) (reserved_entry a.ready) };

    ghost invariant = { λ a. AreFollowed a.followed × IsReserve (tables_in a.followed) a.ready };
}

impl Tables {
    ghost use Rattle.tq_tables.specs.{Tables.{FollowsEntry, IsNextEntry, tables_of}, Journals.no_entries};
    ghost use Rattle.tq_tables.specs.{Parts.AreLegal, Rows.{row_if, least_in}};
    ghost use Rattle.tq_tables.specs.Reserved.{AreFollowed, IsReadyFor, LeadsTo, ask_of, tables_in, unready};

    /// The tables of a system that was asked nothing.
    pub fn new(alloc: Global, levels: Levels, limits: Limits) -> Result<Tables, Memory>
        ensures { IfOk result (λ tables. tables ≡ tables_of (no_entries levels limits)) }
    {
        let parts = Parts::new(alloc, levels, limits)?;
        let holders = Holders::new(alloc, levels, parts.nodes())?;
        let parts = Box::new(alloc, parts)?;
        let files = Box::new(alloc, FileTable::new(alloc, levels))?;
        let holders = Box::new(alloc, holders)?;
        Ok(Tables {
            followed: Followed {
                parts,
                files,
                holders,
            },
            ready: None,
        })
    }

    /// The tables of these journals, which are legal: each reply is the one that its part gives there. Each part is asked
    /// again what its journal has, the desk before the servers, so that no commit looks at a server's copies.
    pub fn of(alloc: Global, journals: &Journals) -> Result<Tables, Memory>
        requires { AreLegal journals.now }
        ensures { IfOk result (λ tables. tables ≡ tables_of journals.now) }
    {
        let servers = journals.servers();
        let mut tables = Tables::new(alloc, journals.levels(), journals.limits())?;
        for view_entry in journals.view() {
            tables.follow_view(alloc, &view_entry.ask)?;
        }
        for desk_entry in journals.desk() {
            tables.ask_desk::<ByRules>(alloc, &desk_entry.ask)?;
        }
        let mut server = 0;
        for entries in servers {
            server += 1;
            let mut number = 0;
            for entry in entries.as_slice() {
                number += 1;
                tables.ask_node(alloc, server, number, &entry.ask)?;
            }
        }
        Ok(tables)
    }

    /// Equal tables, with memory of their own: what is reserved is reserved there too.
    pub fn copy(&self, alloc: Global) -> Result<Tables, Memory>
        ensures { IfOk result (λ copy. copy ≡ self.now) }
    {
        let followed = self.followed.copy(alloc)?;
        let ready = copy_ready(alloc, &self.ready)?;
        Ok(Tables { followed, ready })
    }

    /// Asks the server, under the number of the next entry of its journal. Only the rows of the files change whose copies
    /// the ask changed there, and in each that server alone. Out of memory leaves the tables as they were.
    #[inline(always)]
    pub fn ask_node(
        &mut self,
        alloc: Global,
        server: u64,
        number: u64,
        ask: &NodeAsk,
    ) -> Result<Replies<NodeReply>, Memory>
        requires { MayAskNode self.old server number }
        ensures replies { IfOk result (λ replies. replies
            ≡ node_replies self.old.nodes server ask.now) }
        ensures asked { OnOk result (FollowsNode self.old self.new server ask.now) }
        ensures unchanged { OnErr result (self.new ≡ self.old) }
    {
        let parts: &mut Parts = &mut self.followed.parts;
        let files: &mut FileTable = &mut self.followed.files;
        let holders: &mut Holders = &mut self.followed.holders;
        let Telling {
            entered,
            told,
            raised,
        } = parts.ask_node(alloc, server, number, ask)?;
        let node = parts.node(server);
        let found = files.set_currency_of_raised(node, ask, &raised);
        holders.hold(node.server(), found);
        Ok(Replies { entered, told })
    }

    /// Asks the view. No row of files changes, and nothing is reserved any more. Out of memory leaves the tables as they
    /// were, and what is reserved too.
    #[inline(always)]
    pub fn ask_view(&mut self, alloc: Global, ask: &ViewAsk) -> Result<Replies<ViewReply>, Memory>
        ensures replies { IfOk result (λ replies. replies ≡ view_replies self.old.view ask.now) }
        ensures asked { OnOk result (FollowsView (unready self.old) self.new ask.now) }
        ensures unchanged { OnErr result (self.new ≡ self.old) }
    {
        let parts: &mut Parts = &mut self.followed.parts;
        let replies = parts.ask_view(alloc, ask)?;
        self.ready = None;
        Ok(replies)
    }

    /// Asks the desk; of a commit the evidence is judged by `J`. Only the rows of the files change that a commit writes. All
    /// memory is taken before the first change, so that out of memory leaves the tables as they were.
    #[inline(always)]
    pub fn ask_desk<J: Judge>(
        &mut self,
        alloc: Global,
        ask: &DeskAsk,
    ) -> Result<Replies<DeskReply>, Memory>
        requires next { MayAskDesk self.old }
        requires judged { J.takes self.old.desk.levels ask.now }
        ensures replies { IfOk result (λ replies. replies ≡ desk_replies self.old.desk ask.now) }
        ensures asked { OnOk result (FollowsDesk self.old self.new ask.now) }
        ensures unchanged { OnErr result (self.new ≡ self.old) }
    {
        let parts: &mut Parts = &mut self.followed.parts;
        let files: &mut FileTable = &mut self.followed.files;
        let plan = parts.desk().plan::<J>(alloc, ask)?;
        let change = plan.change;
        let replies = twice::<Desk>(alloc, plan.reply)?;
        let ops = committed_ops(ask, &replies.entered);
        let rows = rows_written(alloc, parts.nodes(), &self.followed.holders, files, ops)?;
        files.reserve(rows.len())?;
        parts.change_desk(change)?;
        files.put_all(rows);
        Ok(replies)
    }

    /// Reserves what a note of this entry, of that number, takes: a `note` of it directly after this does not fail. The
    /// tables stay as they are. What was reserved before is not any more. While an entry is reserved no server is asked,
    /// nor the desk: the next thing is a `note`. It costs as much as `copy`, and holds as much memory as a copy until
    /// then. Out of memory changes nothing.
    pub fn reserve(
        &mut self,
        alloc: Global,
        part: Part,
        number: u64,
        entry: &PartEntry<'_>,
    ) -> Result<(), Memory>
        requires { IsNextEntry (unready self.old) part number entry.now }
        ensures same { unready self.new ≡ unready self.old }
        ensures ready { OnOk result (IsReadyFor self.new part number entry.now) }
        ensures unchanged { OnErr result (self.new ≡ self.old) }
    {
        let followed = self.followed.copy(alloc)?;
        let mut tables = Tables {
            followed,
            ready: None,
        };
        tables.follow(alloc, part, number, entry)?;
        let after = tables.into_followed();
        let entry = ReadyEntry::of(part, number, entry)?;
        self.ready = Some(Box::new(alloc, Ready { entry, after })?);
        Ok(())
    }

    /// Follows the entry, of that number, that the part's journal got next. Only the rows of the files change that the
    /// entry is about. It takes no memory, and does not fail, where this entry is reserved. Then nothing is reserved any
    /// more. Out of memory leaves the tables as they were, and what is reserved too.
    pub fn note(
        &mut self,
        alloc: Global,
        part: Part,
        number: u64,
        entry: &PartEntry<'_>,
    ) -> Result<(), Memory>
        requires { IsNextEntry (unready self.old) part number entry.now }
        ensures noted { OnOk result (FollowsEntry (unready self.old) self.new part entry.now) }
        ensures unchanged { OnErr result (self.new ≡ self.old) }
        ensures reserved { IsReadyFor self.old part number entry.now → IsOk result }
    {
        let ready = self.ready.take();
        if is_ready(&ready, part, number, entry) {
            match ready {
                Some(ready) => self.followed = Box::into_inner(ready).into_after(),
                None => unreachable!(),
            }
            return Ok(());
        }
        match self.follow(alloc, part, number, entry) {
            Ok(()) => Ok(()),
            Err(fault) => {
                self.ready = ready;
                Err(fault)
            }
        }
    }

    /// The same where nothing is reserved.
    fn follow(
        &mut self,
        alloc: Global,
        part: Part,
        number: u64,
        entry: &PartEntry<'_>,
    ) -> Result<(), Memory>
        requires { IsNextEntry self.old part number entry.now }
        ensures noted { OnOk result (LeadsTo self.old self.new part (ask_of entry.now)) }
        ensures unchanged { OnErr result (self.new ≡ self.old) }
    {
        match part {
            Part::Server(server) => match entry {
                PartEntry::Server(entry) => {
                    self.ask_node(alloc, server, number, &entry.ask)?;
                }
                PartEntry::Desk(_) | PartEntry::View(_) => unreachable!(),
            },
            Part::Desk => match entry {
                PartEntry::Desk(entry) => {
                    self.ask_desk::<ByRules>(alloc, &entry.ask)?;
                }
                PartEntry::Server(_) | PartEntry::View(_) => unreachable!(),
            },
            Part::View => match entry {
                PartEntry::View(entry) => self.follow_view(alloc, &entry.ask)?,
                PartEntry::Server(_) | PartEntry::Desk(_) => unreachable!(),
            },
        }
        Ok(())
    }

    /// The same of an ask of the view.
    fn follow_view(&mut self, alloc: Global, ask: &ViewAsk) -> Result<(), Memory>
        ensures noted { OnOk result (FollowsView self.old self.new ask.now) }
        ensures unchanged { OnErr result (self.new ≡ self.old) }
    {
        if changes_nothing(ask) {
            return Ok(());
        }
        self.ask_view(alloc, ask)?;
        Ok(())
    }

    /// What the tables follow.
    fn into_followed(self) -> Followed
        ensures value { tables_in result ≡ unready self }
        ensures followed { AreFollowed result }
    {
        let Self { followed, ready: _ } = self;
        followed
    }

    /// How many levels the tree of servers has.
    pub fn levels(&self) -> Levels
        ensures value { result ≡ self.now.levels }
        ensures followed { self.now.view.levels ≡ result }
    {
        self.followed.parts.levels()
    }

    /// The servers that the tables follow, upwards from server 1.
    pub fn nodes(&self) -> &[Node]
        ensures { result.now ≡ self.now.nodes }
    {
        self.followed.parts.nodes()
    }

    /// The desk that the tables follow.
    pub fn desk(&self) -> &Desk
        ensures { result.now ≡ self.now.desk }
    {
        self.followed.parts.desk()
    }

    /// The view that the tables follow.
    pub fn view(&self) -> &View
        ensures value { result.now ≡ self.now.view }
        ensures followed { result.now.levels ≡ self.now.levels }
    {
        self.followed.parts.view()
    }

    /// For each server, upwards from server 1, the first quorums of least cost of its subtree among those that are up, to
    /// read from and to write to; none where none is up. They are read off the view's tree.
    pub fn quorums(&self, alloc: Global) -> Result<Vec<QuorumRow>, Memory>
        ensures value { IfOk result (λ rows. rows.items ≡ self.now.quorums) }
        ensures one_each { IfOk result (λ rows. length rows.items + 1 ≡ 2 ^ self.now.levels) }
    {
        let rows = quorum_rows(alloc, self.followed.parts.view().tree())?;
        Ok(rows)
    }

    /// Writes the least quorum of the server's subtree for the purpose, as the row of the server has it, into the row that is
    /// given and answers true. Where there is none, that row stays and the answer is false. It takes no memory. The server is
    /// one of this tree, and the row one for such a tree.
    pub fn least_into(&self, purpose: Purpose, server: ServerId, row: &mut Least) -> bool
        requires server { server.levels ≡ self.now.levels }
        requires row { row.old.servers.levels ≡ self.now.levels }
        ensures least { row_if result row.new ≡ least_in self.now.quorums purpose server.number }
        ensures stays { OnFalse result (row.new ≡ row.old) }
        ensures tree { row.new.servers.levels ≡ self.now.levels }
    {
        let _within = server.number();
        least_into(self.followed.parts.view().tree(), purpose, server, row)
    }

    /// The files that commits wrote, in the order of the first such commit, and within one commit ascending by name.
    pub fn files(&self) -> &[FileRow]
        ensures value { result.now ≡ self.now.files }
        ensures of_tree { All (λ row. (row.current.levels ≡ self.now.levels)
            × (row.stale.levels ≡ self.now.levels)) result.now }
    {
        let _parts = &self.followed.parts;
        self.followed.files.rows()
    }

    /// The locks that are held, ascending by server, file and transaction. They are read off the servers.
    pub fn locks(&self, alloc: Global) -> Result<Vec<LockRow>, Memory>
        ensures { IfOk result (λ rows. rows.items ≡ self.now.locks) }
    {
        lock_rows(alloc, self.followed.parts.nodes())
    }

    /// The votes that are open, ascending by server and transaction. They are read off the servers and the desk.
    pub fn intentions(&self, alloc: Global) -> Result<Vec<IntentRow>, Memory>
        ensures { IfOk result (λ rows. rows.items ≡ self.now.intentions) }
    {
        intent_rows(
            alloc,
            self.followed.parts.nodes(),
            self.followed.parts.desk(),
        )
    }

    /// The same, one after another, each with its writes as they are kept. It takes no memory.
    pub fn open_intents(&self) -> OpenIntents<'_>
        ensures { result ≡ self.now.intentions }
    {
        OpenIntents::over(self.followed.parts.nodes(), self.followed.parts.desk())
    }
}

/// What is reserved, with tables of its own memory.
fn copy_ready(alloc: Global, ready: &Option<Box<Ready>>) -> Result<Option<Box<Ready>>, Memory>
    ensures entry { IfOk result (λ copy. reserved_entry copy ≡ reserved_entry ready.now) }
    ensures after { IfOk result (λ copy.
        (old : TablesView) → IsReserve old ready.now → IsReserve old copy) }
{
    match ready {
        Some(ready) => Ok(Some(Box::new(alloc, ready.copy(alloc)?)?)),
        None => Ok(None),
    }
}

/// Whether this entry of the part, of that number, is reserved.
fn is_ready(ready: &Option<Box<Ready>>, part: Part, number: u64, entry: &PartEntry<'_>) -> bool
    ensures { IsTrue result
        ↔ (reserved_entry ready.now ≡ Some (ready_entry part number entry.now)) }
{
    match ready {
        Some(ready) => ready.entry.is_for(part, number, entry),
        None => false,
    }
}

/// Whether the ask leaves costs and marks as they are, whatever they are.
fn changes_nothing(ask: &ViewAsk) -> bool
    ensures { result ≡ true → (live : Live) → view_after live ask.now ≡ live }
{
    matches!(ask, ViewAsk::Choose { .. })
}

/// The ops of the commit that the desk replied to so, none where it replied otherwise.
fn committed_ops<'a>(ask: &'a DeskAsk, reply: &DeskReply) -> &'a [Op]
    ensures { result.now ≡ spec.committed_ops ask.now reply.now }
{
    match ask {
        DeskAsk::Commit { ops, .. } => match reply {
            DeskReply::Committed { .. } => ops.as_slice(),
            _ => &[],
        },
        _ => &[],
    }
}
