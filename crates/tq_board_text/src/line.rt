//! One line of the board for each kind of row.

ghost use Rattle.std.specs.Prelude.{◌≡◌, OnOk};
ghost use Rattle.tq_tables.specs.Rows.{least_in, lent_row};
ghost use Rattle.tq_board_text.specs.Board.{Appends, as_line, costs_text, file_text, intent_text, least_text, leasts_text, lock_text, row_of, server_line, version_text};

use crate::sets::{SetsText, push_sets};
use crate::word::{mark_word, push_set, push_writes, state_word};
use tq_live::{Costs, Least, LiveTree, Purpose};
use tq_shape::{Memory, ServerId};
use tq_tables::{FileRow, LockRow, OpenIntent, Tables};

/// Puts the line of a server of the tree behind the text, with the least quorums of its subtree to read from and to write
/// to. One after another these are written into the room, so that no memory is taken for them.
pub fn push_server(
    text: &mut String,
    tables: &Tables,
    tree: &LiveTree,
    server: ServerId,
    room: &mut Least,
) -> Result<(), Memory>
    requires server { server.levels ≡ tree.now.levels }
    requires tables { tables.now.levels ≡ tree.now.levels }
    requires room { room.old.servers.levels ≡ tree.now.levels }
    ensures text { OnOk result
        (Appends text.old text.new (server_line tables.now tree.now server.number)) }
    ensures room { room.new.servers.levels ≡ room.old.servers.levels }
{
    let mark = mark_word(tree.is_up(server));
    push_costs(text, server.number(), tree.costs(server))?;
    write!(text, " {mark}")?;
    push_leasts(text, tables, server, room)?;
    text.push_str("\n")
}

/// Puts the number of a server and its costs behind the text.
fn push_costs(text: &mut String, server: u64, costs: Costs) -> Result<(), Memory>
    ensures { OnOk result (Appends text.old text.new (costs_text server costs)) }
{
    write!(text, "server {server} cost {} {}", costs.read, costs.write)
}

/// Puts the least quorums of a server's subtree to read from and to write to behind the text.
fn push_leasts(
    text: &mut String,
    tables: &Tables,
    server: ServerId,
    room: &mut Least,
) -> Result<(), Memory>
    requires server { server.levels ≡ tables.now.levels }
    requires room { room.old.servers.levels ≡ tables.now.levels }
    ensures text { OnOk result
        (Appends text.old text.new (leasts_text (row_of tables.now server.number))) }
    ensures room { room.new.servers.levels ≡ room.old.servers.levels }
{
    text.push_str(" read ")?;
    push_least(text, tables, Purpose::Read, server, room)?;
    text.push_str(" write ")?;
    push_least(text, tables, Purpose::Write, server, room)
}

/// Puts the cost and the servers of the least quorum of a server's subtree for the purpose behind the text, or `none` where
/// there is none.
fn push_least(
    text: &mut String,
    tables: &Tables,
    purpose: Purpose,
    server: ServerId,
    room: &mut Least,
) -> Result<(), Memory>
    requires server { server.levels ≡ tables.now.levels }
    requires room { room.old.servers.levels ≡ tables.now.levels }
    ensures text { OnOk result
        (Appends text.old text.new
        (least_text (least_in tables.now.quorums purpose server.number))) }
    ensures room { room.new.servers.levels ≡ room.old.servers.levels }
{
    if !tables.least_into(purpose, server, room) {
        return text.push_str("none");
    }
    write!(text, "{} by", room.cost)?;
    push_set(text, &room.servers)
}

/// Puts the line of a file behind the text.
pub fn push_file(text: &mut String, row: &FileRow) -> Result<(), Memory>
    ensures { OnOk result (Appends text.old text.new (as_line (file_text row.now))) }
{
    push_version(text, row)?;
    push_sets(text, row)?;
    text.push_str("\n")
}

/// The same, where the text of the servers of a row before it is kept.
pub(crate) fn push_next_file<'a>(
    text: &mut String,
    row: &'a FileRow,
    sets: &mut SetsText<'a>,
) -> Result<(), Memory>
    ensures { OnOk result (Appends text.old text.new (as_line (file_text row.now))) }
{
    push_version(text, row)?;
    sets.put(text, row)?;
    text.push_str("\n")
}

/// Puts the line of a file as far as its servers behind the text.
fn push_version(text: &mut String, row: &FileRow) -> Result<(), Memory>
    ensures { OnOk result (Appends text.old text.new (version_text row.now)) }
{
    write!(text, "file {} version {} current", row.file, row.version)
}

/// Puts the line of a lock behind the text.
pub fn push_lock(text: &mut String, row: &LockRow) -> Result<(), Memory>
    ensures { OnOk result (Appends text.old text.new (as_line (lock_text row.now))) }
{
    let mode = row.mode.word();
    write!(
        text,
        "lock {} {} {} {mode}",
        row.server.number(),
        row.file,
        row.txn
    )?;
    writeln!(text, " since {} version {}", row.since, row.version)
}

/// Puts the line of an open intention behind the text.
pub fn push_intent(text: &mut String, intent: &OpenIntent<'_>) -> Result<(), Memory>
    ensures { OnOk result
        (Appends text.old text.new (as_line (intent_text (lent_row intent.now)))) }
{
    let state = state_word(intent.state);
    write!(
        text,
        "intent {} {} number {} {state}",
        intent.server.number(),
        intent.txn,
        intent.number
    )?;
    push_writes(text, intent.writes)?;
    text.push_str("\n")
}
