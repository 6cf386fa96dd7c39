//! The whole text of a board.

ghost use Rattle.std.specs.Prelude.{◌≡◌, ◌≤◌, IfOk, OnOk, string_bytes};
ghost use Rattle.tq_board_text.specs.Board.{Appends, board_text, row_lines, server_lines};

use crate::line::{push_intent, push_lock, push_next_file, push_server};
use crate::sets::SetsText;
use std::alloc::Global;
use tq_live::{Least, View};
use tq_shape::{Memory, ServerId};
use tq_tables::{FileRow, LockRow, OpenIntents, Tables};

/// The text of the board: the head, a line for each server upwards with its costs and mark in the view, a line for each
/// row of the tables, and the end. The tables and the view are of one tree.
///
/// # Errors
///
/// `Memory` where there is not enough for the text.
pub fn render(alloc: Global, tables: &Tables, view: &View) -> Result<String, Memory>
    requires { view.now.levels ≡ tables.now.levels }
    ensures { IfOk result (λ text. string_bytes text ≡ board_text tables.now view.now) }
{
    let mut text = String::new(alloc);
    text.reserve(room_of(tables))?;
    writeln!(text, "board levels {}", tables.levels().count())?;
    push_server_lines(alloc, &mut text, tables, view)?;
    let locks = tables.locks(alloc)?;
    push_rows(
        alloc,
        &mut text,
        tables.files(),
        locks.as_slice(),
        tables.open_intents(),
    )?;
    text.push_str("end\n")?;
    Ok(text)
}

/// Room for the text, so that it is not moved as it grows: 128 bytes a server, and for each file 64 and a number of each
/// server with a space before it. Few texts take more.
fn room_of(tables: &Tables) -> usize {
    let servers = tables.levels().servers() as usize;
    let file = 64 + number_width(servers) * servers;
    tables
        .files()
        .len()
        .saturating_mul(file)
        .saturating_add(128 * servers)
}

/// How many bytes the greatest number of so many servers takes with a space before it.
fn number_width(servers: usize) -> usize
    ensures { result ≤ 5 }
{
    if servers < 100 {
        return 3;
    }
    if servers < 1000 { 4 } else { 5 }
}

/// Puts a line for each server upwards behind the text.
fn push_server_lines(
    alloc: Global,
    text: &mut String,
    tables: &Tables,
    view: &View,
) -> Result<(), Memory>
    requires { view.now.levels ≡ tables.now.levels }
    ensures { OnOk result (Appends text.old text.new (server_lines tables.now view.now)) }
{
    let levels = tables.levels();
    let mut room = Least::new(alloc, levels)?;
    let past = levels.servers() + 1;
    for number in 1..past {
        let server = ServerId::new(levels, number);
        push_server(text, tables, view.tree(), server, &mut room)?;
    }
    Ok(())
}

/// Puts a line for each file, for each lock and for each open intention behind the text.
pub fn push_rows(
    alloc: Global,
    text: &mut String,
    files: &[FileRow],
    locks: &[LockRow],
    intentions: OpenIntents<'_>,
) -> Result<(), Memory>
    ensures { OnOk result
        (Appends text.old text.new (row_lines files.now locks.now intentions.entry)) }
{
    let mut sets = SetsText::new(alloc);
    for row in files {
        push_next_file(text, row, &mut sets)?;
    }
    for lock in locks {
        push_lock(text, lock)?;
    }
    for intent in intentions {
        push_intent(text, &intent)?;
    }
    Ok(())
}
