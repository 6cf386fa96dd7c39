//! Entries of any part as steps with replies.

ghost use Rattle.std.specs.Prelude.{◌≡◌, IfOk};
ghost use Rattle.tq_merge.specs.Told.{found_at, node_found, desk_found, view_found};

use crate::claimed::EntryName;
use tq_core::{CitedEntries, Reply, Step, item_at};
use tq_shape::{Entry, Memory, Part};
use tq_tables::{DeskEntry, Journals, NodeEntry, ViewEntry};

/// An entry of a server, whose part its ask and its reply name.
fn of_server(server: u64, entry: &NodeEntry) -> Result<Entry<Step, Reply>, Memory>
    ensures { IfOk result (λ found. found ≡ node_found server entry.now) }
{
    let ask = entry.ask.clone()?;
    let reply = entry.reply.clone()?;
    Ok(Entry {
        ask: Step::Node { server, ask },
        reply: Reply::Node(reply),
    })
}

/// An entry of the desk, as one of a server.
fn of_desk(entry: &DeskEntry) -> Result<Entry<Step, Reply>, Memory>
    ensures { IfOk result (λ found. found ≡ desk_found entry.now) }
{
    let ask = entry.ask.clone()?;
    let reply = entry.reply.clone()?;
    Ok(Entry {
        ask: Step::Desk(ask),
        reply: Reply::Desk(reply),
    })
}

/// An entry of the view, as one of a server.
fn of_view(entry: &ViewEntry) -> Result<Entry<Step, Reply>, Memory>
    ensures { IfOk result (λ found. found ≡ view_found entry.now) }
{
    let reply = entry.reply.clone()?;
    Ok(Entry {
        ask: Step::View(entry.ask),
        reply: Reply::View(reply),
    })
}

/// The entry of that name, if there is one. Answers an error only where memory is refused.
pub fn found(journals: &Journals, name: EntryName) -> Result<Option<Entry<Step, Reply>>, Memory>
    ensures { IfOk result (λ found. found ≡ found_at journals.now name.part name.number) }
{
    let EntryName { part, number } = name;
    match part {
        Part::Server(server) => match journals.server_entry(server, number) {
            Some(entry) => Ok(Some(of_server(server, entry)?)),
            None => Ok(None),
        },
        Part::Desk => match journals.desk_entry(number) {
            Some(entry) => Ok(Some(of_desk(entry)?)),
            None => Ok(None),
        },
        Part::View => match item_at(journals.view(), number) {
            Some(entry) => Ok(Some(of_view(entry)?)),
            None => Ok(None),
        },
    }
}
