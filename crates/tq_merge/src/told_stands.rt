//! Whether what was told stands in the journals.

ghost use Rattle.std.specs.{Prelude.{◌≡◌, ◌↔◌, IsTrue, Some}, Option.option_copied};
ghost use Rattle.tq_shape.specs.Journal.{entry};
ghost use Rattle.tq_merge.specs.Told.{Stands};

use tq_core::{CitedEntries, item_at};
use tq_shape::Entry;
use tq_tables::{Journals, Same};
use tq_txn::Exchange;

/// Whether there is an entry, with this ask and this reply.
fn is_entry<A: Same, R: Same>(found: Option<&Entry<A, R>>, ask: &A, reply: &R) -> bool
    ensures { IsTrue result ↔ (option_copied found.entry ≡ Some (entry ask.now reply.now)) }
{
    let Some(there) = found else {
        return false;
    };
    if !there.ask.is_same(ask) {
        return false;
    }
    there.reply.is_same(reply)
}

/// Whether what was told stands in the journal of its part, under its number.
pub(crate) fn stands(journals: &Journals, exchange: &Exchange) -> bool
    ensures { IsTrue result ↔ Stands journals.now exchange.now }
{
    match exchange {
        Exchange::Node {
            server,
            ask,
            answer,
        } => match answer {
            Ok(told) => is_entry(
                journals.server_entry(*server, told.number),
                ask,
                &told.reply,
            ),
            Err(_) => true,
        },
        Exchange::Desk { ask, answer } => match answer {
            Ok(told) => is_entry(journals.desk_entry(told.number), ask, &told.reply),
            Err(_) => true,
        },
        Exchange::View { ask, answer } => match answer {
            Ok(told) => is_entry(item_at(journals.view(), told.number), ask, &told.reply),
            Err(_) => true,
        },
    }
}
