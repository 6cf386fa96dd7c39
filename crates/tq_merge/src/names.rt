//! The names of what a caller was told.

ghost use Rattle.std.specs.{Prelude.{◌≡◌, IfOk}, Option.option_to_list};
ghost use Rattle.tq_merge.specs.Told as spec;
ghost use Rattle.tq_merge.specs.Told.{AreNames};

use crate::claimed::EntryName;
use crate::told_stands::stands;
use std::alloc::Global;
use tq_shape::{Memory, Part};
use tq_tables::Journals;
use tq_txn::Exchange;

/// The names of the entries that a caller was told of, or the first of which it was told what does not stand there.
#[derive(Drop)]
pub(crate) enum Names {
    Stand(Vec<EntryName>),
    Stray(EntryName),
}

/// The name of the entry that is told of; none where the ask was not taken.
fn name_in(exchange: &Exchange) -> Option<EntryName>
    ensures { option_to_list result ≡ spec.names_in exchange.now }
{
    match exchange {
        Exchange::Node { server, answer, .. } => match answer {
            Ok(told) => Some(EntryName {
                part: Part::Server(*server),
                number: told.number,
            }),
            Err(_) => None,
        },
        Exchange::Desk { answer, .. } => match answer {
            Ok(told) => Some(EntryName {
                part: Part::Desk,
                number: told.number,
            }),
            Err(_) => None,
        },
        Exchange::View { answer, .. } => match answer {
            Ok(told) => Some(EntryName {
                part: Part::View,
                number: told.number,
            }),
            Err(_) => None,
        },
    }
}

/// The names of the entries that a caller was told of, in the order of its asks.
pub(crate) fn names_told(
    alloc: Global,
    journals: &Journals,
    told: &[Exchange],
) -> Result<Names, Memory>
    ensures { IfOk result (AreNames journals.now told.now) }
{
    let mut names = Vec::with_capacity(alloc, told.len())?;
    for exchange in told {
        let Some(name) = name_in(exchange) else {
            continue;
        };
        if !stands(journals, exchange) {
            return Ok(Names::Stray(name));
        }
        names.push(name)?;
    }
    Ok(Names::Stand(names))
}
