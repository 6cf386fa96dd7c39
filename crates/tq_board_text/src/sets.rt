//! The servers of a file's row as text, kept for the rows behind it: neighbours in the list often have the same.
ghost use Rattle.std.specs.Prelude.{◌≡◌, OnOk};
ghost use Rattle.tq_board_text.specs.Board.{Appends, have_same_sets, sets_text};

use crate::word::push_set;
use std::alloc::Global;
use std::marker::Model;
use tq_shape::Memory;
use tq_tables::FileRow;

/// The text of the current and the stale servers of the row that was put last.
#[derive(Drop)]
pub(crate) struct SetsText<'a> {
    row: Option<&'a FileRow>,
    text: String,
}

impl<'a> Model for SetsText<'a> {
    ghost use Rattle.std.specs.Prelude.{string_bytes};
    ghost use Rattle.tq_board_text.specs.Board.{IsTextOf};

    ghost Value = { Unit {0} };

    ghost view = { λ a. tt };

    ghost invariant = { λ a. IsTextOf a.row (string_bytes a.text) };
}

impl<'a> SetsText<'a> {
    ghost use Rattle.std.specs.Prelude.{OnOk};
    ghost use Rattle.tq_board_text.specs.Board.{Appends, sets_text};

    /// That of no row.
    pub(crate) fn new(alloc: Global) -> SetsText<'a> {
        SetsText {
            row: None,
            text: String::new(alloc),
        }
    }

    /// Puts the servers of the row behind the text.
    pub(crate) fn put(&mut self, text: &mut String, row: &'a FileRow) -> Result<(), Memory>
        ensures { OnOk result (Appends text.old text.new (sets_text row.now)) }
    {
        let is_kept = match self.row {
            Some(last) => has_same_sets(last, row),
            None => false,
        };
        if !is_kept {
            self.row = None;
            self.text.clear();
            push_sets(&mut self.text, row)?;
            self.row = Some(row);
        }
        text.push_str(self.text.as_str())
    }
}

/// Puts the servers of the row behind the text.
pub(crate) fn push_sets(text: &mut String, row: &FileRow) -> Result<(), Memory>
    ensures { OnOk result (Appends text.old text.new (sets_text row.now)) }
{
    push_set(text, &row.current)?;
    text.push_str(" stale")?;
    push_set(text, &row.stale)
}

/// Whether both rows have the same current servers, and the same stale ones.
fn has_same_sets(one: &FileRow, other: &FileRow) -> bool
    ensures { result ≡ have_same_sets one.now other.now }
{
    if !one.current.has_numbers_of(&other.current) {
        return false;
    }
    one.stale.has_numbers_of(&other.stale)
}
