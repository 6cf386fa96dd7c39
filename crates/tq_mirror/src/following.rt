//! The tables as they stand once a part was asked what further entries of its journal ask.
ghost use Rattle.std.specs.Prelude.{◌≡◌, ◌+◌, ◌<◌, ◌≤◌, ◌^◌, ◌↔◌, length, IsTrue, IfOk, MatchOption};
ghost use Rattle.tq_shape.specs.Tree.{IsServer};
ghost use Rattle.tq_tables.specs.Journals.{JournalsView};
ghost use Rattle.tq_mirror.specs.Prefixes.{AreAhead, AreKept, AreLed, DeskMayFollow, ServerMayFollow, IsForeign, server_prefix};

use crate::entries::Entries;
use crate::prefixes::Prefixes;
use std::alloc::Global;
use tq_desk::ByRules;
use tq_shape::{Memory, Part};
use tq_tables::{DeskEntry, NodeEntry, Same, Tables, ViewEntry};

impl Prefixes {
    /// The tables once the server of that number was asked what these entries ask, as `ahead_of_desk` those of the desk.
    pub(crate) fn ahead_of_server(
        &mut self,
        alloc: Global,
        number: u64,
        entries: &[NodeEntry],
        least: u64,
    ) -> Result<Option<Tables>, Memory>
        requires there { IsServer self.old.levels number }
        requires few { length (server_prefix self.old number) + length entries.now < 2 ^ 64 }
        ensures same { self.new ≡ self.old }
        ensures ahead { IfOk result (λ found. MatchOption found
            (IsForeign self.old (Part.Server number) (Entries.Server entries.now) least)
            (λ ahead. AreAhead ahead self.old
            (Part.Server number) (Entries.Server entries.now) least)) }
    {
        let known = self.server(number).len();
        if are_few(known, entries.len(), least) {
            return Ok(None);
        }
        let spare = self.take_spare(alloc)?;
        let found = follow_server(alloc, spare, number, known, entries)?;
        Ok(found)
    }

    /// The spare tables once the desk was asked what these entries ask; none where it would not give one of them, or where
    /// with them there are fewer than `least`. There may be no spare tables then. Answers an error only where memory is
    /// refused.
    pub(crate) fn ahead_of_desk(
        &mut self,
        alloc: Global,
        entries: &[DeskEntry],
        least: u64,
    ) -> Result<Option<Tables>, Memory>
        requires { length self.old.desk + length entries.now < 2 ^ 64 }
        ensures same { self.new ≡ self.old }
        ensures ahead { IfOk result (λ found. MatchOption found
            (IsForeign self.old Part.Desk (Entries.Desk entries.now) least)
            (λ ahead. AreAhead ahead self.old Part.Desk (Entries.Desk entries.now) least)) }
    {
        if are_few(self.desk().len(), entries.len(), least) {
            return Ok(None);
        }
        let spare = self.take_spare(alloc)?;
        let found = follow_desk(alloc, spare, entries)?;
        Ok(found)
    }

    /// The spare tables once the view was asked what these entries ask, as `ahead_of_desk` those of the desk.
    pub(crate) fn ahead_of_view(
        &mut self,
        alloc: Global,
        entries: &[ViewEntry],
        least: u64,
    ) -> Result<Option<Tables>, Memory>
        ensures same { self.new ≡ self.old }
        ensures ahead { IfOk result (λ found. MatchOption found
            (IsForeign self.old Part.View (Entries.View entries.now) least)
            (λ ahead. AreAhead ahead self.old Part.View (Entries.View entries.now) least)) }
    {
        if are_few(self.view().len(), entries.len(), least) {
            return Ok(None);
        }
        let spare = self.take_spare(alloc)?;
        let found = follow_view(alloc, spare, entries)?;
        Ok(found)
    }
}

/// The tables, over prefixes that have so many entries of the server of that number, once it was asked what these entries
/// ask, as `follow_desk` those of the desk.
pub(crate) fn follow_server(
    alloc: Global,
    tables: Tables,
    number: u64,
    known: usize,
    entries: &[NodeEntry],
) -> Result<Option<Tables>, Memory>
    requires { ServerMayFollow tables number known (length entries.now) }
    ensures { IfOk result (λ found. (prefixes : JournalsView) → AreKept tables prefixes
        → IsServer prefixes.levels number → known ≡ length (server_prefix prefixes number)
        → AreLed found prefixes (Part.Server number) (Entries.Server entries.now)) }
{
    let mut ahead = tables;
    let mut next = known as u64;
    for entry in entries {
        next += 1;
        let replies = ahead.ask_node(alloc, number, next, &entry.ask)?;
        if !replies.told.is_same(&entry.reply) {
            return Ok(None);
        }
    }
    Ok(Some(ahead))
}

/// The tables once the desk was asked what these entries ask; none where it would not give one of them. Answers an error
/// only where memory is refused.
pub(crate) fn follow_desk(
    alloc: Global,
    tables: Tables,
    entries: &[DeskEntry],
) -> Result<Option<Tables>, Memory>
    requires { DeskMayFollow tables (length entries.now) }
    ensures { IfOk result (λ found. (prefixes : JournalsView) → AreKept tables prefixes
        → AreLed found prefixes Part.Desk (Entries.Desk entries.now)) }
{
    let mut ahead = tables;
    for entry in entries {
        let replies = ahead.ask_desk::<ByRules>(alloc, &entry.ask)?;
        if !replies.told.is_same(&entry.reply) {
            return Ok(None);
        }
    }
    Ok(Some(ahead))
}

/// The tables once the view was asked what these entries ask, as `follow_desk` those of the desk.
pub(crate) fn follow_view(
    alloc: Global,
    tables: Tables,
    entries: &[ViewEntry],
) -> Result<Option<Tables>, Memory>
    ensures { IfOk result (λ found. (prefixes : JournalsView) → AreKept tables prefixes
        → AreLed found prefixes Part.View (Entries.View entries.now)) }
{
    let mut ahead = tables;
    for entry in entries {
        let replies = ahead.ask_view(alloc, &entry.ask)?;
        if !replies.told.is_same(&entry.reply) {
            return Ok(None);
        }
    }
    Ok(Some(ahead))
}

/// Whether so many entries and so many more are fewer than `least`.
fn are_few(known: usize, more: usize, least: u64) -> bool
    ensures { IsTrue result ↔ (known + more < least) }
{
    let known = known as u64;
    let more = more as u64;
    known < least && more < least - known
}

/// Whether there are no more entries, and `least` are known already: then there is nothing to take.
pub(crate) fn has_nothing_new(known: usize, more: usize, least: u64) -> bool
    ensures { IsTrue result ↔ (more ≡ 0) × (least ≤ known) }
{
    if more > 0 {
        return false;
    }
    least <= known as u64
}
