//! What an audit finds, and its line.

ghost use Rattle.std.specs.Prelude.{◌≡◌, ◌++◌, IfOk, OnOk};
ghost use Rattle.tq_shell.specs.Audit as spec;

use std::alloc::Global;
use tq_merge::Counts;
use tq_shape::{Memory, Part};
use tq_text::{push_at, push_numbers, say_line, say_number};

/// What an audit finds in the bytes of a journal file.
#[derive(Debug, Drop, PartialEq)]
pub enum AuditFinding {
    /// An order explains the journals; it has so many entries, which are all of theirs.
    Explained { entries: u64 },
    /// The first entry that its part would not have given: servers upwards, then the desk, then the view.
    Wrong { part: Part, number: u64 },
    /// No order explains the journals. The greatest number of entries of each part that can be placed.
    Stuck { placed: Counts },
    /// The bytes are no journal file.
    Unreadable,
}

impl AuditFinding {
    /// The status that tells of it.
    pub fn status(&self) -> u8
        ensures { result ≡ spec.status_of self.now }
    {
        match self {
            AuditFinding::Explained { .. } => 0,
            AuditFinding::Wrong { .. } => 3,
            AuditFinding::Stuck { .. } => 3,
            AuditFinding::Unreadable => 4,
        }
    }

    /// The line that tells of it.
    pub fn line(&self, alloc: Global) -> Result<Vec<u8>, Memory>
        ensures { IfOk result (λ line. line.items ≡ spec.verdict_line self.now) }
    {
        let mut text = Vec::new(alloc);
        match self {
            AuditFinding::Explained { entries } => say_number(&mut text, b"explained ", *entries)?,
            AuditFinding::Wrong { part, number } => say_wrong(&mut text, *part, *number)?,
            AuditFinding::Stuck { placed } => say_stuck(&mut text, placed)?,
            AuditFinding::Unreadable => say_line(&mut text, b"unreadable")?,
        }
        Ok(text)
    }
}

/// Puts the name of a wrong entry behind the text, as a line.
fn say_wrong(text: &mut Vec<u8>, part: Part, number: u64) -> Result<(), Memory>
    ensures { OnOk result
        (text.new.items ≡ text.old.items ++ spec.verdict_line (AuditFinding.Wrong part number)) }
{
    match part {
        Part::Server(server) => push_at(text, b"wrong server ", server)?,
        Part::Desk => text.extend_from_slice(b"wrong desk")?,
        Part::View => text.extend_from_slice(b"wrong view")?,
    }
    say_number(text, b" entry ", number)
}

/// Puts how many entries can be placed behind the text, as a line.
fn say_stuck(text: &mut Vec<u8>, placed: &Counts) -> Result<(), Memory>
    ensures { OnOk result
        (text.new.items ≡ text.old.items ++ spec.verdict_line (AuditFinding.Stuck placed.now)) }
{
    text.extend_from_slice(b"stuck")?;
    push_numbers(text, placed.servers.as_slice())?;
    push_at(text, b" desk ", placed.desk)?;
    say_number(text, b" view ", placed.view)
}
