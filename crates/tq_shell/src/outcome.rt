//! What comes of client scripts.

ghost use Rattle.std.specs.Prelude.{◌≡◌, ◌-◌, ◌^◌, ◌<◌};
ghost use Rattle.tq_board.specs.Lines.{IsWrittenOut};
ghost use Rattle.tq_shell.specs.Threads as spec;

use crate::line::write_line;
use std::alloc::Global;
use tq_board::write_journals;
use tq_devices::{RunFault, Sink};
use tq_tables::Journals;
use tq_text::{say_line, say_number};

/// What comes of the text of client scripts.
#[derive(Drop)]
pub enum Outcome {
    /// They ran, and these are the journals of all parts.
    Ran { journals: Journals },
    /// They ran, and the cluster could not be closed: what callers were told is not in the journals, or these have no
    /// order.
    Unclosed,
    /// The line of that number, counted from 1, makes a bad script. Nothing was run.
    BadScript { line: u64 },
}

impl Outcome {
    /// The status that tells of it.
    pub fn status(&self) -> u8
        ensures { result ≡ spec.status_of self.now }
    {
        match self {
            Outcome::Ran { .. } => 0,
            Outcome::Unclosed => 1,
            Outcome::BadScript { .. } => 2,
        }
    }

    /// Writes the line that tells of it. Where memory is refused nothing is written; where the sink fails, a front of the line.
    pub fn write<W: Sink>(&self, alloc: Global, writer: &mut W) -> Result<(), RunFault>
        requires { W.failed writer.old < 2 ^ 64 - 1 }
        ensures { IsWrittenOut result (spec.outcome_line self.now)
            (W.taken writer.old) (W.taken writer.new) (W.failed writer.old) (W.failed writer.new) }
    {
        match self {
            Outcome::Ran { journals } => write_journals(alloc, journals, writer),
            Outcome::Unclosed => write_unclosed(alloc, writer),
            Outcome::BadScript { line } => write_bad_line(alloc, *line, writer),
        }
    }
}

/// Writes the line that tells of a cluster which could not be closed.
fn write_unclosed<W: Sink>(alloc: Global, writer: &mut W) -> Result<(), RunFault>
    requires { W.failed writer.old < 2 ^ 64 - 1 }
    ensures { IsWrittenOut result (spec.outcome_line Outcome.Unclosed)
        (W.taken writer.old) (W.taken writer.new) (W.failed writer.old) (W.failed writer.new) }
{
    let mut line = Vec::new(alloc);
    say_line(&mut line, b"fault close")?;
    write_line(writer, line.as_slice())
}

/// Writes the line that tells of a bad line.
fn write_bad_line<W: Sink>(alloc: Global, number: u64, writer: &mut W) -> Result<(), RunFault>
    requires { W.failed writer.old < 2 ^ 64 - 1 }
    ensures { IsWrittenOut result (spec.outcome_line (Outcome.BadScript number))
        (W.taken writer.old) (W.taken writer.new) (W.failed writer.old) (W.failed writer.new) }
{
    let mut line = Vec::new(alloc);
    say_number(&mut line, b"bad script line ", number)?;
    write_line(writer, line.as_slice())
}
