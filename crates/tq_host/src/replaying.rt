//! The part after the lines of a log.

ghost use Rattle.std.specs.Prelude.{◌≡◌, ◌++◌, ◌<◌, ◌≤◌, [], ℕ, List, IfOk, IfErr, OnErr, OnOk, length};
ghost use Rattle.tq_shape.specs.Agrees.{Standing, standing_part};
ghost use Rattle.tq_host.specs.Lines.{BeginsWith, EndsWhole, IsLine, HasNoFeed, Enters, IsLogOf, IsReplayFault, IsLineFault};

use crate::fault::ReplayFault;
use crate::wire::Wire;
use memchr::{memchr, memrchr};
use std::alloc::Global;
use tq_json::Scratch;
use tq_shape::{Entry, Journaled};

/// The whole lines that the bytes begin with: all but a last one that no line feed ends.
pub fn whole_lines(bytes: &[u8]) -> &[u8]
    ensures begins { BeginsWith bytes.now result.now }
    ensures whole { EndsWhole result.now }
{
    match memrchr(b'\n', bytes) {
        Some(place) => &bytes[..place + 1],
        None => &[],
    }
}

/// The part after the lines of a log, each of which is an entry. What stands behind the last line feed is passed over.
///
/// Where two texts are the lines of entries that lead to one standing, so do they here: what a log has is what the part is.
pub fn replay<P: Wire>(
    alloc: Global,
    part: P,
    limit: u32,
    text: &[u8],
) -> Result<Journaled<P>, ReplayFault>
    requires { part ≡ P.opening part }
    ensures leads { IfOk result (λ now. (lines : List ℕ) × BeginsWith text.now lines
        × IsLogOf P.reply P.after P.reads (standing_part part [] limit) lines now) }
    ensures limit { IfOk result (λ now. now.limit ≡ limit) }
    ensures fault { IfErr result
        (IsReplayFault P.reply P.after P.reads (standing_part part [] limit) text.now) }
    ensures law { (now : Standing P P.Ask P.Reply) (lines : List ℕ) → BeginsWith text.now lines
        → IsLogOf P.reply P.after P.reads (standing_part part [] limit) lines now
        → IfOk result (λ found. found ≡ now) }
{
    let mut now = Journaled::new(alloc, part, limit);
    let mut scratch = Scratch::new(alloc);
    let mut left = text;
    while let Some(place) = memchr(b'\n', left) {
        if let Err(fault) = enter_line(alloc, &mut scratch, &mut now, &left[..place + 1]) {
            return Err(fault);
        }
        left = &left[place + 1..];
    }
    Ok(now)
}

/// The part behind one line more.
fn enter_line<P: Wire>(
    alloc: Global,
    scratch: &mut Scratch,
    part: &mut Journaled<P>,
    line: &[u8],
) -> Result<(), ReplayFault>
    ensures ok { OnOk result (Enters P.reply P.after P.reads part.old line.now part.new) }
    ensures err { IfErr result (IsLineFault P.reply P.after P.reads part.old line.now) }
{
    let is_full = part.is_full();
    let number = part.entries().len() as u64 + 1;
    if is_full {
        return Err(ReplayFault::Wrong { number });
    }
    let Some(entry) = part.part().entry_of_line(alloc, scratch, line)? else {
        return Err(ReplayFault::Unreadable { number });
    };
    let Entry { ask, reply } = entry;
    let plan = part.part().plan(alloc, number, &ask)?;
    if !P::is_same_reply(&plan.reply, &reply) {
        return Err(ReplayFault::Wrong { number });
    }
    part.enter(alloc, ask, plan)?;
    Ok(())
}
