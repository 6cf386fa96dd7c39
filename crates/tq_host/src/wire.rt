//! Parts with the lines of their asks, entries and replies.

use std::alloc::Global;
use tq_json::Scratch;
use tq_shape::{Answers, Entry, Memory};

/// A part whose asks, entries and replies are read and written as lines.
pub trait Wire: Answers {
    ghost use Rattle.std.specs.{Prelude.{◌≡◌, ◌↔◌, ℕ, List, Option, Some, IfOk, IsTrue}, String.string_bytes};
    ghost use Rattle.tq_shape.specs.{declared.part.Entry.Entry, Journal.entry};
    ghost use Rattle.tq_host.specs.Lines.{IsLine};

    /// The ask that a line is, or that it is none.
    ghost reads_ask: { List ℕ → Option Self.Ask → Type 0 };

    /// The entry that a line is, or that it is none.
    ghost reads: { Self → List ℕ → Option (Entry Self.Ask Self.Reply) → Type 0 };

    /// The line of an entry.
    ghost entry_line: { Self.Ask → Self.Reply → List ℕ };

    /// The line that tells a number and a reply.
    ghost told_line: { ℕ → Self.Reply → List ℕ };

    /// The ask that the line is: none where it is no ask of this part. Answers an error only where memory is refused.
    fn ask_of_line(
        alloc: Global,
        scratch: &mut Scratch,
        line: &[u8],
    ) -> Result<Option<Self::Ask>, Memory>
        ensures { IfOk result (reads_ask line.now) };

    /// The entry that the line is.
    fn entry_of_line(
        &self,
        alloc: Global,
        scratch: &mut Scratch,
        line: &[u8],
    ) -> Result<Option<Entry<Self::Ask, Self::Reply>>, Memory>
        ensures { IfOk result (reads self.now line.now) };

    /// The entry as one line. It is read as the entry.
    fn line_of_entry(
        &self,
        alloc: Global,
        ask: &Self::Ask,
        given: &Self::Reply,
    ) -> Result<String, Memory>
        ensures text { IfOk result (λ line. string_bytes line ≡ entry_line ask.now given.now) }
        ensures whole { IfOk result (λ line. IsLine (string_bytes line)) }
        ensures back { (n : ℕ) → given.now ≡ Self.reply self.now n ask.now → IfOk result
            (λ line. reads self.now (string_bytes line) (Some (entry ask.now given.now))) };

    /// What the asker is told, as one line.
    fn line_of_told(alloc: Global, number: u64, given: &Self::Reply) -> Result<String, Memory>
        ensures { IfOk result (λ line. string_bytes line ≡ told_line number given.now) };

    /// Whether the replies are the same.
    fn is_same_reply(one: &Self::Reply, other: &Self::Reply) -> bool
        ensures { IsTrue result ↔ (one.now ≡ other.now) };

    /// A line is one entry at most.
    ghost reads_once: { (s : Self) (line : List ℕ) (x y : Option (Entry Self.Ask Self.Reply))
        → reads s line x → reads s line y → x ≡ y };
}
