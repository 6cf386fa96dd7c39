//! Words and lists of words.

ghost use Rattle.std.specs.{Prelude.{◌≡◌, ◌+◌, ◌<◌, ◌∷◌, OnOk, map}, Fmt.decimal};
ghost use Rattle.tq_tables.specs.Rows.{file_version};
ghost use Rattle.tq_board_text.specs.Board.{Appends, words_or_dash, mark_text, servers_text, state_text, write_text};

use tq_shape::{Memory, ServerSet};
use tq_store::Write;
use tq_tables::IntentState;

/// The word for a mark.
pub(crate) fn mark_word(up: bool) -> &'static str
    ensures { result.now ≡ mark_text up }
{
    if up { "up" } else { "down" }
}

/// The word for what the desk's log says of an open vote.
pub(crate) fn state_word(state: IntentState) -> &'static str
    ensures { result.now ≡ state_text state }
{
    match state {
        IntentState::Unknown => "unknown",
        IntentState::Undecided => "undecided",
        IntentState::Abort => "abort",
        IntentState::Install => "install",
        IntentState::Discard => "discard",
    }
}

/// Puts the numbers of a set's servers behind the text, each after a space, or `-` where there is none.
pub(crate) fn push_set(text: &mut String, servers: &ServerSet) -> Result<(), Memory>
    ensures { OnOk result (Appends text.old text.new (servers_text servers.now.numbers)) }
{
    if servers.is_empty() {
        return text.push_str(" -");
    }
    for server in servers.iter() {
        push_spaced(text, server.number())?;
    }
    Ok(())
}

/// Puts the files of writes with their versions behind the text, each after a space, or `-` where there is none.
pub(crate) fn push_writes(text: &mut String, writes: &[Write]) -> Result<(), Memory>
    ensures { OnOk result
        (Appends text.old text.new (words_or_dash (map write_text (map file_version writes.now)))) }
{
    if writes.is_empty() {
        return text.push_str(" -");
    }
    for write in writes {
        write!(text, " {}:{}", write.file, write.version)?;
    }
    Ok(())
}

/// Puts a space and a number behind the text, at once where it has at most two digits, as that of a server mostly has.
fn push_spaced(text: &mut String, number: u64) -> Result<(), Memory>
    ensures { OnOk result (Appends text.old text.new (32 ∷ decimal number)) }
{
    text.push(' ')?;
    if number < 10 {
        return text.push(digit(number));
    }
    if number < 100 {
        text.push(digit(number / 10))?;
        return text.push(digit(number % 10));
    }
    push_digits(text, number)
}

/// Puts the digits of a number behind the text.
fn push_digits(text: &mut String, number: u64) -> Result<(), Memory>
    ensures { OnOk result (Appends text.old text.new (decimal number)) }
{
    if number < 10 {
        return text.push(digit(number));
    }
    push_digits(text, number / 10)?;
    text.push(digit(number % 10))
}

/// The character of a digit.
fn digit(number: u64) -> char
    requires { number < 10 }
    ensures { result ≡ 48 + number }
{
    char::from(b'0' + number as u8)
}
