//! Answers as lines.

ghost use Rattle.std.specs.{Prelude.{◌≡◌, ◌++◌, ◌∷◌, OnOk, OnErr, map}, Fmt.decimal, Option.option_copied};
ghost use Rattle.tq_coterie.specs.Coterie.{numbers_of};
ghost use Rattle.tq_text.specs.Print as spec;
ghost use Rattle.tq_text.specs.Print.{Appends, Extends, Prints, numbers_text, choice_text};

use tq_asks::Verdict;
use tq_desk::{Grant, Op};
use tq_live::{ViewRefusal, ViewReply};
use tq_shape::{Memory, ServerId};
use tq_store::{Content, FileCopy, FileName};
use tq_txn::{Applied, ReadAnswer};

/// Puts what a view chose behind the text, as a line.
pub fn say_choice(text: &mut Vec<u8>, reply: &ViewReply) -> Result<(), Memory>
    ensures text { OnOk result (Prints text.old text.new (choice_text reply.now)) }
    ensures kept { OnErr result (Extends text.old.items text.new.items) }
{
    match reply {
        ViewReply::Chosen { quorum, cost } => {
            text.extend_from_slice(b"quorum")?;
            push_servers(text, quorum.servers())?;
            say_number(text, b" cost ", *cost)
        }
        ViewReply::Refused(ViewRefusal::Blocked(blocker)) => {
            text.extend_from_slice(b"blocked by")?;
            push_servers(text, blocker.servers())?;
            say_line(text, b"")
        }
        _ => say_line(text, b""),
    }
}

/// Puts the numbers of the servers behind the text, each after a space.
pub(crate) fn push_servers(text: &mut Vec<u8>, servers: &[ServerId]) -> Result<(), Memory>
    ensures text { OnOk result (Appends text.old text.new (numbers_text (numbers_of servers.now))) }
    ensures kept { OnErr result (Extends text.old.items text.new.items) }
{
    for server in servers {
        push_spaced(text, server.number())?;
    }
    Ok(())
}

/// Puts the numbers behind the text, each after a space.
pub fn push_numbers(text: &mut Vec<u8>, numbers: &[u64]) -> Result<(), Memory>
    ensures text { OnOk result (Appends text.old text.new (numbers_text numbers.now)) }
    ensures kept { OnErr result (Extends text.old.items text.new.items) }
{
    for number in numbers {
        push_spaced(text, *number)?;
    }
    Ok(())
}

/// Puts the servers of the grants behind the text, each after a space.
fn push_grants(text: &mut Vec<u8>, grants: &[Grant]) -> Result<(), Memory>
    ensures text { OnOk result
        (Appends text.old text.new (numbers_text (map (λ grant. grant.server) grants.now))) }
    ensures kept { OnErr result (Extends text.old.items text.new.items) }
{
    for grant in grants {
        push_spaced(text, grant.server)?;
    }
    Ok(())
}

/// Puts the servers that an operation rests on behind the text, each after a space.
fn push_op(text: &mut Vec<u8>, op: Option<&Op>) -> Result<(), Memory>
    ensures text { OnOk result
        (Appends text.old text.new (numbers_text (spec.op_servers (option_copied op.entry)))) }
    ensures kept { OnErr result (Extends text.old.items text.new.items) }
{
    match op {
        Some(op) => Ok(push_grants(text, op.grants.as_slice())?),
        None => Ok(()),
    }
}

/// Puts a file as a transaction reads it behind the text, as a line; the operation is its read of the file.
pub fn say_reading(
    text: &mut Vec<u8>,
    file: &FileName,
    op: Option<&Op>,
    reading: &ReadAnswer,
) -> Result<(), Memory>
    ensures text { OnOk result
        (Prints text.old text.new
        (spec.reading_text file.now (option_copied op.entry) reading.now)) }
    ensures kept { OnErr result (Extends text.old.items text.new.items) }
{
    match reading {
        ReadAnswer::Pending(content) => {
            text.extend_from_slice(file.as_bytes())?;
            text.extend_from_slice(b" pending [")?;
            text.extend_from_slice(content.as_bytes())?;
            say_line(text, b"]")
        }
        ReadAnswer::Copy(copy) => say_copy(text, file, op, copy),
    }
}

fn say_copy(
    text: &mut Vec<u8>,
    file: &FileName,
    op: Option<&Op>,
    copy: &FileCopy,
) -> Result<(), Memory>
    ensures text { OnOk result
        (Prints text.old text.new (spec.copy_text file.now (option_copied op.entry) copy.now)) }
    ensures kept { OnErr result (Extends text.old.items text.new.items) }
{
    push_version(text, file, copy.version)?;
    text.extend_from_slice(b" from")?;
    push_op(text, op)?;
    push_bracketed(text, &copy.content)?;
    say_line(text, b"")
}

/// Puts a content in brackets behind the text.
fn push_bracketed(text: &mut Vec<u8>, content: &Content) -> Result<(), Memory>
    ensures text { OnOk result (Appends text.old text.new (spec.bracketed_text content.now)) }
    ensures kept { OnErr result (Extends text.old.items text.new.items) }
{
    text.extend_from_slice(b" [")?;
    text.extend_from_slice(content.as_bytes())?;
    text.push(b']')?;
    Ok(())
}

/// Puts a file and a version of it behind the text.
fn push_version(text: &mut Vec<u8>, file: &FileName, version: u64) -> Result<(), Memory>
    ensures text { OnOk result (Appends text.old text.new (spec.version_text file.now version)) }
    ensures kept { OnErr result (Extends text.old.items text.new.items) }
{
    text.extend_from_slice(file.as_bytes())?;
    text.extend_from_slice(b" version ")?;
    push_number(text, version)?;
    Ok(())
}

/// Puts the version that a transaction makes of a file behind the text, as a line; the operation is its write.
pub fn say_writing(
    text: &mut Vec<u8>,
    file: &FileName,
    op: Option<&Op>,
    version: u64,
) -> Result<(), Memory>
    ensures text { OnOk result
        (Prints text.old text.new (spec.writing_text file.now (option_copied op.entry) version)) }
    ensures kept { OnErr result (Extends text.old.items text.new.items) }
{
    text.extend_from_slice(b"write ")?;
    push_version(text, file, version)?;
    text.extend_from_slice(b" at")?;
    push_op(text, op)?;
    say_line(text, b"")
}

/// Puts what a server did with a verdict behind the text, as a line.
pub fn say_applied(text: &mut Vec<u8>, server: u64, applied: Applied) -> Result<(), Memory>
    ensures text { OnOk result (Prints text.old text.new (spec.applied_text server applied)) }
    ensures kept { OnErr result (Extends text.old.items text.new.items) }
{
    match applied {
        Applied::Installed => say_number(text, b"installed ", server),
        Applied::Discarded => say_number(text, b"discarded ", server),
    }
}

/// Puts a verdict behind the text, as a line.
pub fn say_verdict(text: &mut Vec<u8>, verdict: &Verdict) -> Result<(), Memory>
    ensures text { OnOk result (Prints text.old text.new (spec.verdict_text verdict.now)) }
    ensures kept { OnErr result (Extends text.old.items text.new.items) }
{
    match verdict {
        Verdict::Abort => say_line(text, b"verdict abort"),
        Verdict::Commit { .. } => say_line(text, b"verdict commit"),
    }
}

/// Puts a line behind the text.
pub fn say_line(text: &mut Vec<u8>, words: &[u8]) -> Result<(), Memory>
    ensures text { OnOk result (Prints text.old text.new words.now) }
    ensures kept { OnErr result (Extends text.old.items text.new.items) }
{
    text.extend_from_slice(words)?;
    text.push(b'\n')?;
    Ok(())
}

/// Puts a line of words and a number behind the text.
pub fn say_number(text: &mut Vec<u8>, words: &[u8], number: u64) -> Result<(), Memory>
    ensures text { OnOk result (Prints text.old text.new (words.now ++ decimal number)) }
    ensures kept { OnErr result (Extends text.old.items text.new.items) }
{
    text.extend_from_slice(words)?;
    push_number(text, number)?;
    text.push(b'\n')?;
    Ok(())
}

/// Puts the number in decimal behind the text.
pub(crate) fn push_number(text: &mut Vec<u8>, number: u64) -> Result<(), Memory>
    ensures text { OnOk result (Appends text.old text.new (decimal number)) }
    ensures kept { OnErr result (Extends text.old.items text.new.items) }
{
    tq_shape::push_number(text, number)?;
    Ok(())
}

/// Puts a space and the number in decimal behind the text.
fn push_spaced(text: &mut Vec<u8>, number: u64) -> Result<(), Memory>
    ensures text { OnOk result (Appends text.old text.new (32 ∷ decimal number)) }
    ensures kept { OnErr result (Extends text.old.items text.new.items) }
{
    text.push(b' ')?;
    push_number(text, number)?;
    Ok(())
}
