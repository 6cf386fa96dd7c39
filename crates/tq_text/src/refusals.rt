//! Refusals as words.

ghost use Rattle.std.specs.{Prelude.{◌≡◌, ◌++◌, false, take, OnOk, OnErr}, Fmt.decimal};
ghost use Rattle.tq_text.specs.Print.{Appends, Extends, Prints};
ghost use Rattle.tq_text.specs.Print as spec;

use crate::print::{push_number, push_numbers, push_servers};
use std::alloc::AllocError;
use tq_asks::{NodeRefusal, Verdict};
use tq_desk::DeskRefusal;
use tq_live::ViewRefusal;
use tq_shape::{Memory, Part};
use tq_store::FileName;
use tq_txn::{LineFault, TxnFault};

/// Puts the name of a part behind the text.
fn push_part(text: &mut Vec<u8>, part: Part) -> Result<(), Memory>
    ensures text { OnOk result (Appends text.old text.new (spec.part_text part)) }
    ensures kept { OnErr result (Extends text.old.items text.new.items) }
{
    match part {
        Part::Server(number) => {
            text.extend_from_slice(b"server ")?;
            push_number(text, number)?;
            Ok(())
        }
        Part::Desk => {
            text.extend_from_slice(b"desk")?;
            Ok(())
        }
        Part::View => {
            text.extend_from_slice(b"view")?;
            Ok(())
        }
    }
}

/// Puts how a transaction ended behind the text.
pub fn push_decided(text: &mut Vec<u8>, verdict: &Verdict) -> Result<(), Memory>
    ensures text { OnOk result (Appends text.old text.new (spec.decided_text verdict.now)) }
    ensures kept { OnErr result (Extends text.old.items text.new.items) }
{
    match verdict {
        Verdict::Abort => text.extend_from_slice(b"decided abort")?,
        Verdict::Commit { .. } => text.extend_from_slice(b"decided commit")?,
    }
    Ok(())
}

/// Puts words and a number behind the text.
pub fn push_at(text: &mut Vec<u8>, words: &[u8], number: u64) -> Result<(), Memory>
    ensures text { OnOk result (Appends text.old text.new (words.now ++ decimal number)) }
    ensures kept { OnErr result (Extends text.old.items text.new.items) }
{
    text.extend_from_slice(words)?;
    push_number(text, number)?;
    Ok(())
}

fn push_held(text: &mut Vec<u8>, server: u64, by: u64) -> Result<(), Memory>
    ensures text { OnOk result
        (Appends text.old text.new (spec.server_refusal_text server (NodeRefusal.Held by))) }
    ensures kept { OnErr result (Extends text.old.items text.new.items) }
{
    push_at(text, b"held by ", by)?;
    push_at(text, b" at ", server)?;
    Ok(())
}

fn push_not_locked(text: &mut Vec<u8>, server: u64, file: FileName) -> Result<(), Memory>
    ensures text { OnOk result
        (Appends text.old text.new (spec.server_refusal_text server (NodeRefusal.NotLocked file))) }
    ensures kept { OnErr result (Extends text.old.items text.new.items) }
{
    text.extend_from_slice(b"not locked ")?;
    text.extend_from_slice(file.as_bytes())?;
    push_at(text, b" at ", server)?;
    Ok(())
}

/// Puts a server's refusal behind the text.
fn push_server_refusal(text: &mut Vec<u8>, server: u64, refusal: NodeRefusal) -> Result<(), Memory>
    ensures text { OnOk result
        (Appends text.old text.new (spec.server_refusal_text server refusal)) }
    ensures kept { OnErr result (Extends text.old.items text.new.items) }
{
    match refusal {
        NodeRefusal::Down => push_at(text, b"down at ", server)?,
        NodeRefusal::AlreadyUp => push_at(text, b"up at ", server)?,
        NodeRefusal::AlreadyDown => push_at(text, b"down at ", server)?,
        NodeRefusal::Held { by } => push_held(text, server, by)?,
        NodeRefusal::Prepared => push_at(text, b"prepared at ", server)?,
        NodeRefusal::NotLocked { file } => push_not_locked(text, server, file)?,
        NodeRefusal::BadWrites => push_at(text, b"bad writes at ", server)?,
        NodeRefusal::NotNewer => push_at(text, b"not newer at ", server)?,
        NodeRefusal::NothingHere => push_at(text, b"nothing at ", server)?,
    }
    Ok(())
}

/// Puts behind the text how a transaction ended that was to go on.
fn push_ended(text: &mut Vec<u8>, committed: bool) -> Result<(), Memory>
    ensures text { OnOk result (Appends text.old text.new (spec.ended_text committed)) }
    ensures kept { OnErr result (Extends text.old.items text.new.items) }
{
    match committed {
        true => text.extend_from_slice(b"decided commit")?,
        false => text.extend_from_slice(b"decided abort")?,
    }
    Ok(())
}

/// Puts a desk's refusal behind the text.
pub fn push_desk_refusal(text: &mut Vec<u8>, refusal: &DeskRefusal) -> Result<(), Memory>
    ensures text { OnOk result (Appends text.old text.new (spec.desk_refusal_text refusal.now)) }
    ensures kept { OnErr result (Extends text.old.items text.new.items) }
{
    match refusal {
        DeskRefusal::NoSuchTxn => text.extend_from_slice(b"no such transaction")?,
        DeskRefusal::Decided(verdict) => push_decided(text, verdict)?,
        DeskRefusal::TooManyOps => text.extend_from_slice(b"too many operations")?,
        DeskRefusal::BadEvidence { rule } => push_at(text, b"bad evidence ", rule.number())?,
        DeskRefusal::TooManyFiles => text.extend_from_slice(b"too many files")?,
    }
    Ok(())
}

/// Puts a view's refusal behind the text.
fn push_view_refusal(text: &mut Vec<u8>, refusal: &ViewRefusal) -> Result<(), Memory>
    ensures text { OnOk result (Appends text.old text.new (spec.view_refusal_text refusal.now)) }
    ensures kept { OnErr result (Extends text.old.items text.new.items) }
{
    match refusal {
        ViewRefusal::NoSuchServer => text.extend_from_slice(b"no such server")?,
        ViewRefusal::BadCost => text.extend_from_slice(b"bad cost")?,
        ViewRefusal::Blocked(blocker) => {
            text.extend_from_slice(b"blocked by")?;
            push_servers(text, blocker.servers())?;
        }
    }
    Ok(())
}

/// The first of the numbers, if there is one.
fn first_of(numbers: &[u64]) -> &[u64]
    ensures { result.now ≡ take 1 numbers.now }
{
    match numbers {
        [] => numbers,
        [_, ..] => &numbers[..1],
    }
}

/// Puts why a transaction does not go on behind the text, with the servers of which it speaks.
pub fn push_txn_fault(text: &mut Vec<u8>, servers: &[u64], fault: TxnFault) -> Result<(), Memory>
    ensures text { OnOk result (Appends text.old text.new (spec.txn_fault_text servers.now fault)) }
    ensures kept { OnErr result (Extends text.old.items text.new.items) }
{
    match fault {
        TxnFault::TooManyOps => text.extend_from_slice(b"too many operations")?,
        TxnFault::VersionFull => text.extend_from_slice(b"version full")?,
        TxnFault::NoOps => text.extend_from_slice(b"nothing to commit")?,
        TxnFault::NotAVoter => push_not_a_voter(text, servers)?,
        TxnFault::LostLock { file } => push_lost_lock(text, servers, file)?,
        TxnFault::VotesMissing => {
            text.extend_from_slice(b"votes missing")?;
            push_numbers(text, servers)?;
        }
        _ => text.extend_from_slice(b"bad answer")?,
    }
    Ok(())
}

fn push_not_a_voter(text: &mut Vec<u8>, servers: &[u64]) -> Result<(), Memory>
    ensures text { OnOk result
        (Appends text.old text.new (spec.txn_fault_text servers.now TxnFault.NotAVoter)) }
    ensures kept { OnErr result (Extends text.old.items text.new.items) }
{
    text.extend_from_slice(b"not a voter")?;
    push_numbers(text, first_of(servers))?;
    Ok(())
}

fn push_lost_lock(text: &mut Vec<u8>, servers: &[u64], file: FileName) -> Result<(), Memory>
    ensures text { OnOk result
        (Appends text.old text.new (spec.txn_fault_text servers.now (TxnFault.LostLock file))) }
    ensures kept { OnErr result (Extends text.old.items text.new.items) }
{
    text.extend_from_slice(b"lost lock ")?;
    text.extend_from_slice(file.as_bytes())?;
    text.extend_from_slice(b" at")?;
    push_numbers(text, first_of(servers))?;
    Ok(())
}

/// Puts the refusal that ended a line behind the text, as a line. Memory refused in the line is refused here.
pub fn say_fault(text: &mut Vec<u8>, servers: &[u64], fault: LineFault) -> Result<(), Memory>
    ensures text { OnOk result (Prints text.old text.new (spec.fault_text servers.now fault)) }
    ensures memory { OnOk result (spec.is_memory fault ≡ false) }
    ensures kept { OnErr result (Extends text.old.items text.new.items) }
{
    match fault {
        LineFault::Memory => return Err(AllocError),
        LineFault::JournalFull { part } => {
            text.extend_from_slice(b"journal full ")?;
            push_part(text, part)?;
        }
        LineFault::Unfounded { part, number } => {
            text.extend_from_slice(b"unfounded ")?;
            push_part(text, part)?;
            push_at(text, b" ", number)?;
        }
        LineFault::Txn(fault) => push_txn_fault(text, servers, fault)?,
        LineFault::Server { server, refusal } => push_server_refusal(text, server, refusal)?,
        LineFault::Desk(refusal) => push_desk_refusal(text, &refusal)?,
        LineFault::Ended { committed } => push_ended(text, committed)?,
        LineFault::View(refusal) => push_view_refusal(text, &refusal)?,
        LineFault::WrongReply { .. } => text.extend_from_slice(b"bad answer")?,
    }
    text.push(b'\n')?;
    Ok(())
}
