//! The program `tq`: the shell of a tree of servers, client scripts in threads, and the audit and the upgrade of journal files,
//! over the standard streams.
#![tactic(auto)]

ghost use Rattle.std.specs.Prelude.{IfOk, ℕ, List};
ghost use Rattle.tq_cli.specs.Command.{IsRead};

use std::process::ExitCode;
use std::{env, io};
use tq_shell::{RunFault, StdSink, StdSource, Words, WordsFault, audit, run, threads, upgrade};

/// The status of what was done.
const DONE: u8 = 0;

/// The status of a run that ended by a fault.
const FAULT: u8 = 1;

/// The status of words that are refused.
const REFUSED: u8 = 2;

/// Does what the words ask for, and ends with the status of that.
fn main(rt: HostRuntime) -> ExitCode {
    let words = match words_read(&rt) {
        Ok(words) => words,
        Err(status) => return status,
    };
    let alloc = rt.alloc();
    let mut reader = StdSource::new(rt.reader());
    let mut writer = StdSink::new(io::writer(&rt));
    let done = match words {
        Words::Shell { levels } => run(alloc, levels, &mut reader, &mut writer).and(Ok(DONE)),
        Words::Threads {
            levels,
            workers,
            rounds,
        } => threads(
            &rt,
            alloc,
            levels,
            workers,
            rounds,
            &mut reader,
            &mut writer,
        ),
        Words::Audit => audit(alloc, &mut reader, &mut writer),
        Words::Upgrade => upgrade(alloc, &mut reader, &mut writer),
    };
    match done {
        Ok(status) => ExitCode::from(status),
        Err(fault) => say_fault(&rt, fault),
    }
}

/// What the words ask for; or the status of words that cannot be read, or are refused, which was said then.
fn words_read(rt: &HostRuntime) -> Result<Words, ExitCode>
    ensures { IfOk result (λ words. (texts : List (List ℕ)) × IsRead texts words) }
{
    let words = match words_given(rt) {
        Ok(words) => words,
        Err(error) => return Err(refuse_unread(rt, error)),
    };
    match Words::read(rt.alloc(), words.as_slice()) {
        Ok(words) => Ok(words),
        Err(fault) => Err(refuse(rt, fault)),
    }
}

fn words_given(rt: &HostRuntime) -> io::Result<Vec<String>> {
    let mut words = Vec::new(rt.alloc());
    for word in env::args(rt)? {
        words.push(word)?;
    }
    Ok(words)
}

/// Memory was refused, or a word is no text.
fn refuse_unread(rt: &HostRuntime, error: io::Error) -> ExitCode {
    if error.kind() == io::ErrorKind::OutOfMemory {
        return say_fault(rt, RunFault::Memory);
    }
    let printed = println!(rt; "error: the words cannot be read: {error}");
    ended(rt, printed, REFUSED)
}

/// Shows what clap answers to the words: why they are refused, or what they ask to be shown.
fn refuse(rt: &HostRuntime, fault: WordsFault) -> ExitCode {
    match fault {
        WordsFault::Memory => say_fault(rt, RunFault::Memory),
        WordsFault::Refused(error) => {
            let status = if error.use_stderr() { REFUSED } else { DONE };
            let printed = print!(rt; "{error}");
            ended(rt, printed, status)
        }
    }
}

/// Ends with this status where the text was printed.
fn ended(rt: &HostRuntime, printed: io::Result<()>, status: u8) -> ExitCode {
    match printed {
        Ok(()) => ExitCode::from(status),
        Err(_) => say_fault(rt, RunFault::Write),
    }
}

/// Where the fault cannot be printed, the status alone tells of it.
fn say_fault(rt: &HostRuntime, fault: RunFault) -> ExitCode {
    let _printed = println!(rt; "{fault}");
    ExitCode::from(FAULT)
}
