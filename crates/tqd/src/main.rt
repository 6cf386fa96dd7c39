//! The program `tqd`: a part of a system as a process, with its entries in a log; or the lines of the shell over the journals of
//! a system, which it reads from a file.
#![tactic(auto)]

ghost use Rattle.std.specs.Prelude.{◌≡◌};

use std::fmt::Display;
use std::fs::File;
use std::process::ExitCode;
use std::{env, io};
use tq_cli::{GivenLimits, PartOptions, TqdWords, WordsFault};
use tq_desk::Desk;
use tq_host::{FileLog, OpenedLog, Wire, host};
use tq_live::View;
use tq_node::Node;
use tq_shape::Limits;
use tq_shell::{RunFault, StdSink, StdSource, rehearse};

/// The status of what was done.
const DONE: u8 = 0;

/// The status of a run that ended by a fault.
const FAULT: u8 = 1;

/// The status of words that are refused.
const REFUSED: u8 = 2;

/// Does what the words ask for, and ends with the status of that.
fn main(rt: HostRuntime) -> ExitCode {
    let words = match words_given(&rt) {
        Ok(words) => words,
        Err(error) => return refuse_unread(&rt, error),
    };
    match TqdWords::read(rt.alloc(), words.as_slice()) {
        Ok(asked) => run(&rt, &asked),
        Err(fault) => refuse(&rt, fault),
    }
}

fn words_given(rt: &HostRuntime) -> io::Result<Vec<String>> {
    let mut words = Vec::new(rt.alloc());
    for word in env::args(rt)? {
        words.push(word)?;
    }
    Ok(words)
}

/// Memory was refused, or a word is no text.
fn refuse_unread(rt: &HostRuntime, error: io::Error) -> ExitCode {
    if error.kind() == io::ErrorKind::OutOfMemory {
        return say_fault(rt, RunFault::Memory);
    }
    let printed = println!(rt; "error: the words cannot be read: {error}");
    ended(rt, printed, REFUSED)
}

fn run(rt: &HostRuntime, words: &TqdWords) -> ExitCode {
    match words {
        TqdWords::Rehearsal { file } => rehearse_on(rt, file),
        TqdWords::Server { number, options } => host_server(rt, *number, options),
        TqdWords::Desk { options } => host_desk(rt, options),
        TqdWords::View { options } => host_view(rt, options),
    }
}

/// Answers the lines of the standard input over the journals of the file.
fn rehearse_on(rt: &HostRuntime, file: &str) -> ExitCode {
    let Ok(opened) = File::open(rt, file) else {
        return say_fault(rt, RunFault::Read);
    };
    let mut journals = StdSource::new(opened);
    let mut lines = StdSource::new(rt.reader());
    let mut writer = StdSink::new(io::writer(rt));
    match rehearse(rt.alloc(), &mut journals, &mut lines, &mut writer) {
        Ok(status) => ExitCode::from(status),
        Err(fault) => say_fault(rt, fault),
    }
}

fn host_server(rt: &HostRuntime, number: u32, options: &PartOptions) -> ExitCode {
    let levels = options.levels;
    let Some(server) = levels.server(u64::from(number)) else {
        let count = levels.count();
        let printed = println!(rt; "error: a tree of {count} levels has no server {number}");
        return ended(rt, printed, REFUSED);
    };
    let Some(limits) = limits_given(&options.limits) else {
        return refuse_limits(rt);
    };
    let part = Node::new(rt.alloc(), levels, server);
    host_on(rt, part, limits.entries(), options.log)
}

fn host_desk(rt: &HostRuntime, options: &PartOptions) -> ExitCode {
    let Some(limits) = limits_given(&options.limits) else {
        return refuse_limits(rt);
    };
    let part = Desk::new(rt.alloc(), options.levels, limits);
    host_on(rt, part, limits.entries(), options.log)
}

fn host_view(rt: &HostRuntime, options: &PartOptions) -> ExitCode {
    let Some(limits) = limits_given(&options.limits) else {
        return refuse_limits(rt);
    };
    let Ok(part) = View::new(rt.alloc(), options.levels) else {
        return say_fault(rt, RunFault::Memory);
    };
    host_on(rt, part, limits.entries(), options.log)
}

fn limits_given(limits: &GivenLimits) -> Option<Limits> {
    Limits::new(limits.files, limits.ops, limits.entries)
}

fn refuse_limits(rt: &HostRuntime) -> ExitCode {
    let printed = println!(rt; "error: the limits are at most 1000 64 1000000");
    ended(rt, printed, REFUSED)
}

/// Answers the asks of the standard input, one a line, behind the entries of the log.
fn host_on<P: Wire>(rt: &HostRuntime, part: P, limit: u32, path: &str) -> ExitCode
    requires { part ≡ P.opening part }
{
    let opened = match FileLog::open(rt.alloc(), rt, path) {
        Ok(opened) => opened,
        Err(fault) => return say_fault(rt, fault),
    };
    let OpenedLog { mut log, text } = opened;
    let mut reader = StdSource::new(rt.reader());
    let mut writer = StdSink::new(io::writer(rt));
    match host(
        rt.alloc(),
        part,
        limit,
        text,
        &mut log,
        &mut reader,
        &mut writer,
    ) {
        Ok(status) => ExitCode::from(status),
        Err(fault) => say_fault(rt, fault),
    }
}

/// Shows what clap answers to the words: why they are refused, or what they ask to be shown.
fn refuse(rt: &HostRuntime, fault: WordsFault) -> ExitCode {
    match fault {
        WordsFault::Memory => say_fault(rt, RunFault::Memory),
        WordsFault::Refused(error) => {
            let status = if error.use_stderr() { REFUSED } else { DONE };
            let printed = print!(rt; "{error}");
            ended(rt, printed, status)
        }
    }
}

/// Ends with this status where the text was printed.
fn ended(rt: &HostRuntime, printed: io::Result<()>, status: u8) -> ExitCode {
    match printed {
        Ok(()) => ExitCode::from(status),
        Err(_) => say_fault(rt, RunFault::Write),
    }
}

/// Where the fault cannot be printed, the status alone tells of it.
fn say_fault<F: Display + Drop>(rt: &HostRuntime, fault: F) -> ExitCode {
    let _printed = println!(rt; "{fault}");
    ExitCode::from(FAULT)
}
