//! Client scripts run from their text to their journals.

ghost use Rattle.std.specs.Prelude.{◌≤◌, IfOk, vec_len};
ghost use Rattle.tq_shell.specs.Threads.{IsOutcome, IsOutcomeOf};

use crate::outcome::Outcome;
use std::alloc::{AllocError, Global};
use std::sync::Wait;
use std::thread::Threads;
use tq_cells::OpenGate;
use tq_cluster::{CloseFault, Cluster, Ran};
use tq_shape::{Levels, Limits, Memory};
use tq_syntax::{Script, ScriptFault, read_scripts};

/// Runs the client scripts of the text in threads, over a new cluster, which is closed then. Answers an error only where
/// memory was refused, to this call or to one of its threads; all threads have ended then too.
pub fn run_text<R: Threads + Wait + Sync>(
    rt: &R,
    alloc: Global,
    levels: Levels,
    workers: u32,
    rounds: u32,
    text: &[u8],
) -> Result<Outcome, Memory>
    requires workers { workers ≤ 2 }
    requires rounds { rounds ≤ 1000 }
    ensures { IfOk result (IsOutcome levels workers text.now) }
{
    match read_scripts(alloc, text) {
        Ok(scripts) => run_scripts(rt, alloc, levels, workers, rounds, scripts),
        Err(ScriptFault::Memory) => Err(AllocError),
        Err(ScriptFault::Bad { line }) => Ok(Outcome::BadScript { line }),
    }
}

/// Runs the scripts over a new cluster, and closes it.
fn run_scripts<R: Threads + Wait + Sync>(
    rt: &R,
    alloc: Global,
    levels: Levels,
    workers: u32,
    rounds: u32,
    scripts: Vec<Script>,
) -> Result<Outcome, Memory>
    requires few { vec_len scripts ≤ 16 }
    requires workers { workers ≤ 2 }
    requires rounds { rounds ≤ 1000 }
    ensures { IfOk result (IsOutcomeOf levels workers scripts.items) }
{
    let cluster = Cluster::new(alloc, levels, Limits::full(), OpenGate)?;
    let Ran {
        callers,
        memory,
        whole: _,
    } = cluster.run_clients(rt, alloc, scripts, workers, rounds);
    if memory {
        return Err(AllocError);
    }
    match cluster.close(alloc, callers) {
        Ok(explained) => Ok(Outcome::Ran {
            journals: explained.journals,
        }),
        Err(CloseFault::Memory) => Err(AllocError),
        Err(
            CloseFault::Receipt {
                part: _,
                number: _,
                found: _,
            },
        ) => Ok(Outcome::Unclosed),
        Err(
            CloseFault::Stuck {
                journals: _,
                placed: _,
            },
        ) => Ok(Outcome::Unclosed),
    }
}
