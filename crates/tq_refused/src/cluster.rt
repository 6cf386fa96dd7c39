//! A cluster whose parts are asked by one caller what journals say.
ghost use Rattle.std.specs.Prelude.{◌≡◌, IfOk};
ghost use Rattle.tq_mirror.specs.Prefixes.{IsPartOf};

use crate::board::board_of;
use crate::input::text_of;
use crate::service::step_at;
use crate::wrong::Wrong;
use std::alloc::Global;
use std::mem::forget;
use std::sync::Wait;
use std::thread::Threads;
use tq_cells::OpenGate;
use tq_cluster::{Caller, CloseFault, Cluster, Explained, LiveBoard, PullFault, Ran};
use tq_core::Step;
use tq_shape::{AskFault, Part};
use tq_tables::Journals;

/// Pulls each part, and prints the board.
pub(crate) fn pull<H: Wait>(
    rt: &HostRuntime,
    handle: &H,
    journals: &Journals,
    order: &[Part],
) -> Result<(), Wrong> {
    let alloc = rt.alloc();
    let cluster = new_cluster(alloc, journals)?;
    let mut caller = new_caller(alloc, &cluster)?;
    ask_all(handle, alloc, &cluster, &mut caller, journals, order)?;
    let mut board = new_board(alloc, journals)?;
    let levels = cluster.levels();
    let past = levels.servers() + 1;
    for server in 1..past {
        pull_part(
            handle,
            alloc,
            &cluster,
            &mut caller,
            &mut board,
            Part::Server(server),
        )?;
    }
    pull_part(handle, alloc, &cluster, &mut caller, &mut board, Part::Desk)?;
    pull_part(handle, alloc, &cluster, &mut caller, &mut board, Part::View)?;
    let text = board_of(alloc, board.tables(), board.tables().view())?;
    let _printed = print!(rt; "{text}");
    Ok(())
}

/// Pulls a part of which nothing was pulled. Where memory is refused, the board is as it was, and pulls the part then.
fn pull_part<H: Wait>(
    handle: &H,
    alloc: Global,
    cluster: &Cluster<OpenGate>,
    caller: &mut Caller,
    board: &mut LiveBoard,
    part: Part,
) -> Result<(), Wrong>
    requires caller { caller.old.levels ≡ cluster.now.levels }
    requires levels { board.old.levels ≡ cluster.now.levels }
    requires limits { board.old.limits ≡ cluster.now.limits }
    requires part { IsPartOf cluster.now.levels part }
    ensures caller { caller.new.levels ≡ caller.old.levels }
    ensures levels { board.new.levels ≡ board.old.levels }
    ensures limits { board.new.limits ≡ board.old.limits }
{
    let before = board_of(alloc, board.tables(), board.tables().view())?;
    match board.pull_part(handle, alloc, cluster, caller, part) {
        Ok(()) => return Ok(()),
        Err(PullFault::Memory) => (),
        Err(_) => return Err(Wrong::Otherwise),
    }
    let left = board_of(alloc, board.tables(), board.tables().view())?;
    if left.as_str() != before.as_str() {
        return Err(Wrong::Changed);
    }
    if pulled(board, part) > 0 {
        return Err(Wrong::Changed);
    }
    match board.pull_part(handle, alloc, cluster, caller, part) {
        Ok(()) => Ok(()),
        Err(PullFault::Memory) => Err(Wrong::Memory),
        Err(_) => Err(Wrong::Otherwise),
    }
}

/// How many entries the board pulled of a part.
fn pulled(board: &LiveBoard, part: Part) -> usize
    requires { IsPartOf board.now.levels part }
{
    match part {
        Part::Server(server) => board.server(server).len(),
        Part::Desk => board.desk().len(),
        Part::View => board.view().len(),
    }
}

/// Pulls all parts by one call, prints how many entries of each were pulled, and prints the board. Where memory is refused, it
/// pulls them once more before it prints the board.
pub(crate) fn pull_all<H: Wait>(
    rt: &HostRuntime,
    handle: &H,
    journals: &Journals,
    order: &[Part],
) -> Result<(), Wrong> {
    let alloc = rt.alloc();
    let cluster = new_cluster(alloc, journals)?;
    let mut caller = new_caller(alloc, &cluster)?;
    ask_all(handle, alloc, &cluster, &mut caller, journals, order)?;
    let mut board = new_board(alloc, journals)?;
    let are_all = are_pulled(handle, alloc, &cluster, &mut caller, &mut board)?;
    print_counts(rt, &board);
    if !are_all {
        let are_all = are_pulled(handle, alloc, &cluster, &mut caller, &mut board)?;
        if !are_all {
            return Err(Wrong::Memory);
        }
    }
    let text = board_of(alloc, board.tables(), board.tables().view())?;
    let _printed = print!(rt; "{text}");
    Ok(())
}

/// Pulls all parts by one call; not all of them where memory is refused.
fn are_pulled<H: Wait>(
    handle: &H,
    alloc: Global,
    cluster: &Cluster<OpenGate>,
    caller: &mut Caller,
    board: &mut LiveBoard,
) -> Result<bool, Wrong>
    requires caller { caller.old.levels ≡ cluster.now.levels }
    requires levels { board.old.levels ≡ cluster.now.levels }
    requires limits { board.old.limits ≡ cluster.now.limits }
    ensures caller { caller.new.levels ≡ caller.old.levels }
    ensures levels { board.new.levels ≡ board.old.levels }
    ensures limits { board.new.limits ≡ board.old.limits }
{
    match board.pull(handle, alloc, cluster, caller) {
        Ok(()) => Ok(true),
        Err(PullFault::Memory) => Ok(false),
        Err(_) => Err(Wrong::Otherwise),
    }
}

/// Prints how many entries were pulled of each server, of the desk and of the view.
fn print_counts(rt: &HostRuntime, board: &LiveBoard) {
    let _printed = print!(rt; "pulled");
    let levels = board.levels();
    let past = levels.servers() + 1;
    for server in 1..past {
        let count = board.server(server).len();
        let _printed = print!(rt; " {count}");
    }
    let desk = board.desk().len();
    let view = board.view().len();
    let _printed = println!(rt; " {desk} {view}");
}

/// How a round ended: whether memory was refused, whether each caller was made, and how many came back.
struct Ended {
    memory: bool,
    whole: bool,
    callers: usize,
}

/// Makes one round of a run with no script and no worker, and prints how it ended.
pub(crate) fn round<H: Threads + Wait + Sync>(
    rt: &HostRuntime,
    handle: &H,
    journals: &Journals,
    order: &[Part],
) -> Result<(), Wrong> {
    let alloc = rt.alloc();
    let cluster = new_cluster(alloc, journals)?;
    let mut caller = new_caller(alloc, &cluster)?;
    ask_all(handle, alloc, &cluster, &mut caller, journals, order)?;
    let Ended {
        memory,
        whole,
        callers,
    } = end_of_round(handle, alloc, &cluster);
    let _printed = println!(rt; "memory {memory} whole {whole} callers {callers}");
    Ok(())
}

/// Makes the round. Its callers are left to the end of the process.
fn end_of_round<H: Threads + Wait + Sync>(
    handle: &H,
    alloc: Global,
    cluster: &Cluster<OpenGate>,
) -> Ended {
    let Ran {
        callers,
        memory,
        whole,
    } = cluster.run_clients(handle, alloc, Vec::new(alloc), 0, 1);
    let count = callers.len();
    forget(callers);
    Ended {
        memory,
        whole,
        callers: count,
    }
}

/// Closes the cluster, and prints its journals. Where memory is refused the cluster is gone, and another one is closed.
pub(crate) fn close<H: Wait>(
    rt: &HostRuntime,
    handle: &H,
    journals: &Journals,
    order: &[Part],
) -> Result<(), Wrong> {
    let alloc = rt.alloc();
    let first = closed(handle, alloc, journals, order)?;
    let explained = match first {
        Some(explained) => explained,
        None => closed(handle, alloc, journals, order)?.ok_or(Wrong::Memory)?,
    };
    let text = text_of(alloc, &explained.journals)?;
    let unclaimed = explained.unclaimed;
    let _printed = print!(rt; "unclaimed {unclaimed}\n{text}");
    Ok(())
}

/// What comes of a cluster that was asked all this, once it is closed; none where closing it was refused memory.
fn closed<H: Wait>(
    handle: &H,
    alloc: Global,
    journals: &Journals,
    order: &[Part],
) -> Result<Option<Explained>, Wrong> {
    let cluster = new_cluster(alloc, journals)?;
    let mut caller = new_caller(alloc, &cluster)?;
    ask_all(handle, alloc, &cluster, &mut caller, journals, order)?;
    let mut callers = Vec::new(alloc);
    if callers.reserve(1).is_err() {
        callers.reserve(1)?;
    }
    callers.push_reserved(caller);
    match cluster.close(alloc, callers) {
        Ok(explained) => Ok(Some(explained)),
        Err(CloseFault::Memory) => Ok(None),
        Err(_) => Err(Wrong::Otherwise),
    }
}

/// A cluster that was asked nothing, made once more where memory is refused.
fn new_cluster(alloc: Global, journals: &Journals) -> Result<Cluster<OpenGate>, Wrong>
    ensures levels { IfOk result (λ cluster. cluster.levels ≡ journals.now.levels) }
    ensures limits { IfOk result (λ cluster. cluster.limits ≡ journals.now.limits) }
{
    let (levels, limits) = (journals.levels(), journals.limits());
    match Cluster::new(alloc, levels, limits, OpenGate) {
        Ok(cluster) => Ok(cluster),
        Err(_) => Ok(Cluster::new(alloc, levels, limits, OpenGate)?),
    }
}

/// A caller of the cluster that was told nothing, made once more where memory is refused.
fn new_caller(alloc: Global, cluster: &Cluster<OpenGate>) -> Result<Caller, Wrong>
    ensures { IfOk result (λ caller. caller.levels ≡ cluster.now.levels) }
{
    match cluster.caller(alloc) {
        Ok(caller) => Ok(caller),
        Err(_) => Ok(cluster.caller(alloc)?),
    }
}

/// A board that pulled nothing, made once more where memory is refused.
fn new_board(alloc: Global, journals: &Journals) -> Result<LiveBoard, Wrong>
    ensures levels { IfOk result (λ board. board.levels ≡ journals.now.levels) }
    ensures limits { IfOk result (λ board. board.limits ≡ journals.now.limits) }
{
    let (levels, limits) = (journals.levels(), journals.limits());
    match LiveBoard::new(alloc, levels, limits) {
        Ok(board) => Ok(board),
        Err(_) => Ok(LiveBoard::new(alloc, levels, limits)?),
    }
}

/// Asks the parts all that the journals say, in that order.
fn ask_all<H: Wait>(
    handle: &H,
    alloc: Global,
    cluster: &Cluster<OpenGate>,
    caller: &mut Caller,
    journals: &Journals,
    order: &[Part],
) -> Result<(), Wrong>
    requires { caller.old.levels ≡ cluster.now.levels }
    ensures { caller.new.levels ≡ caller.old.levels }
{
    for place in 0..order.len() {
        let step = step_at(journals, order, place)?;
        if !ask(handle, alloc, cluster, caller, step)? {
            let step = step_at(journals, order, place)?;
            let is_told = ask(handle, alloc, cluster, caller, step)?;
            if !is_told {
                return Err(Wrong::Memory);
            }
        }
    }
    Ok(())
}

/// Asks a part, and says whether it was told a reply; where not, memory was refused.
fn ask<H: Wait>(
    handle: &H,
    alloc: Global,
    cluster: &Cluster<OpenGate>,
    caller: &mut Caller,
    step: Step,
) -> Result<bool, Wrong>
    requires { caller.old.levels ≡ cluster.now.levels }
    ensures { caller.new.levels ≡ caller.old.levels }
{
    match step {
        Step::Node { server, ask } => {
            let levels = cluster.levels();
            let Some(server) = levels.server(server) else {
                return Err(Wrong::Otherwise);
            };
            is_told(cluster.ask_node(handle, alloc, caller, server, ask))
        }
        Step::Desk(ask) => is_told(cluster.ask_desk(handle, alloc, caller, ask)),
        Step::View(ask) => is_told(cluster.ask_view(handle, alloc, caller, ask)),
    }
}

/// Whether an ask was told a reply; where not, memory was refused.
fn is_told<T: Drop>(answer: Result<T, AskFault>) -> Result<bool, Wrong> {
    match answer {
        Ok(_) => Ok(true),
        Err(AskFault::Memory) => Ok(false),
        Err(_) => Err(Wrong::Otherwise),
    }
}
