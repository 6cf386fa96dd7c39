//! Rounds of refreshes: the board is pulled, and its jobs are put.

ghost use Rattle.std.specs.Prelude.{◌≡◌, ◌≤◌, ◌<◌, ◌+◌, ℕ, [], ◌∷◌, ◌++◌, List, false, true, vec_len, vec_capacity};
ghost use Rattle.std.specs.Bool.{OnTrue};
ghost use Rattle.crossbeam_channel.specs.{Claims.view, Ends.sends_on};
ghost use Rattle.tq_refresh.specs.Plan.{ArePlanned, jobs_in, jobs_of_plan};
ghost use Rattle.tq_cluster.specs.{declared.workers.Message.Message, Rounds.{AreRounds, IsPut, IsRound, with_jobs}};
ghost use Rattle.tq_cluster.specs.{Told.CallerView, Clients.{HaveBegun, WorkBackwards}};
ghost use Rattle.tq_tables.specs.Journals.{JournalsView};

use crate::Putter;
use crate::caller::Caller;
use crate::cluster::Cluster;
use crate::live_board::LiveBoard;
use crate::workers::{Ended, Message, Team, either};
use std::alloc::Global;
use std::sync::Wait;
use tq_cells::Gate;
use tq_mirror::PullFault;
use tq_refresh::{FileJobs, Job, PlanByFile, plan_by_file};
use tq_shape::ServerSet;

/// How a round ended.
#[derive(Clone, Copy)]
pub(crate) enum Round {
    /// The jobs of the plan were put, all of them, where there are workers.
    Put,
    /// The queue took one of them no more, which it does where no one is left who takes.
    Refused,
    /// Entries that do not continue the board were pulled: no job was put.
    Foreign,
    /// Memory was refused: no job was put.
    Memory,
}

/// Puts the jobs of one file, upwards, where `up` is the set of the servers that are marked up. False where the queue took
/// one of them no more: the first of them were put then.
fn put_jobs_of<R: Wait>(
    rt: &R,
    putter: &mut Putter<Message>,
    of_file: &FileJobs,
    up: &ServerSet,
) -> bool
    requires { of_file.now.stale.levels ≡ up.now.levels }
    ensures put { OnTrue result ((view putter.new.pass).put
        ≡ with_jobs (view putter.old.pass).put (jobs_in up.now of_file.now)) }
    ensures channel { sends_on putter.new.sender ≡ sends_on putter.old.sender }
    ensures parts { (view putter.new.pass).parts ≡ (view putter.old.pass).parts }
    ensures taken { (view putter.new.pass).taken ≡ (view putter.old.pass).taken }
{
    for stale in of_file.stale.iter() {
        if up.contains(stale) {
            let job = Job {
                file: of_file.file,
                server: stale,
                source: of_file.source,
            };
            if !putter.put(rt, Message::Job(job)) {
                return false;
            }
        }
    }
    true
}

/// Puts the jobs of a plan, file by file, as `put_jobs_of` those of one.
fn put_jobs<R: Wait>(rt: &R, putter: &mut Putter<Message>, plan: &PlanByFile) -> bool
    requires { ArePlanned plan.now.up.levels plan.now }
    ensures put { OnTrue result ((view putter.new.pass).put
        ≡ with_jobs (view putter.old.pass).put (jobs_of_plan plan.now)) }
    ensures channel { sends_on putter.new.sender ≡ sends_on putter.old.sender }
    ensures parts { (view putter.new.pass).parts ≡ (view putter.old.pass).parts }
    ensures taken { (view putter.new.pass).taken ≡ (view putter.old.pass).taken }
{
    for of_file in plan.files.as_slice() {
        if !put_jobs_of(rt, putter, of_file, &plan.up) {
            return false;
        }
    }
    true
}

/// Plans over the board by files, in memory for its files and servers and not for each job, and puts the jobs where there
/// are workers.
fn put_plan<R: Wait>(
    rt: &R,
    alloc: Global,
    board: &LiveBoard,
    workers: u32,
    putter: &mut Putter<Message>,
) -> Round
    ensures put { IsPut result workers board.now
        (view putter.old.pass).put (view putter.new.pass).put }
    ensures pulled { result ≡ Round.Foreign → ⊥ }
    ensures channel { sends_on putter.new.sender ≡ sends_on putter.old.sender }
    ensures parts { (view putter.new.pass).parts ≡ (view putter.old.pass).parts }
    ensures taken { (view putter.new.pass).taken ≡ (view putter.old.pass).taken }
{
    let tables = board.tables();
    let Ok(plan) = plan_by_file(alloc, tables, tables.view()) else {
        return Round::Memory;
    };
    if workers == 0 {
        return Round::Put;
    }
    if put_jobs(rt, putter, &plan) {
        Round::Put
    } else {
        Round::Refused
    }
}

/// Puts so many stops: one for each worker.
pub(crate) fn stop<R: Wait>(rt: &R, putter: &mut Putter<Message>, workers: u32)
    ensures channel { sends_on putter.new.sender ≡ sends_on putter.old.sender }
    ensures parts { (view putter.new.pass).parts ≡ (view putter.old.pass).parts }
    ensures taken { (view putter.new.pass).taken ≡ (view putter.old.pass).taken }
{
    for _ in 0..workers {
        putter.put(rt, Message::Stop);
    }
}

/// One round: pulls the board, plans, and puts the jobs where there are workers. Entries that do not continue the board
/// give none, and where memory is refused the round is given up.
fn run_round<R: Wait, G: Gate + Drop>(
    rt: &R,
    alloc: Global,
    cluster: &Cluster<G>,
    workers: u32,
    board: &mut LiveBoard,
    caller: &mut Caller,
    putter: &mut Putter<Message>,
) -> Round
    requires caller { caller.old.levels ≡ cluster.now.levels }
    requires levels { board.old.levels ≡ cluster.now.levels }
    requires limits { board.old.limits ≡ cluster.now.limits }
    ensures round { IsRound result workers board.old board.new caller.old caller.new
        (view putter.old.pass).put (view putter.new.pass).put }
    ensures told { caller.new.told ≡ caller.old.told }
    ensures tree { caller.new.levels ≡ caller.old.levels }
    ensures levels { board.new.levels ≡ board.old.levels }
    ensures limits { board.new.limits ≡ board.old.limits }
    ensures channel { sends_on putter.new.sender ≡ sends_on putter.old.sender }
    ensures parts { (view putter.new.pass).parts ≡ (view putter.old.pass).parts }
    ensures taken { (view putter.new.pass).taken ≡ (view putter.old.pass).taken }
{
    match board.pull(rt, alloc, cluster, caller) {
        Ok(()) => put_plan(rt, alloc, board, workers, putter),
        Err(PullFault::Memory) => Round::Memory,
        Err(
            PullFault::Foreign {
                part: _,
                entries: _,
            },
        ) => Round::Foreign,
    }
}

/// Whether memory was refused in a round that ended so.
fn is_memory(round: Round) -> bool
    ensures { result ≡ false → round ≡ Round.Memory → ⊥ }
{
    matches!(round, Round::Memory)
}

/// Pulls the board so often as the team says, by a caller of its own, and puts the jobs of each round; then it puts a
/// stop for each worker. Its caller is put behind those that are there. Memory is told of whichever round it was refused in.
pub(crate) fn run_rounds<R: Wait, G: Gate + Drop>(
    rt: &R,
    alloc: Global,
    cluster: &Cluster<G>,
    team: Team,
    putter: &mut Putter<Message>,
    callers: &mut Vec<Caller>,
) -> Ended
    requires room { vec_len callers.old + 1 ≤ vec_capacity callers.old }
    ensures ran { result.memory ≡ false → (more : List CallerView) × (taken : List (ℕ × Message))
        × (callers.new.items ≡ callers.old.items ++ more)
        × ((view putter.new.pass).taken ≡ (view putter.old.pass).taken ++ taken)
        × WorkBackwards cluster.now.levels 0 taken more }
    ensures rounds { result.memory ≡ false → (board : JournalsView) × (own : CallerView)
        × (put : List Message) × (callers.new.items ≡ callers.old.items ++ own ∷ [])
        × AreRounds cluster.now.levels cluster.now.limits team.workers team.rounds board own
        (view putter.old.pass).put put }
    ensures began { HaveBegun cluster.now.levels cluster.now.limits []
        callers.old.items callers.new.items }
    ensures channel { sends_on putter.new.sender ≡ sends_on putter.old.sender }
    ensures parts { (view putter.new.pass).parts ≡ (view putter.old.pass).parts }
    ensures whole { result.whole ≡ true → vec_len callers.new ≡ vec_len callers.old + 1 }
    ensures len { vec_len callers.new ≤ vec_len callers.old + 1 }
    ensures room { vec_capacity callers.new ≡ vec_capacity callers.old }
{
    let Ok(mut caller) = cluster.caller(alloc) else {
        stop(rt, putter, team.workers);
        return Ended {
            memory: true,
            whole: false,
        };
    };
    let Ok(mut board) = LiveBoard::new(alloc, cluster.levels(), cluster.limits()) else {
        stop(rt, putter, team.workers);
        callers.push_reserved(caller);
        return Ended {
            memory: true,
            whole: true,
        };
    };
    let mut memory = false;
    for made in 0..team.rounds {
        let round = run_round(
            rt,
            alloc,
            cluster,
            team.workers,
            &mut board,
            &mut caller,
            putter,
        );
        memory = either(memory, is_memory(round));
    }
    stop(rt, putter, team.workers);
    callers.push_reserved(caller);
    Ended {
        memory,
        whole: true,
    }
}
