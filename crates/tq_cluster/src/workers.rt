//! Workers that take jobs from the queue.

ghost use Rattle.std.specs.Prelude.{◌≡◌, ◌<◌, ◌≤◌, ◌+◌, ◌-◌, ℕ, [], ◌∷◌, ◌++◌, List, false, true, IfSome, IfNone, vec_len, vec_capacity};
ghost use Rattle.crossbeam_channel.specs.{Claims.view, Ends.{sends_on, receives_on}};
ghost use Rattle.tq_cluster.specs.{declared.workers.Message.Message, Told.CallerView};
ghost use Rattle.tq_cluster.specs.Clients.{BeginsJobs, JobsBegin, HaveBegun, jobs_in, Works, WorkBackwards};

use crate::asking::Asking;
use crate::caller::Caller;
use crate::cluster::Cluster;
use crate::rounds::{run_rounds, stop};
use crate::{Putter, Taker};
use std::alloc::Global;
use std::snapshot::Snapshot;
use std::sync::Wait;
use std::thread::{Promise, Scope, Threads};
use tq_cells::Gate;
use tq_refresh::{Job, refresh};
use tq_shape::Levels;

/// What lies in the queue of jobs.
#[derive(Drop)]
pub(crate) enum Message {
    Job(Job),
    Stop,
}

/// How many workers refresh, and how often the board is pulled for them.
#[derive(Clone, Copy)]
pub(crate) struct Team {
    pub(crate) workers: u32,
    pub(crate) rounds: u32,
}

/// A worker's end: its caller, its end of the queue, and whether it met want of memory.
#[derive(Drop)]
pub(crate) struct WorkerResult {
    pub(crate) caller: Caller,
    pub(crate) taker: Taker<Message>,
    pub(crate) memory: bool,
}

/// The job that is next in the queue; none at a stop.
fn next_job<R: Wait>(rt: &R, taker: &mut Taker<Message>) -> Option<Job>
    ensures channel { receives_on taker.new.receiver ≡ receives_on taker.old.receiver }
    ensures job { IfSome result (λ job. jobs_in (view taker.new.pass).taken
        ≡ jobs_in (view taker.old.pass).taken ++ job ∷ []) }
    ensures stop { IfNone result (jobs_in (view taker.new.pass).taken
        ≡ jobs_in (view taker.old.pass).taken) }
{
    match taker.take(rt) {
        Some(Message::Job(job)) => Some(job),
        Some(Message::Stop) => None,
        None => None,
    }
}

/// Does the jobs of the queue until it is stopped, by a caller that was told nothing yet. A job that meets want of
/// memory is given up.
fn work<R: Wait, G: Gate + Drop>(
    rt: &R,
    alloc: Global,
    cluster: &Cluster<G>,
    caller: Caller,
    mut taker: Taker<Message>,
) -> WorkerResult
    requires tree { caller.levels ≡ cluster.now.levels }
    requires fresh { caller.told ≡ [] }
    requires idle { (view taker.pass).taken ≡ [] }
    ensures told { result.memory ≡ false
        → Works cluster.now.levels (view result.taker.pass).taken result.caller }
    ensures began { BeginsJobs cluster.now.levels result.caller }
    ensures channel { receives_on result.taker.receiver ≡ receives_on taker.receiver }
{
    let levels = cluster.levels();
    let mut asking = Asking::new(rt, cluster, caller);
    let mut memory = false;
    for _ in rt.forever() {
        let Some(job) = next_job(rt, &mut taker) else {
            break;
        };
        let refused = refresh(&mut asking, alloc, levels, &job);
        memory = either(memory, refused);
    }
    WorkerResult {
        caller: asking.into_caller(),
        taker,
        memory,
    }
}

/// The worker's caller was told what the jobs ask that it took, or the first of it where memory ran out, and its end is
/// one of the same queue.
#[derive(Drop)]
pub(crate) struct WorkerPromise(Levels, Snapshot<Taker<Message>>);

impl Promise<WorkerResult> for WorkerPromise {
    ghost kept_by = { λ p r. (r.memory ≡ false → Works p.0 (view r.taker.pass).taken r.caller)
        × (receives_on r.taker.receiver ≡ receives_on p.1.value.receiver)
        × BeginsJobs p.0 r.caller };
}

/// What a worker's thread takes along.
#[derive(Drop)]
struct WorkerSeat {
    caller: Caller,
    taker: Taker<Message>,
}

/// What one worker more takes along. Where it is refused, those that were started are stopped.
fn seat_for_worker<R: Wait, G: Gate + Drop>(
    rt: &R,
    alloc: Global,
    cluster: &Cluster<G>,
    started: u32,
    putter: &mut Putter<Message>,
) -> Option<WorkerSeat>
    requires { 1 < (view putter.old.pass).parts }
    ensures caller { IfSome result (λ r. (r.caller.levels ≡ cluster.now.levels)
        × (r.caller.told ≡ [])) }
    ensures taker { IfSome result (λ r. (receives_on r.taker.receiver ≡ sends_on putter.new.sender)
        × ((view r.taker.pass).taken ≡ [])
        × ((view putter.new.pass).parts + 1 ≡ (view putter.old.pass).parts)) }
    ensures channel { sends_on putter.new.sender ≡ sends_on putter.old.sender }
    ensures taken { (view putter.new.pass).taken ≡ (view putter.old.pass).taken }
    ensures some_part { 0 < (view putter.new.pass).parts }
{
    let Ok(taker) = putter.taker() else {
        stop(rt, putter, started);
        return None;
    };
    let Ok(caller) = cluster.caller(alloc) else {
        stop(rt, putter, started);
        return None;
    };
    Some(WorkerSeat { caller, taker })
}

/// How threads ended that were joined.
#[derive(Clone, Copy)]
pub(crate) struct Ended {
    /// Memory was refused to one of them, or to what they were to have.
    pub(crate) memory: bool,
    /// Each of them had a caller.
    pub(crate) whole: bool,
}

/// Whether one of the two is so.
pub(crate) fn either(one: bool, other: bool) -> bool
    ensures { result ≡ false → (one ≡ false) × (other ≡ false) }
{
    one || other
}

/// Starts the workers that are not started yet, pulls the board and puts the jobs for all of them, and joins them. Their
/// callers are put behind those that are there, the calling thread's first, and then the last worker's. Where a caller,
/// an end of the queue or a thread is refused, those that were started are stopped and come back, and no jobs are put; a
/// worker whose thread is refused is stopped with them, in the calling thread.
pub(crate) fn run_workers<'s, 'e: 's, R: Threads + Wait + Sync, G: Gate + Drop + Sync>(
    scope: &'s Scope<'s, &'e ()>,
    rt: &'e R,
    alloc: Global,
    cluster: &'e Cluster<G>,
    team: Team,
    started: u32,
    putter: &mut Putter<Message>,
    callers: &mut Vec<Caller>,
) -> Ended
    requires started { started ≤ team.workers }
    requires parts { team.workers - started < (view putter.old.pass).parts }
    requires room { vec_len callers.old + (team.workers - started) + 1 ≤ vec_capacity callers.old }
    ensures ran { result.memory ≡ false → (more : List CallerView) × (taken : List (ℕ × Message))
        × (callers.new.items ≡ callers.old.items ++ more)
        × ((view putter.new.pass).taken ≡ (view putter.old.pass).taken ++ taken)
        × WorkBackwards cluster.now.levels (team.workers - started) taken more }
    ensures began { HaveBegun cluster.now.levels cluster.now.limits []
        callers.old.items callers.new.items }
    ensures channel { sends_on putter.new.sender ≡ sends_on putter.old.sender }
    ensures parts { result.memory ≡ false
        → (view putter.new.pass).parts ≡ (view putter.old.pass).parts }
    ensures some_part { 0 < (view putter.new.pass).parts }
    ensures whole { result.whole ≡ true
        → vec_len callers.new ≡ vec_len callers.old + (team.workers - started) + 1 }
    ensures len { vec_len callers.new ≤ vec_len callers.old + (team.workers - started) + 1 }
    ensures room { vec_capacity callers.new ≡ vec_capacity callers.old }
{
    if started == team.workers {
        return run_rounds(rt, alloc, cluster, team, putter, callers);
    }
    let Some(taken) = seat_for_worker(rt, alloc, cluster, started, putter) else {
        return Ended {
            memory: true,
            whole: false,
        };
    };
    let WorkerSeat { caller, taker } = taken;
    let child = scope.spawn_with(
        WorkerPromise(cluster.levels(), Snapshot::of(&taker)),
        move || -> WorkerResult
            requires { (caller.levels ≡ cluster.now.levels) × (caller.told ≡ [])
                × ((view taker.pass).taken ≡ []) }
            ensures { (result.memory ≡ false → Works cluster.entry.now.levels
                (view result.taker.pass).taken result.caller)
                × (receives_on result.taker.receiver ≡ receives_on taker.receiver)
                × BeginsJobs cluster.entry.now.levels result.caller }
        { work(rt, alloc, cluster, caller, taker) },
    );
    match child {
        Ok(child) => {
            let ended = run_workers(
                scope,
                rt,
                alloc,
                cluster,
                team,
                started + 1,
                putter,
                callers,
            );
            let WorkerResult {
                caller,
                taker,
                memory: mine,
            } = child.join(rt);
            putter.rejoin(taker);
            callers.push_reserved(caller);
            Ended {
                memory: either(ended.memory, mine),
                whole: ended.whole,
            }
        }
        Err(refused) => {
            stop(rt, putter, started + 1);
            let WorkerResult {
                caller,
                taker,
                memory: _,
            } = (refused.value)();
            putter.rejoin(taker);
            callers.push_reserved(caller);
            Ended {
                memory: true,
                whole: false,
            }
        }
    }
}
