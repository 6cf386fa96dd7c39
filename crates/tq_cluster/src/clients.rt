//! Clients and workers in threads of their own.

ghost use Rattle.std.specs.Prelude.{◌≡◌, ◌<◌, ◌≤◌, ◌+◌, ◌-◌, ℕ, [], ◌∷◌, ◌++◌, List, length, vec_len, vec_capacity, true, false};
ghost use Rattle.crossbeam_channel.specs.{Claims.view, Ends.sends_on};
ghost use Rattle.tq_cluster.specs.{Rule.{hand, IsPrefixTaken}, declared.workers.Message.Message};
ghost use Rattle.tq_cluster.specs.Told.{AreToldByParts, CallerView};
ghost use Rattle.tq_cluster.specs.Clients.{AllBegan, AllRan, if_made, BeganBackwards, HaveBegun, IsClient, RunBackwards};

use crate::Putter;
use crate::asking::Asking;
use crate::caller::Caller;
use crate::cluster::Cluster;
use crate::workers::{Ended, Message, Team, either, run_workers};
use std::alloc::Global;
use std::snapshot::Snapshot;
use std::sync::Wait;
use std::thread;
use std::thread::{Promise, Scope, Threads};
use tq_cells::Gate;
use tq_shape::{Levels, Limits};
use tq_syntax::Script;
use tq_txn::run_script;

/// How many jobs wait in the queue at most.
const ROOM: usize = 64;

/// As many asks as a line of a script makes, about.
const ASKS: usize = 8;

/// The callers that were made, and whether any met want of memory.
#[derive(Drop)]
pub struct Ran {
    /// Those of the scripts, in their order, then those of the workers, then the one that pulled the board.
    pub callers: Vec<Caller>,
    /// Memory was refused to one of them, or to the queue, the board or a thread.
    pub memory: bool,
    /// Each of them was made, so that none is missing. Where it is not so, memory was refused.
    pub whole: bool,
}

/// The caller that a thread made and ran a script by, if one could be made, and whether memory was refused.
#[derive(Drop)]
pub(crate) struct Client {
    pub(crate) caller: Option<Caller>,
    pub(crate) memory: bool,
}

/// Runs a script, by a caller of its own.
fn run_client<R: Wait, G: Gate + Drop>(
    rt: &R,
    alloc: Global,
    cluster: &Cluster<G>,
    script: &Script,
) -> Client
    ensures { IsClient cluster.now.levels cluster.now.limits script.now
        result.memory result.caller }
{
    let Ok(mut caller) = cluster.caller(alloc) else {
        return Client {
            caller: None,
            memory: true,
        };
    };
    caller.make_room(script.lines().len().saturating_mul(ASKS));
    let levels = cluster.levels();
    let limits = cluster.limits();
    let mut asking = Asking::new(rt, cluster, caller);
    let ended = run_script(&mut asking, alloc, levels, limits, script);
    Client {
        caller: Some(asking.into_caller()),
        memory: ended.is_err(),
    }
}

/// The caller that comes back was told what the script's lines make, or the first of it where memory ran out.
#[derive(Clone, Copy)]
pub(crate) struct Follows<'a>(Levels, Limits, &'a Script);

impl<'a> Promise<Client> for Follows<'a> {
    ghost kept_by = { λ p r. IsClient p.0 p.1 p.2.now r.memory r.caller };
}

/// Puts the caller behind those that are there, if it was made, and says so.
fn put_made(callers: &mut Vec<Caller>, made: Option<Caller>) -> bool
    requires { vec_len callers.old < vec_capacity callers.old }
    ensures items { callers.new.items ≡ callers.old.items ++ if_made made }
    ensures whole { result ≡ true → vec_len callers.new ≡ vec_len callers.old + 1 }
    ensures len { vec_len callers.new ≤ vec_len callers.old + 1 }
    ensures room { vec_capacity callers.new ≡ vec_capacity callers.old }
{
    match made {
        Some(caller) => {
            callers.push_reserved(caller);
            true
        }
        None => false,
    }
}

/// Whether both are so.
fn both(one: bool, other: bool) -> bool
    ensures { result ≡ true → (one ≡ true) × (other ≡ true) }
{
    one && other
}

/// Runs each script in a thread of its own, and then the workers, and puts all callers behind those that are there, the
/// one that was made last first: also where another thread is refused, or memory for its caller. A script whose thread is
/// refused has no caller.
fn run_all<'s, 'e: 's, R: Threads + Wait + Sync, G: Gate + Drop + Sync>(
    scope: &'s Scope<'s, &'e ()>,
    rt: &'e R,
    alloc: Global,
    cluster: &'e Cluster<G>,
    scripts: &'e [Script],
    team: Team,
    putter: &mut Putter<Message>,
    callers: &mut Vec<Caller>,
) -> Ended
    requires parts { team.workers < (view putter.old.pass).parts }
    requires room { vec_len callers.old + length scripts.now + team.workers + 1
        ≤ vec_capacity callers.old }
    ensures ran { result.memory ≡ false → (more : List CallerView) × (taken : List (ℕ × Message))
        × (callers.new.items ≡ callers.old.items ++ more)
        × ((view putter.new.pass).taken ≡ (view putter.old.pass).taken ++ taken)
        × RunBackwards cluster.now.levels cluster.now.limits scripts.now team.workers taken more }
    ensures began { HaveBegun cluster.now.levels cluster.now.limits scripts.now
        callers.old.items callers.new.items }
    ensures parts { result.memory ≡ false
        → (view putter.new.pass).parts ≡ (view putter.old.pass).parts }
    ensures whole { result.whole ≡ true → vec_len callers.new
        ≡ vec_len callers.old + length scripts.now + team.workers + 1 }
    ensures len { vec_len callers.new
        ≤ vec_len callers.old + length scripts.now + team.workers + 1 }
    ensures room { vec_capacity callers.new ≡ vec_capacity callers.old }
{
    let [script, rest @ ..] = scripts else {
        return run_workers(scope, rt, alloc, cluster, team, 0, putter, callers);
    };
    let started = scope.spawn_with(
        Follows(cluster.levels(), cluster.limits(), script),
        move || -> Client
            ensures { IsClient cluster.entry.now.levels cluster.entry.now.limits
                script.entry.now result.memory result.caller }
        { run_client(rt, alloc, cluster, script) },
    );
    match started {
        Ok(child) => {
            let ended = run_all(scope, rt, alloc, cluster, rest, team, putter, callers);
            let Client {
                caller,
                memory: mine,
            } = child.join(rt);
            let made = put_made(callers, caller);
            Ended {
                memory: either(ended.memory, mine),
                whole: both(ended.whole, made),
            }
        }
        Err(refused) => {
            drop(refused);
            Ended {
                memory: true,
                whole: false,
            }
        }
    }
}

/// All that a run left: its callers, the one that was made last first, and the end of the queue as it was when all had
/// come back to it, for the proofs alone.
#[derive(Drop)]
struct JoinedRun {
    callers: Vec<Caller>,
    queue: Snapshot<Putter<Message>>,
    ended: Ended,
}

/// Runs the scripts and the workers in threads, and joins them. Unless memory was refused, what the workers took together
/// is the first of what was put, in order, each once, and each did the jobs that it took.
fn run_in_threads<R: Threads + Wait + Sync, G: Gate + Drop + Sync>(
    rt: &R,
    alloc: Global,
    cluster: &Cluster<G>,
    scripts: &[Script],
    team: Team,
    mut putter: Putter<Message>,
    mut callers: Vec<Caller>,
) -> JoinedRun
    requires workers { team.workers ≤ 2 }
    requires room { length scripts.now + team.workers + 1 ≤ vec_capacity callers }
    requires empty { callers.items ≡ [] }
    requires fresh { view putter.pass ≡ hand 1024 true [] [] }
    ensures ran { result.ended.memory ≡ false
        → RunBackwards cluster.now.levels cluster.now.limits scripts.now team.workers
        (view result.queue.value.pass).taken result.callers.items }
    ensures began { BeganBackwards cluster.now.levels cluster.now.limits scripts.now
        result.callers.items }
    ensures whole { result.ended.whole ≡ true
        → vec_len result.callers ≡ length scripts.now + team.workers + 1 }
    ensures once { result.ended.memory ≡ false → (items : List Message) × IsPrefixTaken
        (view result.queue.value.pass).put (view result.queue.value.pass).taken items }
{
    let (callers, mut putter, ended) = thread::scope(
        thread::scope_env(),
        rt,
        |scope| -> (Vec<Caller>, Putter<Message>, Ended)
            requires { (team.workers ≤ 2)
                × (vec_len callers + length scripts.now + team.workers + 1 ≤ vec_capacity callers)
                × (callers.items ≡ []) × (view putter.pass ≡ hand 1024 true [] []) }
            ensures { (result.2.memory ≡ false → RunBackwards cluster.entry.now.levels
                cluster.entry.now.limits scripts.entry.now team.workers (view result.1.pass).taken
                result.0.items × ((view result.1.pass).parts ≡ 1024))
                × BeganBackwards cluster.entry.now.levels cluster.entry.now.limits
                scripts.entry.now result.0.items
                × (result.2.whole ≡ true → vec_len result.0
                ≡ length scripts.entry.now + team.workers + 1) }
        {
            let ended = run_all(
                scope,
                rt,
                alloc,
                cluster,
                scripts,
                team,
                &mut putter,
                &mut callers,
            );
            (callers, putter, ended)
        },
    );
    let queue = Snapshot::of(&putter);
    if ended.memory {
        return JoinedRun {
            callers,
            queue,
            ended,
        };
    }
    putter.settle();
    JoinedRun {
        callers,
        queue,
        ended,
    }
}

/// All that these callers were told was told by parts. This does nothing, and says so.
fn see_told(callers: &[Caller])
    ensures { AreToldByParts callers.now }
{
    for caller in callers {
        let _ = &caller.told;
    }
}

impl<G: Gate + Drop + Sync> Cluster<G> {
    /// Runs each script in a thread of its own, by a caller of its own, while so many workers, each in a thread of its
    /// own too, refresh stale copies: so often the calling thread pulls the board, plans, and puts the jobs into the
    /// workers' queue. It gives the callers back once all threads have ended: every one that was made. Where a caller, the
    /// queue or a thread is refused, the threads that were started run to their end, and memory is refused. Each caller
    /// was told the first of what its script asks, or its jobs; all of it unless memory was refused.
    #[tactic(auto, using(crate::proofs::Callers::run_in_order, crate::proofs::Callers::began_in_order, crate::proofs::Callers::none_in_order,))]
    pub fn run_clients<R: Threads + Wait + Sync>(
        &self,
        rt: &R,
        alloc: Global,
        scripts: Vec<Script>,
        workers: u32,
        rounds: u32,
    ) -> Ran
        requires scripts { vec_len scripts ≤ 16 }
        requires workers { workers ≤ 2 }
        requires rounds { rounds ≤ 1000 }
        ensures ran { result.memory ≡ false
            → AllRan self.now.levels self.now.limits scripts.items workers result.callers.items }
        ensures began { AllBegan self.now.levels self.now.limits scripts.items
            result.callers.items }
        ensures whole { result.whole ≡ true
            → vec_len result.callers ≡ vec_len scripts + workers + 1 }
        ensures told { AreToldByParts result.callers.items }
    {
        let mut callers = Vec::new(alloc);
        let many = scripts.len() + workers as usize + 1;
        if callers.reserve(many).is_err() {
            return Ran {
                callers,
                memory: true,
                whole: false,
            };
        }
        let Ok(putter) = Putter::new(alloc, ROOM) else {
            return Ran {
                callers,
                memory: true,
                whole: false,
            };
        };
        let team = Team { workers, rounds };
        let JoinedRun {
            mut callers,
            queue: _,
            ended,
        } = run_in_threads(rt, alloc, self, scripts.as_slice(), team, putter, callers);
        callers.reverse();
        see_told(callers.as_slice());
        Ran {
            callers,
            memory: ended.memory,
            whole: ended.whole,
        }
    }
}
