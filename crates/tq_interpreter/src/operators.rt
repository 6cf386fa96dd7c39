//! The lines of operators: the refresh and the board.
ghost use Rattle.std.specs.Prelude.{◌≡◌, ◌≤◌, ◌+◌, ◌++◌, List, None, Some, length, true, false, IfOk, IfSome, OnOk, OnErr, string_bytes};
ghost use Rattle.std.specs.{Fmt.decimal, Option.option_map};
ghost use Rattle.tq_core.specs.{Founded.unfounded_in_node_ask, Steps.world_after, World.server_entry};
ghost use Rattle.tq_core.specs.declared.answer.Step.TheVariants as steps;
ghost use Rattle.tq_refresh.specs.Plan.{answer_in, is_refreshed, mends_asked, ArePlanned, IsPlanned, jobs_in, jobs_of_plan, peek_of};
ghost use Rattle.tq_refresh.specs.declared.job.Job.{Job};
ghost use Rattle.tq_txn.specs.Dialogue.{fault_of_ask};
ghost use Rattle.tq_interpreter.specs.{Known.IsLater, Recorded.{node_told, run_line}};
ghost use Rattle.tq_interpreter.specs.Answer as spec;
ghost use Rattle.tq_shape.specs.Journal.{entry};
ghost use Rattle.tq_text.specs.Print.{Extends, printed_line, Appends, Prints, is_memory};

use crate::recorder::{Recorder, copy_of_node_ask};
use std::alloc::{AllocError, Global};
use tq_asks::{NodeAsk, NodeReply};
use tq_board_text::render;
use tq_core::Service;
use tq_refresh::{FileJobs, Job, PlanByFile, copy_ask_of, plan_by_file};
use tq_shape::{Answered, AskFault, Memory, ServerId, ServerSet, Shared};
use tq_store::{Content, FileName};
use tq_text::{push_at, say_number};

/// How many jobs there were, and how many of them mended a copy.
#[derive(Clone, Copy)]
struct Counts {
    jobs: usize,
    mended: usize,
}

/// What is said of each server at which a copy of a file was mended from a source, before the server's number and behind it.
#[derive(Drop)]
struct MendedText {
    front: Vec<u8>,
    back: Vec<u8>,
}

/// Puts the board of the service behind the text.
pub(crate) fn say_board(service: &Service, alloc: Global, text: &mut Vec<u8>) -> Result<(), Memory>
    ensures text { OnOk result (Appends text.old text.new (spec.board_of service.now)) }
    ensures kept { OnErr result (Extends text.old.items text.new.items) }
{
    let board = board_of(service, alloc)?;
    text.extend_from_slice(board.as_bytes())?;
    Ok(())
}

/// The board of the service.
fn board_of(service: &Service, alloc: Global) -> Result<String, Memory>
    ensures { IfOk result (λ board. string_bytes board ≡ spec.board_of service.now) }
{
    let tables = service.tables();
    render(alloc, tables, service.view())
}

/// Mends the stale copies that can be mended now. What came of each goes behind the text, as a line, and then how many
/// were mended of how many jobs.
pub(crate) fn refresh_all(
    recorder: &mut Recorder,
    alloc: Global,
    text: &mut Vec<u8>,
) -> Result<(), Memory>
    ensures text { OnOk result
        (Appends text.old text.new (spec.refresh_run recorder.old.journals).end) }
    ensures after { OnOk result
        (recorder.new.journals ≡ (spec.refresh_run recorder.old.journals).after) }
    ensures later { IsLater recorder.old recorder.new }
    ensures kept { OnErr result (Extends text.old.items text.new.items) }
{
    let plan = current_plan(recorder.service(), alloc)?;
    let counts = mend_all(recorder, alloc, &plan, text)?;
    say_count(text, counts.mended as u64, counts.jobs as u64)?;
    Ok(())
}

/// The jobs of a refresh by their files, as the service stands now.
fn current_plan(service: &Service, alloc: Global) -> Result<PlanByFile, Memory>
    ensures jobs { IfOk result (λ plan. jobs_of_plan plan ≡ spec.refresh_jobs service.now) }
    ensures of_tree { IfOk result (λ plan. ArePlanned service.now.levels plan) }
{
    let tables = service.tables();
    plan_by_file(alloc, tables, service.view())
}

/// Does the jobs one after another: a line for each goes behind the text, and how many there were, and how many copies
/// were mended, is answered.
#[tactic(auto, using(tq_text::proofs::Extended::extends_more))]
fn mend_all(
    recorder: &mut Recorder,
    alloc: Global,
    plan: &PlanByFile,
    text: &mut Vec<u8>,
) -> Result<Counts, Memory>
    requires { ArePlanned recorder.old.journals.levels plan.now }
    ensures text { OnOk result
        (text.new.items ≡ (spec.plan_run recorder.old text.old plan.now).end.text) }
    ensures count { IfOk result (λ counts.
        counts.mended ≡ (spec.plan_run recorder.old text.old plan.now).end.count) }
    ensures jobs { IfOk result (λ counts. counts.jobs ≡ length (jobs_of_plan plan.now)) }
    ensures after { OnOk result
        (recorder.new.journals ≡ (spec.plan_run recorder.old text.old plan.now).after) }
    ensures later { IsLater recorder.old recorder.new }
    ensures kept { Extends text.old.items text.new.items }
{
    let mut counts = Counts { jobs: 0, mended: 0 };
    let mut said = MendedText {
        front: Vec::new(alloc),
        back: Vec::new(alloc),
    };
    for of_file in plan.files.as_slice() {
        mend_file(
            recorder,
            alloc,
            of_file,
            &plan.up,
            &mut said,
            text,
            &mut counts,
        )?;
    }
    Ok(counts)
}

/// Does the jobs of one file, where `up` is the set of the servers that are marked up as the refresh begins, and counts
/// them. Whatever jobs are behind them lead on from there. `said` is room for what is said of each.
fn mend_file(
    recorder: &mut Recorder,
    alloc: Global,
    of_file: &FileJobs,
    up: &ServerSet,
    said: &mut MendedText,
    text: &mut Vec<u8>,
    counts: &mut Counts,
) -> Result<(), Memory>
    requires planned { IsPlanned recorder.old.journals.levels of_file.now }
    requires up { up.now.levels ≡ recorder.old.journals.levels }
    requires fits { spec.IsCounted counts.old text.old }
    ensures mended { OnOk result ((more : List Job) →
        spec.LeadsOn recorder.old.journals (spec.so_far text.old.items counts.old.mended)
        (jobs_in up.now of_file.now ++ more)
        recorder.new.journals (spec.so_far text.new.items counts.new.mended) more) }
    ensures jobs { OnOk result
        (counts.new.jobs ≡ counts.old.jobs + length (jobs_in up.now of_file.now)) }
    ensures fits { OnOk result (spec.IsCounted counts.new text.new) }
    ensures later { IsLater recorder.old recorder.new }
    ensures kept { Extends text.old.items text.new.items }
{
    let peek = of_file.peek_ask(alloc)?;
    set_mended_text(said, &of_file.file, of_file.source)?;
    let file = Shared::new(alloc, of_file.file)?;
    let mut seen = None;
    for server in of_file.stale.iter() {
        if up.contains(server) {
            let job = Job {
                file: of_file.file,
                server,
                source: of_file.source,
            };
            let ask = copy_of_node_ask(&peek)?;
            let refreshed = mend(recorder, alloc, &job, ask, &file, &mut seen)?;
            say_job(text, said, &job, refreshed)?;
            // Each job left a line, so that there are no more of them than bytes of text.
            counts.jobs += 1;
            counts.mended += usize::from(refreshed);
        }
    }
    Ok(())
}

/// Whether the job mended its copy: its source told one, and the server took it. `seen` is the content that was offered last.
fn mend(
    recorder: &mut Recorder,
    alloc: Global,
    job: &Job,
    peek: NodeAsk,
    file: &Shared<FileName>,
    seen: &mut Option<Shared<Content>>,
) -> Result<bool, Memory>
    requires of_tree { spec.IsOfTree recorder.old.journals.levels job.now }
    requires peek { peek ≡ peek_of job.now.file }
    requires file { file.now ≡ job.now.file }
    ensures value { IfOk result (λ refreshed.
        refreshed ≡ (run_line recorder.old.journals (mends_asked job.now)).end) }
    ensures after { OnOk result
        (recorder.new.journals ≡ (run_line recorder.old.journals (mends_asked job.now)).after) }
    ensures later { IsLater recorder.old recorder.new }
{
    let Some(told) = answer_of(recorder, alloc, job.source, peek)? else {
        return Ok(false);
    };
    let Some(ask) = copy_ask_of(alloc, job, told.number, told.reply, file, seen)? else {
        return Ok(false);
    };
    match answer_of(recorder, alloc, job.server, ask)? {
        Some(answer) => Ok(is_refreshed(&answer.reply)),
        None => Ok(false),
    }
}

/// What a server answers to an ask that is known to be founded; none where the ask was not taken.
#[inline(always)]
fn answer_of(
    recorder: &mut Recorder,
    alloc: Global,
    server: ServerId,
    ask: NodeAsk,
) -> Result<Option<Answered<NodeReply>>, Memory>
    requires of_tree { server.levels ≡ recorder.old.journals.levels }
    requires founded { unfounded_in_node_ask recorder.old.journals ask ≡ None }
    ensures answer { IfOk result (λ told.
        option_map (λ t. (t.number, t.reply)) told
        ≡ answer_in (node_told recorder.old.journals server.number ask)) }
    ensures stands { IfOk result (λ told. IfSome told (λ t.
        server_entry recorder.new.journals server.number t.number ≡ Some (entry ask t.reply))) }
    ensures after { OnOk result (recorder.new.journals
        ≡ world_after recorder.old.journals (steps.Node server.number ask)) }
    ensures later { IsLater recorder.old recorder.new }
{
    recorder.show_replayed();
    let result = recorder.put(alloc, server, ask);
    recorder.show_replayed();
    match result {
        Ok(told) => Ok(Some(told)),
        Err(fault) => {
            pass_over(fault)?;
            Ok(None)
        }
    }
}

/// Passes over why an ask was not taken, unless memory was refused.
fn pass_over(fault: AskFault) -> Result<(), Memory>
    ensures { OnOk result (is_memory (fault_of_ask fault) ≡ false) }
{
    match fault {
        AskFault::Memory => Err(AllocError),
        AskFault::JournalFull { .. } => Ok(()),
        AskFault::Unfounded { .. } => Ok(()),
    }
}

/// Whether a server says that it took a copy.
fn is_refreshed(reply: &NodeReply) -> bool
    ensures { result ≡ is_refreshed reply.now }
{
    match reply {
        NodeReply::Refreshed => true,
        _ => false,
    }
}

/// Puts what came of a job behind the text, as a line, where it is given what is said of a copy that was mended.
fn say_job(text: &mut Vec<u8>, said: &MendedText, job: &Job, refreshed: bool) -> Result<(), Memory>
    requires front { said.now.front.items ≡ spec.mended_front job.now.file }
    requires back { said.now.back.items ≡ spec.mended_back job.now.source.number }
    ensures text { OnOk result (Prints text.old text.new (spec.job_text job.now refreshed)) }
    ensures kept { OnErr result (Extends text.old.items text.new.items) }
{
    if refreshed {
        say_mended(text, said, job.server)?;
    } else {
        say_not_refreshed(text, job)?;
    }
    Ok(())
}

/// Sets what is said of each server at which a copy of the file was mended from the source. Room that it has is used again.
fn set_mended_text(said: &mut MendedText, file: &FileName, source: ServerId) -> Result<(), Memory>
    ensures front { OnOk result (said.new.front.items ≡ spec.mended_front file.now) }
    ensures back { OnOk result (said.new.back.items ≡ spec.mended_back source.number) }
{
    said.front.clear();
    said.front.extend_from_slice(b"refreshed ")?;
    said.front.extend_from_slice(file.as_bytes())?;
    said.front.extend_from_slice(b" at ")?;
    said.back.clear();
    say_number(&mut said.back, b" from ", source.number())?;
    Ok(())
}

fn say_mended(text: &mut Vec<u8>, said: &MendedText, server: ServerId) -> Result<(), Memory>
    ensures text { OnOk result (Appends text.old text.new
        (said.now.front.items ++ decimal server.number ++ said.now.back.items)) }
    ensures kept { OnErr result (Extends text.old.items text.new.items) }
{
    push_at(text, said.front.as_slice(), server.number())?;
    text.extend_from_slice(said.back.as_slice())?;
    Ok(())
}

fn say_not_refreshed(text: &mut Vec<u8>, job: &Job) -> Result<(), Memory>
    ensures text { OnOk result (Prints text.old text.new (spec.job_text job.now false)) }
    ensures kept { OnErr result (Extends text.old.items text.new.items) }
{
    text.extend_from_slice(b"not refreshed ")?;
    text.extend_from_slice(job.file.as_bytes())?;
    say_number(text, b" at ", job.server.number())?;
    Ok(())
}

/// Puts how many copies were mended, of how many jobs, behind the text, as a line.
fn say_count(text: &mut Vec<u8>, count: u64, jobs: u64) -> Result<(), Memory>
    ensures text { OnOk result (Prints text.old text.new (spec.count_text count jobs)) }
    ensures kept { OnErr result (Extends text.old.items text.new.items) }
{
    push_at(text, b"refreshed ", count)?;
    say_number(text, b" of ", jobs)?;
    Ok(())
}
