//! The plan of a refresh.

ghost use Rattle.std.specs.{Prelude.{◌≡◌, ◌++◌, [], IfOk, IfSome, OnOk, find}, List.{All, flat_map}};
ghost use Rattle.std.specs.Option.{option_map_or};
ghost use Rattle.tq_shape.specs.Tree.{IsServer};
ghost use Rattle.tq_live.specs.Live.{Live, is_up};
ghost use Rattle.tq_refresh.specs.Plan as spec;
ghost use Rattle.tq_refresh.specs.Plan.{servers_in, jobs_in, jobs_of, jobs_of_plan, plan_of, ArePlanned, IsPlanned};

use crate::{FileJobs, Job, PlanByFile};
use std::alloc::Global;
use tq_live::{LiveTree, View};
use tq_shape::{Memory, ServerId, ServerSet};
use tq_tables::{FileRow, Tables};

/// The stale copies that can be mended as the view's marks stand: of each file of the tables in their order, each
/// stale server that is marked up, upwards, with the least current one that is marked up as source. A file with no
/// such source has no job. Tables and view are of trees of equal levels, and so are the servers of the jobs.
pub fn plan(alloc: Global, tables: &Tables, view: &View) -> Result<Vec<Job>, Memory>
    requires { view.now.levels ≡ tables.now.levels }
    ensures value { IfOk result (λ jobs. jobs.items ≡ plan_of tables.now view.now) }
    ensures of_tree { IfOk result (λ jobs. All (λ job. (job.server.levels ≡ tables.now.levels)
        × (job.source.levels ≡ tables.now.levels)) jobs.items) }
{
    let PlanByFile { up, files } = plan_by_file(alloc, tables, view)?;
    let mut jobs = Vec::new(alloc);
    for of_file in files.as_slice() {
        add_jobs(&mut jobs, of_file, &up)?;
    }
    Ok(jobs)
}

/// The same jobs by their files, in much less memory where a file has many.
pub fn plan_by_file(alloc: Global, tables: &Tables, view: &View) -> Result<PlanByFile, Memory>
    requires { view.now.levels ≡ tables.now.levels }
    ensures value { IfOk result (λ plan. jobs_of_plan plan ≡ plan_of tables.now view.now) }
    ensures of_tree { IfOk result (λ plan. ArePlanned tables.now.levels plan) }
{
    plan_rows(alloc, tables.files(), view.tree())
}

/// The jobs of these rows, by their files.
fn plan_rows(alloc: Global, rows: &[FileRow], tree: &LiveTree) -> Result<PlanByFile, Memory>
    requires { All (λ row. (row.current.levels ≡ tree.now.levels)
        × (row.stale.levels ≡ tree.now.levels)) rows.now }
    ensures value { IfOk result (λ plan. jobs_of_plan plan ≡ flat_map (jobs_of tree.now) rows.now) }
    ensures of_tree { IfOk result (λ plan. ArePlanned tree.now.levels plan) }
{
    let up = servers_up(alloc, tree)?;
    let mut files = Vec::new(alloc);
    for row in rows {
        if let Some(of_file) = file_jobs(row, &up)? {
            files.push(of_file)?;
        }
    }
    Ok(PlanByFile { up, files })
}

/// The servers of the tree that are marked up. Made once, they spare each copy a walk through the tree.
fn servers_up(alloc: Global, tree: &LiveTree) -> Result<ServerSet, Memory>
    ensures { IfOk result (λ up. up ≡ spec.servers_up tree.now) }
{
    let levels = tree.levels();
    let mut up = ServerSet::new(alloc, levels)?;
    for below in 0..levels.servers() {
        let server = ServerId::new(levels, below + 1);
        if tree.is_up(server) {
            up.insert(server);
        }
    }
    Ok(up)
}

/// The jobs of one file, where `up` is the set of the servers that are marked up; none where no stale one or no
/// current one is.
fn file_jobs(row: &FileRow, up: &ServerSet) -> Result<Option<FileJobs>, Memory>
    requires current { row.now.current.levels ≡ up.now.levels }
    requires stale { row.now.stale.levels ≡ up.now.levels }
    ensures value { (live : Live) → up.now ≡ spec.servers_up live
        → IfOk result (λ found. option_map_or (jobs_in up.now) found [] ≡ jobs_of live row.now) }
    ensures of_tree { IfOk result (λ found. IfSome found (IsPlanned up.now.levels)) }
{
    let Some(_mended) = first_up(&row.stale, up) else {
        return Ok(None);
    };
    let Some(source) = first_up(&row.current, up) else {
        return Ok(None);
    };
    Ok(Some(FileJobs {
        file: row.file,
        stale: row.stale.clone()?,
        source,
    }))
}

/// Puts the jobs of one file at the end of the list, where `up` is the set of the servers that are marked up.
fn add_jobs(jobs: &mut Vec<Job>, of_file: &FileJobs, up: &ServerSet) -> Result<(), Memory>
    requires { of_file.now.stale.levels ≡ up.now.levels }
    ensures { OnOk result (jobs.new.items ≡ jobs.old.items ++ jobs_in up.now of_file.now) }
{
    for stale in of_file.stale.iter() {
        if up.contains(stale) {
            let job = Job {
                file: of_file.file,
                server: stale,
                source: of_file.source,
            };
            jobs.push(job)?;
        }
    }
    Ok(())
}

/// The least server of a set that is marked up, where `up` is the set of all that are.
fn first_up(servers: &ServerSet, up: &ServerSet) -> Option<ServerId>
    requires { servers.now.levels ≡ up.now.levels }
    ensures value { (live : Live) → up.now ≡ spec.servers_up live
        → result ≡ find (λ server. is_up live server.number) (servers_in servers.now) }
    ensures of_tree { IfSome result (λ server. server.levels ≡ up.now.levels) }
    ensures servers { All (IsServer servers.now.levels) servers.now.numbers }
{
    for current in servers.iter() {
        if up.contains(current) {
            return Some(current);
        }
    }
    None
}
