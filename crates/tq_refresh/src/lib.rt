//! Refresh: which stale copies of the tables are mended and from where, what is asked to mend them, and how a worker asks it
//! over any asker.
//!
//! Definitions: `specs/Plan`.
#![tactic(auto)]

mod file_jobs;
mod job;
mod mending;
mod planning;

pub use file_jobs::{FileJobs, PlanByFile};
pub use job::{Job, copy_ask, copy_ask_of, peek_ask};
pub use mending::{mend, refresh};
pub use planning::{plan, plan_by_file};
pub use tq_shape::Memory;
