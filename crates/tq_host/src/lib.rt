//! A part on a machine of its own: one server, desk or view behind lines of bytes, with a durable log.
//!
//! Definitions: `specs/Lines` a part after the lines of a log, `Told` what lines are told, `Served` what a host did up to its
//! end, `Hosted` from its start.
#![tactic(auto)]

mod batch;
mod fault;
mod file_log;
mod hosting;
mod log;
mod memory_log;
mod parts;
mod replaying;
mod serving;
mod wire;

pub use fault::{HostFault, ReplayFault};
pub use file_log::{FileLog, LogFault, OpenedLog};
pub use hosting::host;
pub use log::Log;
pub use memory_log::MemoryLog;
pub use replaying::{replay, whole_lines};
pub use serving::serve;
pub use wire::Wire;
