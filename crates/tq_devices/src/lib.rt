//! What bytes come from and go to: in memory, or over readers and writers.
//!
//! Definitions: `specs/Devices`.
#![tactic(auto)]

mod device;
mod fault;
mod memory;
mod standard;
mod writing;

pub use device::{Failed, Sink, Source};
pub use fault::RunFault;
pub use memory::{MemorySink, MemorySource};
pub use standard::{StdSink, StdSource};
pub use writing::write_out;
