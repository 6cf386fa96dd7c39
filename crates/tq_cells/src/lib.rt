//! Parts under a lock each, so that many threads may ask them at once.
//!
//! Definitions: `specs/Passes` (receipts and passes, and the legal journals that they come from).
#![tactic(auto)]

mod cell;
mod gate;
mod held;
mod pass;
mod receipt;
mod settings;

pub use cell::{Cell, Twice, Untaken};
pub use gate::{Gate, OpenGate};
pub use held::Held;
pub use pass::Pass;
pub use receipt::Receipt;
pub use settings::{Replies, Settings, ask_by_plan};
pub use tq_shape::{Answers, Fault as CallFault};
