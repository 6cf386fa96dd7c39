//! An order for journals: which entry came after which, so that all that an entry cites stood before it. And whether what
//! callers were told stands in journals, each entry told once.
//!
//! Definitions: `specs/Order`, `Wrong`; as they stood while a server had one cost `OneCost`; of a closed cluster `Told`.
//! `Placing` is the code's own word.
#![tactic(auto)]

mod cited;
mod claimed;
mod compared;
mod entries;
mod explaining;
mod fault;
mod lengths;
mod marks;
mod names;
mod placing;
mod ready;
mod told_stands;
mod waiting;
mod wrong;

pub use claimed::EntryName;
pub use compared::{Comparison, compare};
pub use entries::found;
pub use explaining::{Order, explain, explain_legal};
pub use fault::{CloseFault, Counts, Fault};
