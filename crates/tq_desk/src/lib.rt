//! The desk: it begins transactions and keeps how each ended. And what its journals say.
//!
//! Definitions: `specs/DeskStep` (the step), `DeskJournal` and `DecisionLog` (the decision log); `proofs/DeskFinal` that an end
//! stays, `Shown` what good evidence shows.
#![tactic(auto)]

mod answers;
mod ask;
mod ballot;
mod desk;
mod files;
mod finals;
mod judge;
mod laws;

pub use ask::{DeskAsk, DeskRefusal, DeskReply};
pub use ballot::Ballot;
pub use desk::{Desk, DeskChange};
pub use judge::{ByProof, ByRules, Judge};
pub use laws::{decision_log, desk_laws};
pub use tq_evidence::{Grant, Op, OpKind, Rule, Vote};
