//! What answers and refusals look like.
//!
//! Definitions: `specs/Print`.
#![tactic(auto)]

mod print;
mod refusals;

pub use print::{
    push_numbers, say_applied, say_choice, say_line, say_number, say_reading, say_verdict,
    say_writing,
};
pub use refusals::{push_at, push_decided, push_desk_refusal, push_txn_fault, say_fault};
