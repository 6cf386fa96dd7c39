//! The words of the command lines.
//!
//! Definitions: `specs/Command`, `TqdWords`; `proofs/ParseLaws`, `RuleLaws`, `CommandLaws`, `TqdLaws` clap's parse.
#![tactic(auto)]

mod command;
mod tqd_words;

pub use command::{Words, WordsFault};
pub use tqd_words::{GivenLimits, PartOptions, TqdWords};
