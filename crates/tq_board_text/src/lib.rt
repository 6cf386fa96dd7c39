//! The tables of a system as text, a line for each row, for the operators who watch it.
//!
//! Definitions: `specs/Board`.
#![tactic(auto)]

mod board;
mod line;
pub mod lines;
mod sets;
mod word;

pub use board::render;
