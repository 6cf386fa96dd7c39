//! JSON as the data that `serde_json` reads, value by value from a reader, and what stands in the objects of journal files.
//!
//! Definitions: `specs/Next` (the next value of a reader, and what stands behind what is open), `Member` (what stands at a
//! name, and what differs between formats).
#![tactic(auto)]

mod content;
mod fault;
mod format;
mod leaf;
mod lexeme;
mod number;
mod opening;
mod passing;
mod reader;
mod run;
mod word;

pub use content::{content_of, name_of};
pub use fault::NotRead;
pub use format::Format;
pub use json::Scratch;
pub use leaf::{take_flag, take_text, take_whole};
pub use opening::{open_array, open_object};
pub use passing::{pass_items, pass_over};
pub use reader::Reader;
pub use word::{is_text, text_of_bytes};
