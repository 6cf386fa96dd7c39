//! Files: their names, their contents, and the copies that a server keeps of them.
//!
//! Definitions: `specs/Names`, `Copies`; `Bounded` and `Lends` what contracts see of that map.
#![tactic(auto)]

mod bounded;
mod content;
mod copies;
mod file_name;
mod ordered;
mod write;

pub use bounded::BoundedIndexMap;
pub use content::{Content, MAX_CONTENT};
pub use copies::{Copies, FileCopy};
pub use file_name::{FileName, MAX_NAME};
pub use write::Write;
