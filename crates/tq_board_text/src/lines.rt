//! The lines of the board, each kind for itself.
pub use crate::board::push_rows;
pub use crate::line::{push_file, push_intent, push_lock, push_server};
