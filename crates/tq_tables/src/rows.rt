//! The rows of the tables, of each kind for itself.
pub use crate::intent_rows::intent_rows;
pub use crate::lock_rows::lock_rows;
pub use crate::quorum_rows::quorum_rows;
