//! Why a text gives no journals.

use thiserror::Error;

/// Why a text gives no journals.
#[derive(Clone, Copy, Debug, Error, PartialEq, Eq)]
pub enum ReadFault {
    /// Memory was refused.
    #[error("out of memory")]
    Memory,
    /// The text is no JSON.
    #[error("not JSON")]
    NotJson,
    /// It is JSON, but not of the form of journal files.
    #[error("not journals")]
    NotJournals,
}
