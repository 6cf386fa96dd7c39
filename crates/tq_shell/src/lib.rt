//! What the program calls: the session of a shell, lines in, answers out; client scripts run in threads, from their text to the
//! journals of all parts; the audit of a journal file, whether one sequential run explains it; its upgrade to the format that is
//! written now; lines that are answered over the journals of a file; and, handed on, the words of the command line and the
//! devices that they read and write.
//!
//! Definitions: `specs/Session`, and `Stream`, the code's own word; `Threads`; `Audit`, `Reading`, `Rehearsal`.
#![tactic(auto)]

mod audit_finding;
mod auditing;
mod line;
mod opened;
mod outcome;
mod reading;
mod receiver;
mod rehearsing;
mod running;
mod session;
mod threading;
mod upgrading;

pub use audit_finding::AuditFinding;
pub use auditing::audit;
pub use outcome::Outcome;
pub use rehearsing::rehearse;
pub use running::run_text;
pub use session::{INPUT_LIMIT, run};
pub use threading::threads;
pub use tq_cli::{Words, WordsFault};
pub use tq_devices::{
    Failed, MemorySink, MemorySource, RunFault, Sink, Source, StdSink, StdSource,
};
pub use tq_interpreter::{Ending, Shell, TxnSlot};
pub use tq_syntax::{LINE_LIMIT, Line, TxnLine, numbers_are_read_again};
pub use upgrading::upgrade;
