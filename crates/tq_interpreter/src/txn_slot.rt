//! What is kept of a transaction.

use tq_asks::Verdict;
use tq_shape::Shared;
use tq_txn::Txn;

/// How a transaction ended, and the number of the desk's entry that told it.
#[derive(Drop)]
pub struct Ending {
    pub verdict: Verdict,
    pub cite: u64,
}

/// What is kept of a transaction: its state, and the verdict that was told last before its end.
#[derive(Drop)]
pub struct TxnSlot {
    pub txn: Txn,
    pub told: Option<Shared<Ending>>,
}
