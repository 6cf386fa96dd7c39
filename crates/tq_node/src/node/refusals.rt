//! What a server refuses an ask for.
ghost use Rattle.std.specs.Prelude.{◌≡◌};
ghost use Rattle.tq_node.specs.Records as spec;

use super::Node;
use crate::votes::{all_held, are_good_writes};
use crate::{NodeAsk, NodeRefusal, WorkAsk};
use tq_locks::Mode;
use tq_store::{FileName, Write};

impl Node {
    /// What the server refuses the ask for.
    pub(super) fn refusal(&self, ask: &NodeAsk) -> Option<NodeRefusal>
        ensures { result ≡ spec.refusal self.now.state.records ask.now }
    {
        match ask {
            NodeAsk::Work(work) => self.work_refusal(work.get()),
            NodeAsk::Crash | NodeAsk::CrashIn { .. } if self.down => Some(NodeRefusal::AlreadyDown),
            NodeAsk::Return if !self.down => Some(NodeRefusal::AlreadyUp),
            _ => None,
        }
    }

    pub(super) fn work_refusal(&self, ask: &WorkAsk) -> Option<NodeRefusal>
        ensures { result ≡ spec.work_refusal self.now.state.records ask.now }
    {
        if self.down {
            return Some(NodeRefusal::Down);
        }
        match ask {
            WorkAsk::Lock { txn, file, mode } => self.lock_refusal(*txn, *file, *mode),
            WorkAsk::Prepare { txn, writes } => self.prepare_refusal(*txn, writes.as_slice()),
            WorkAsk::Decide { txn, .. } => match self.intents.of(*txn) {
                Some(_) => None,
                None => Some(NodeRefusal::NothingHere),
            },
            WorkAsk::Release { txn } => self.release_refusal(*txn),
            WorkAsk::Peek { .. } => None,
            WorkAsk::Refresh { file, version, .. } => {
                if *version <= self.copies.get(file.get()).version {
                    Some(NodeRefusal::NotNewer)
                } else {
                    None
                }
            }
        }
    }

    fn lock_refusal(&self, txn: u64, file: FileName, mode: Mode) -> Option<NodeRefusal>
        ensures { result ≡ spec.lock_refusal self.now.state.records txn file mode }
    {
        if self.intents.of(txn).is_some() {
            return Some(NodeRefusal::Prepared);
        }
        match self.locks.blocker(txn, file, mode) {
            Some(by) => Some(NodeRefusal::Held { by }),
            None => None,
        }
    }

    pub(super) fn release_refusal(&self, txn: u64) -> Option<NodeRefusal>
        ensures { result ≡ spec.release_refusal self.now.state.records txn }
    {
        if self.intents.of(txn).is_some() {
            return Some(NodeRefusal::Prepared);
        }
        if self.locks.holds_nothing(txn) {
            return Some(NodeRefusal::NothingHere);
        }
        None
    }

    fn holds_exclusively(&self, txn: u64, file: FileName) -> bool
        ensures { result ≡ spec.holds_exclusively self.now.state.records txn file }
    {
        match self.locks.get(txn, file) {
            Some(lock) => lock.mode == Mode::Exclusive,
            None => false,
        }
    }

    /// The first write whose file the transaction doesn't hold exclusively.
    fn not_locked(&self, txn: u64, writes: &[Write]) -> Option<FileName>
        ensures { result ≡ spec.not_locked self.now.state.records txn writes.now }
    {
        // Nearly always it holds them all, in the order of the writes, and few others.
        let held = self.locks.locks_of(txn);
        if held.most() / 8 <= writes.len() {
            if all_held(held, writes) {
                return None;
            }
        }
        writes
            .iter()
            .find(|write| !self.holds_exclusively(txn, write.file))
            .map(|write| write.file)
    }

    #[inline(always)]
    pub(super) fn prepare_refusal(&self, txn: u64, writes: &[Write]) -> Option<NodeRefusal>
        ensures { result ≡ spec.prepare_refusal self.now.state.records txn writes.now }
    {
        if self.intents.of(txn).is_some() {
            return Some(NodeRefusal::Prepared);
        }
        if !are_good_writes(writes) {
            return Some(NodeRefusal::BadWrites);
        }
        if let Some(file) = self.not_locked(txn, writes) {
            return Some(NodeRefusal::NotLocked { file });
        }
        // Where there is a write, it holds the lock of that.
        if !writes.is_empty() {
            return None;
        }
        if self.locks.holds_nothing(txn) {
            return Some(NodeRefusal::NothingHere);
        }
        None
    }
}
