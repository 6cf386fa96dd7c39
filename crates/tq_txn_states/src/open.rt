//! A transaction that reads and writes.

ghost use Rattle.std.specs.Prelude.{◌≡◌, ◌+◌, ◌<◌, ◌≤◌, ◌++◌, ℕ, List, [], ◌∷◌, None, Some, true, length, position, IfOk, IfErr, IfSome, IsSome, OnOk, OnErr, OnSome, MatchOption, false, vec_len, vec_capacity};
ghost use Rattle.std.specs.{List.find, Option.option_copied, Ordering.is_lt};
ghost use Rattle.tq_store.specs.Copies.{name_cmp};
ghost use Rattle.tq_coterie.specs.Coterie.{numbers_of};
ghost use Rattle.tq_evidence.specs.Evidence as evidence;
ghost use Rattle.tq_txn_states.specs.Open.{place_before, ComesOf, IsBack, close_fault, grants_fault, read_op, txn_after_op, write_after, write_op};
ghost use Rattle.tq_txn_states.specs.Voting.{AddsOnly, KeepsOnly, VotesOnly, answers_of, voting_of};
ghost use Rattle.tq_txn_states.specs.Open as spec;
ghost use Rattle.tq_txn_states.specs.Ended as ending;

use crate::ended::verdict_of;
use crate::grants::{grants_of, read_copy};
use crate::servers::{Servers, put_at};
use crate::{Closed, DeskTold, Ended, NodeTold, TxnFault, Voting};
use std::alloc::Global;
use std::marker::Model;
use tq_asks::Verdict;
use tq_coterie::is_quorum;
use tq_desk::{Grant, Op, OpKind};
use tq_evidence::{Shareable, granters, greatest_version};
use tq_shape::{Levels, Limits, Memory, Seq, ServerId};
use tq_store::{Content, FileCopy, FileName};

/// A transaction that may read and write.
pub struct Open {
    levels: Levels,
    limits: Limits,
    txn: u64,
    ops: Vec<Op>,
    voters: Servers,
    touched: Servers,
}

// Written out, so that a crate above lets go of one by a call.
impl Drop for Open {
    fn drop(self) {
        let Self {
            levels: _,
            limits: _,
            txn: _,
            ops: _,
            voters: _,
            touched: _,
        } = self;
    }
}

impl Model for Open {
    ghost use Rattle.std.specs.Prelude.{◌≡◌};
    ghost use Rattle.tq_txn_states.specs.Open.{OpenView, IsOpen};

    ghost Value = { OpenView };

    ghost view = { λ a. record {
      levels = a.levels;
      limits = a.limits;
      txn = a.txn;
      ops = a.ops.items;
      voters = a.voters.servers;
      touched = a.touched.servers;
    } };

    ghost invariant = { λ a. IsOpen (record {
      levels = a.levels;
      limits = a.limits;
      txn = a.txn;
      ops = a.ops.items;
      voters = a.voters.servers;
      touched = a.touched.servers;
    }) × ((a.voters.levels ≡ a.levels) × (a.touched.levels ≡ a.levels)) };
}

impl Open {
    /// A transaction that did nothing yet. It takes no memory yet.
    pub fn new(alloc: Global, levels: Levels, limits: Limits, txn: u64) -> Open
        ensures value { result ≡ spec.opening_txn levels limits txn }
        ensures cited { KeepsOnly [] result }
    {
        Open {
            levels,
            limits,
            txn,
            ops: Vec::new(alloc),
            voters: Servers::new(alloc, levels),
            touched: Servers::new(alloc, levels),
        }
    }

    /// The number of the transaction.
    pub fn txn(&self) -> u64
        ensures { result ≡ self.now.txn }
    {
        self.txn
    }

    /// The levels of the tree whose servers it asks.
    pub fn levels(&self) -> Levels
        ensures { result ≡ self.now.levels }
    {
        self.levels
    }

    /// Its operations, ascending by file, a read before a write. They are good evidence as far as they go.
    pub fn ops(&self) -> &[Op]
        ensures value { result.now ≡ self.now.ops }
        ensures good { spec.IsOpen self.now }
        ensures order { evidence.are_in_order result.now ≡ true }
    {
        self.ops.as_slice()
    }

    /// Whether it has as many operations as it may.
    pub fn is_full(&self) -> bool
        ensures { result ≡ spec.has_all_ops self.now }
    {
        self.ops.len() >= self.limits.ops() as usize
    }

    /// The transaction's read of a file.
    pub fn seen(&self, file: &FileName) -> Option<&Op>
        ensures { option_copied result ≡ spec.op_read self.now file.now }
    {
        self.ops.iter().find(|op| is_read_of(file, op))
    }

    /// The transaction's write to a file.
    pub fn op_written(&self, file: &FileName) -> Option<&Op>
        ensures { option_copied result ≡ spec.op_written self.now file.now }
    {
        self.ops.iter().find(|op| op.writes(file))
    }

    /// The content that the transaction writes to a file.
    pub fn pending(&self, file: &FileName) -> Option<&Content>
        ensures { option_copied result ≡ spec.pending_content self.now file.now }
    {
        match self.op_written(file) {
            Some(op) => Some(&op.content),
            None => None,
        }
    }

    /// The servers of the quorums of its operations, ascending.
    pub fn voters(&self) -> &[ServerId]
        ensures numbers { numbers_of result.now ≡ self.now.voters }
        ensures set { spec.IsServerSet self.now.levels result.now }
        ensures exact { spec.HasVoters self.now }
    {
        self.voters.as_slice()
    }

    /// The servers that granted it a lock, as far as it was handed them, ascending.
    pub fn servers(&self) -> &[ServerId]
        ensures numbers { numbers_of result.now ≡ self.now.touched }
        ensures set { spec.IsServerSet self.now.levels result.now }
    {
        self.touched.as_slice()
    }

    /// Makes room to note that a server granted it a lock. Nothing else changes.
    pub fn room_to_touch(&mut self) -> Result<(), Memory>
        ensures { self.new ≡ self.old }
    {
        self.touched.reserve(1)?;
        Ok(())
    }

    /// Notes that a server granted it a lock. Out of memory leaves it as it was.
    pub fn touch(&mut self, _alloc: Global, server: ServerId) -> Result<(), Memory>
        requires { server.levels ≡ self.old.levels }
        ensures ok { OnOk result (self.new ≡ spec.touched_by self.old server.number) }
        ensures cited { (told : List NodeTold) → KeepsOnly told self.old → KeepsOnly told self.new }
        ensures levels { self.new.levels ≡ self.old.levels }
        ensures err { OnErr result (self.new ≡ self.old) }
    {
        self.touch_near(server, 0)?;
        Ok(())
    }

    /// The same of a server that likely stands at this place among those noted, or goes there.
    #[inline(always)]
    pub fn touch_near(&mut self, server: ServerId, likely: usize) -> Result<(), Memory>
        requires { server.levels ≡ self.old.levels }
        ensures ok { OnOk result (self.new ≡ spec.touched_by self.old server.number) }
        ensures err { OnErr result (self.new ≡ self.old) }
    {
        self.touched.reserve(1)?;
        self.touched.put(server, likely);
        Ok(())
    }

    /// Reads a file by the grants of a quorum: the first copy of the greatest version granted. Out of memory leaves the
    /// transaction as it was.
    #[inline(always)]
    pub fn read_granted(&mut self, file: &FileName, grants: Vec<Grant>) -> Result<FileCopy, Memory>
        requires fresh { spec.is_used self.old.ops file.now ≡ false }
        requires member { spec.is_member self.old.levels grants.items ≡ true }
        ensures value { IfOk result (λ copy. copy ≡ spec.read_copy grants.items) }
        ensures after { OnOk result (self.new
            ≡ txn_after_op self.old (read_op file.now grants.items)) }
        ensures err { OnErr result (self.new ≡ self.old) }
    {
        let copy = read_copy(grants.as_slice())?;
        let content = copy.content.clone()?;
        let op = Op {
            file: *file,
            kind: OpKind::Read,
            version: copy.version,
            content,
            grants: Shareable::from_vec(grants),
        };
        self.take(op)?;
        Ok(copy)
    }

    /// Writes a file by the exclusive grants of a quorum: the version is one above the greatest granted. A fault leaves
    /// the transaction as it was.
    #[inline(always)]
    pub fn write_granted(
        &mut self,
        file: &FileName,
        content: Content,
        grants: Vec<Grant>,
    ) -> Result<u64, TxnFault>
        requires fresh { spec.is_written self.old.ops file.now ≡ false }
        requires member { spec.is_member self.old.levels grants.items ≡ true }
        requires exclusive { evidence.is_exclusively_granted grants.items ≡ true }
        ensures succeeds { OnOk result (spec.version_fault grants.items ≡ None) }
        ensures value { IfOk result (λ made. made ≡ evidence.greatest grants.items + 1) }
        ensures after { OnOk result
            (self.new ≡ txn_after_op self.old (write_op file.now content grants.items)) }
        ensures fault { IfErr result (ComesOf (spec.version_fault grants.items)) }
        ensures err { OnErr result (self.new ≡ self.old) }
    {
        let Some(version) = greatest_version(grants.as_slice()).checked_add(1) else {
            return Err(TxnFault::VersionFull);
        };
        let op = Op {
            file: *file,
            kind: OpKind::Write,
            version,
            content,
            grants: Shareable::from_vec(grants),
        };
        self.take(op)?;
        Ok(version)
    }

    /// Reads a file by the answers of a quorum: the first copy of the greatest version granted. A fault leaves the
    /// transaction as it was.
    pub fn read(
        &mut self,
        alloc: Global,
        file: &FileName,
        answers: &[NodeTold],
    ) -> Result<FileCopy, TxnFault>
        ensures succeeds { OnOk result (spec.read_fault self.old file.now answers.now ≡ None) }
        ensures value { IfOk result (λ copy.
            copy ≡ spec.read_copy (spec.grants_of OpKind.Read self.old.txn file.now answers.now)) }
        ensures after { OnOk result (self.new ≡ spec.read_after self.old file.now answers.now) }
        ensures cited { OnOk result (AddsOnly answers.now self.old self.new) }
        ensures fault { IfErr result (ComesOf (spec.read_fault self.old file.now answers.now)) }
        ensures err { OnErr result (self.new ≡ self.old) }
    {
        if self.is_used(file) {
            return Err(TxnFault::AlreadyThere);
        }
        let grants = self.admit(alloc, OpKind::Read, file, answers)?;
        let found = self.read_granted(file, grants)?;
        Ok(found)
    }

    /// Writes a file by the answers of a quorum: the version is one above the greatest granted. A fault leaves the
    /// transaction as it was.
    pub fn write(
        &mut self,
        alloc: Global,
        file: &FileName,
        content: Content,
        answers: &[NodeTold],
    ) -> Result<u64, TxnFault>
        ensures succeeds { OnOk result (spec.write_fault self.old file.now answers.now ≡ None) }
        ensures value { IfOk result (λ made. made ≡
            evidence.greatest (spec.grants_of OpKind.Write self.old.txn file.now answers.now) + 1) }
        ensures after { OnOk result (self.new ≡ write_after self.old file.now content answers.now) }
        ensures cited { OnOk result (AddsOnly answers.now self.old self.new) }
        ensures fault { IfErr result (ComesOf (spec.write_fault self.old file.now answers.now)) }
        ensures err { OnErr result (self.new ≡ self.old) }
    {
        if self.is_written(file) {
            return Err(TxnFault::AlreadyThere);
        }
        let grants = self.admit(alloc, OpKind::Write, file, answers)?;
        let version = self.write_granted(file, content, grants)?;
        Ok(version)
    }

    /// Replaces the content that the transaction writes to a file. It takes no memory.
    pub fn rewrite(&mut self, file: &FileName, content: Content)
        requires { IsSome (spec.op_written self.old file.now) }
        ensures after { self.new ≡ spec.txn_after_rewrite self.old file.now content }
        ensures cited { (told : List NodeTold) → KeepsOnly told self.old → KeepsOnly told self.new }
    {
        rewrite_in(&mut self.ops, file, content);
    }

    /// Ends the reading and writing, if there was any. It takes no memory.
    pub fn close(self) -> Result<Voting, (Open, TxnFault)>
        ensures succeeds { IfOk result (λ it. (close_fault self ≡ None) × (it ≡ voting_of self)) }
        ensures cited { IfOk result (λ it.
            (told : List NodeTold) → KeepsOnly told self → VotesOnly told it) }
        ensures fault { IfErr result (IsBack self (λ fault. close_fault self ≡ Some fault)) }
    {
        if self.ops.is_empty() {
            return Err((self, TxnFault::NoOps));
        }
        let alloc = *self.ops.allocator();
        Ok(Voting::new(alloc, self.into_closed()))
    }

    /// Ends the transaction by the desk's verdict on it, and hands it back after a fault.
    pub fn end(self, told: &DeskTold) -> Result<Ended, (Open, TxnFault)>
        ensures value { IfOk result (λ ended. ending.IsEnd self told.now ended) }
        ensures fault { IfErr result (IsBack self (ComesOf (ending.end_fault self told.now))) }
    {
        match verdict_of(self.txn(), told) {
            Ok(verdict) => Ok(self.end_by(verdict, told.number)),
            Err(fault) => Err((self, fault)),
        }
    }

    /// Ends the transaction by a verdict on it, which the desk's entry of that number told. It takes no memory.
    pub fn end_by(self, verdict: Verdict, cite: u64) -> Ended
        ensures { result ≡ ending.ended_with self cite verdict }
    {
        self.into_closed().end_by(verdict, cite)
    }

    /// The transaction as it stands, which takes no more operations. It takes no memory.
    #[inline(always)]
    fn into_closed(self) -> Closed
        ensures { result ≡ self }
    {
        let Self {
            levels,
            limits,
            txn,
            ops,
            voters,
            touched,
        } = self;
        Closed {
            levels,
            limits,
            txn,
            ops: Shareable::from_vec(ops),
            voters,
            touched,
        }
    }

    fn is_used(&self, file: &FileName) -> bool
        ensures { result ≡ spec.is_used self.now.ops file.now }
    {
        self.ops.iter().any(|op| op.file == *file)
    }

    fn is_written(&self, file: &FileName) -> bool
        ensures { result ≡ spec.is_written self.now.ops file.now }
    {
        self.ops.iter().any(|op| op.writes(file))
    }

    /// The grants that the answers tell of, where a further operation may rest on them.
    fn admit(
        &self,
        alloc: Global,
        kind: OpKind,
        file: &FileName,
        answers: &[NodeTold],
    ) -> Result<Vec<Grant>, TxnFault>
        ensures succeeds { OnOk result (grants_fault kind self.now file.now answers.now ≡ None) }
        ensures grants { IfOk result (λ grants.
            grants.items ≡ spec.grants_of kind self.now.txn file.now answers.now) }
        ensures member { IfOk result (λ grants.
            spec.is_member self.now.levels grants.items ≡ true) }
        ensures fault { IfErr result (ComesOf (grants_fault kind self.now file.now answers.now)) }
    {
        if self.is_full() {
            return Err(TxnFault::TooManyOps);
        }
        let grants = grants_of(alloc, kind, self.txn, file, answers)?;
        if !is_member(alloc, self.levels, grants.as_slice())? {
            return Err(TxnFault::NotAMember);
        }
        Ok(grants)
    }

    /// Takes an operation. Out of memory leaves the transaction as it was.
    #[inline(always)]
    fn take(&mut self, op: Op) -> Result<(), Memory>
        requires { spec.IsGoodOp self.old op }
        ensures after { OnOk result (self.new ≡ spec.txn_after_op self.old op) }
        ensures err { OnErr result (self.new ≡ self.old) }
    {
        let grows = self.voters.make_room(op.grants.as_slice())?;
        let notes = self.touched.make_room(op.grants.as_slice())?;
        self.ops.reserve(1)?;
        self.voters.grow(grows, op.grants.as_slice());
        self.touched.grow(notes, op.grants.as_slice());
        put_in_order(&mut self.ops, op);
        Ok(())
    }
}

/// Whether the servers of the grants, in their order, ascend and are a quorum.
fn is_member(alloc: Global, levels: Levels, grants: &[Grant]) -> Result<bool, Memory>
    ensures { IfOk result (λ member. member ≡ spec.is_member levels grants.now) }
{
    let numbers = granters(alloc, grants)?;
    Ok(is_quorum(levels, numbers.as_slice()))
}

fn is_read_of(file: &FileName, op: &Op) -> bool
    ensures { result ≡ spec.is_read_of file.now op.now }
{
    !op.is_write() && op.file == *file
}

/// Replaces the content that is written to a file.
fn rewrite_in(ops: &mut Vec<Op>, file: &FileName, content: Content)
    requires { IsSome (find (evidence.writes_file file.now) ops.old.items) }
    ensures { ops.new.items ≡ spec.with_content file.now content ops.old.items }
{
    let place = match write_place(ops.as_slice(), file) {
        Some(place) => place,
        None => unreachable!(),
    };
    let op = &mut ops[place];
    op.content = content;
}

/// Where the write to a file stands.
fn write_place(ops: &[Op], file: &FileName) -> Option<usize>
    ensures value { result ≡ position (evidence.writes_file file.now) ops.now }
    ensures within { IfSome result (λ place. place < length ops.now) }
{
    ops.iter().position(|op| op.writes(file))
}

/// Puts the operation before those of later files, in a list that has room.
#[inline(always)]
fn put_in_order(ops: &mut Vec<Op>, op: Op)
    requires { vec_len ops.old < vec_capacity ops.old }
    ensures { ops.new.items ≡ spec.with_op ops.old.items op }
{
    let place = place_of(ops.as_slice(), &op.file);
    put_at(ops, place, op);
}

/// The place of the first operation on a later file, or the end.
fn place_of(ops: &[Op], file: &FileName) -> usize
    ensures value { result ≡ place_before (λ op. is_lt (name_cmp file.now op.file)) ops.now }
    ensures within { result ≤ length ops.now }
{
    match first_later(ops, file) {
        Some(place) => place,
        None => ops.len(),
    }
}

/// Where the first operation on a later file stands.
fn first_later(ops: &[Op], file: &FileName) -> Option<usize>
    ensures value { result ≡ position (λ op. is_lt (name_cmp file.now op.file)) ops.now }
    ensures within { IfSome result (λ place. place < length ops.now) }
{
    ops.iter().position(|op| is_later(file, op))
}

fn is_later(file: &FileName, op: &Op) -> bool
    ensures { result ≡ is_lt (name_cmp file.now op.now.file) }
{
    file.cmp(&op.file).is_lt()
}
