//! The stable records of a server, with an index of its open votes.

ghost use Rattle.std.specs.Prelude.{◌≡◌, ◌+◌, ◌<◌, ◌≤◌, ◌++◌, [], ◌∷◌, None, OnOk, OnErr, IfOk, map, length, take, IsSome};
ghost use Rattle.std.specs.{Option.option_copied, List.{list_any, filter_map}};
ghost use Rattle.std.specs.FinMap as fin;
ghost use Rattle.tq_store.specs.Copies.{installed_all};
ghost use Rattle.tq_intents.specs.Kept.{with_end, AddsOpenVote, AddsVote, Indexes, KeepsCopies, KeepsCopy, OpensVote, WritesVote, HasEachVote, kept_copies, kept_votes, vote_in, vote_records, HasOneVoteEach, HoldsVotesLocks, IsAbove, IsUnfinished, KeepsNewest, newer_first};
ghost use Rattle.tq_intents.specs.Sharing.{lock_of_vote};
ghost use Rattle.tq_intents.specs.Kept as spec;

use crate::record::{OpenVotes, VotesLeft};
use crate::{KeptLock, LockVersions, NewerWrite, OpenVote, Record, SharedWrite, VoteLocks};
use std::alloc::{AllocError, Global};
use std::collections::BTreeMap;
use std::marker::Model;
use tq_asks::HeldLock;
use tq_shape::{Seq, SharedSeq, make_room};
use tq_store::{Copies, Write};

/// The stable records of a server, and an index of the open votes that they stand for.
pub struct Intents {
    records: Vec<Record>,
    open_votes: OpenVotes,
}

// Written out, so that a crate above lets go of one by a call.
impl Drop for Intents {
    fn drop(self) {
        let Self {
            records: _,
            open_votes: _,
        } = self;
    }
}

impl Model for Intents {
    ghost use Rattle.std.specs.Prelude.{List, vec_capacity, vec_len, ◌-◌};
    ghost use Rattle.tq_intents.specs.Kept.{IsIndex, LogView, log_code};
    ghost use Rattle.tq_intents.specs.contracts.record.Record as record_type;

    ghost Value = { LogView };

    ghost coded = { log_code record_type.the_row.coded };

    ghost view = { λ a. record {
      records = a.records.items;
      room = vec_capacity a.records - vec_len a.records;
    } };

    ghost invariant = { λ a. IsIndex a.records.items a.open_votes };
}

impl Intents {
    /// No record, and so no copy and no open vote.
    pub fn new(alloc: Global) -> Intents
        ensures { result.records ≡ [] }
    {
        Intents {
            records: Vec::new(alloc),
            open_votes: OpenVotes::of(BTreeMap::new(alloc)),
        }
    }

    /// What a list of stable records stands for.
    pub fn recover(alloc: Global, records: &[Record]) -> Result<Intents, AllocError>
        requires { HasOneVoteEach records.now }
        ensures { IfOk result (λ intents. intents.records ≡ records.now) }
    {
        let open_votes = OpenVotes::of(index(alloc, records)?);
        let kept = copy_of(alloc, records)?;
        Ok(Intents {
            records: kept,
            open_votes,
        })
    }

    /// The same records and open votes, with memory of their own and no room to spare. It looks at each record once.
    pub fn copy(&self, alloc: Global) -> Result<Intents, AllocError>
        ensures { IfOk result (λ copy. copy.records ≡ self.now.records) }
    {
        let records = copy_of(alloc, self.records.as_slice())?;
        let open_votes = self.open_votes.copy()?;
        Ok(Intents {
            records,
            open_votes,
        })
    }

    /// The stable records, in the order in which they were written.
    pub fn stable(&self) -> &[Record]
        ensures list { result.now ≡ self.now.records }
        ensures one_each { HasOneVoteEach self.now.records }
        ensures locks { HoldsVotesLocks self.now.records }
    {
        let _ = &self.open_votes;
        self.records.as_slice()
    }

    /// The copies that the stable records keep.
    pub fn copies(&self, alloc: Global) -> Result<Copies, AllocError>
        ensures copies { IfOk result (λ copies. copies.files ≡ kept_copies self.now.records) }
        ensures newest { KeepsNewest self.now.records }
    {
        copies_of(alloc, self.records.as_slice())
    }

    /// The open vote of a transaction.
    pub fn of(&self, txn: u64) -> Option<&OpenVote>
        ensures { option_copied result ≡ fin.get (kept_votes self.now.records) txn }
    {
        self.open_votes.get(txn)
    }

    /// The open votes, ascending by transaction.
    pub fn votes(&self) -> VotesLeft<'_>
        ensures { result ≡ fin.entries (kept_votes self.now.records) }
    {
        self.open_votes.iter()
    }

    /// Makes room for this many records.
    pub fn reserve(&mut self, additional: usize) -> Result<(), AllocError>
        ensures records { self.new.records ≡ self.old.records }
        ensures room { OnOk result (additional ≤ self.new.room) }
    {
        make_room(&mut self.records, additional)
    }

    /// Writes that a copy was installed, in the room that was made for it.
    pub fn push_copy(&mut self, write: SharedWrite)
        requires { 0 < self.old.room }
        ensures records { self.new.records ≡ self.old.records ++ Record.Copy write ∷ [] }
        ensures votes { kept_votes self.new.records ≡ kept_votes self.old.records }
        ensures copies { KeepsCopy self.old self.new write }
        ensures room { self.old.room ≤ self.new.room + 1 }
    {
        self.records.push_reserved(Record::Copy(write));
    }

    /// Installs copies and writes that they were, in the room that was made for both. It takes no memory.
    pub fn install_copies(&mut self, copies: &mut Copies, writes: Seq<NewerWrite>)
        requires log { length writes ≤ self.old.room }
        requires copies { length writes ≤ copies.old.room }
        ensures records { self.new.records ≡ self.old.records ++ map Record.Copy writes }
        ensures votes { kept_votes self.new.records ≡ kept_votes self.old.records }
        ensures copies { KeepsCopies self.old self.new writes }
        ensures files { copies.new.files ≡ installed_all copies.old.files writes }
        ensures room { self.old.room ≤ self.new.room + length writes }
    {
        for newer in writes.into_vec() {
            let (write, content) = newer.parts();
            copies.install(write.file(), write.version(), content);
            self.push_copy(write);
        }
    }

    /// Installs those of the first writes, so many, that are above the copies, and writes that they were, in the room that was made
    /// for both. It calls itself once for each write, and has cloned what it keeps of all of them before the first change.
    pub fn install_newer(
        &mut self,
        copies: &mut Copies,
        writes: &SharedSeq<Write>,
        count: usize,
    ) -> Result<(), AllocError>
        requires count { count ≤ length writes.now }
        requires log { count ≤ self.old.room }
        requires copies { count ≤ copies.old.room }
        ensures records { OnOk result (self.new.records
            ≡ self.old.records ++ map Record.Copy (newer_first count copies.old.files writes.now)) }
        ensures votes { OnOk result (kept_votes self.new.records ≡ kept_votes self.old.records) }
        ensures files { OnOk result (copies.new.files
            ≡ installed_all copies.old.files (newer_first count copies.old.files writes.now)) }
        ensures log_room { OnOk result (self.old.room ≤ self.new.room + count) }
        ensures copies_room { OnOk result (copies.old.room ≤ copies.new.room + count) }
        ensures err { OnErr result (self.new ≡ self.old) }
        ensures err_copies { OnErr result (copies.new ≡ copies.old) }
    {
        if count == 0 {
            return Ok(());
        }
        let place = count - 1;
        let write = &writes.as_slice()[place];
        if copies.get(&write.file).version >= write.version {
            return self.install_newer(copies, writes, place);
        }
        let content = write.content.clone()?;
        let written = SharedWrite::at(writes.clone()?, place);
        self.install_newer(copies, writes, place)?;
        copies.install(write.file, write.version, content);
        self.push_copy(written);
        Ok(())
    }

    /// Gives a vote: writes its records and opens it. Where memory is refused, the records are cut back to those before.
    pub fn prepare(
        &mut self,
        alloc: Global,
        txn: u64,
        number: u64,
        writes: SharedSeq<Write>,
        locks: VoteLocks,
    ) -> Result<(), AllocError>
        requires closed { fin.get (kept_votes self.old.records) txn ≡ None }
        requires newest { IsAbove number self.old.records }
        ensures records { OnOk result (WritesVote self.old self.new txn number writes locks) }
        ensures votes { OnOk result (OpensVote self.old self.new txn number writes locks) }
        ensures copies { OnOk result (kept_copies self.new.records ≡ kept_copies self.old.records) }
        ensures err { OnErr result (self.new.records ≡ self.old.records) }
    {
        let before = self.records.len();
        let vote = OpenVote {
            number,
            writes,
            locks,
        };
        match give(&mut self.records, &mut self.open_votes, txn, vote) {
            Ok(()) => Ok(()),
            Err(refused) => {
                self.records.truncate(before);
                Err(refused)
            }
        }
    }

    /// Writes the first records of a vote that was not given to its end: they stand for nothing. All memory is asked for
    /// before the first change.
    pub fn push_unfinished(&mut self, records: Seq<Record>) -> Result<(), AllocError>
        requires { IsUnfinished self.old.records records }
        ensures records { OnOk result (self.new.records ≡ self.old.records ++ records) }
        ensures votes { OnOk result (kept_votes self.new.records ≡ kept_votes self.old.records) }
        ensures copies { OnOk result (kept_copies self.new.records ≡ kept_copies self.old.records) }
        ensures err { OnErr result (self.new.records ≡ self.old.records) }
    {
        let mut added = records.into_vec();
        self.records.reserve(added.len())?;
        self.records.append(&mut added).unwrap();
        Ok(())
    }

    /// Ends the open vote of a transaction, in the room that was made for it.
    #[inline(always)]
    pub fn finish(&mut self, txn: u64)
        requires open { IsSome (fin.get (kept_votes self.old.records) txn) }
        requires room { 0 < self.old.room }
        ensures records { self.new.records ≡ with_end self.old.records txn }
        ensures votes { kept_votes self.new.records ≡ fin.remove (kept_votes self.old.records) txn }
        ensures copies { kept_copies self.new.records ≡ kept_copies self.old.records }
    {
        let vote = self.open_votes.end(txn);
        let number = vote.number;
        self.records.push_reserved(Record::Gone { txn, number });
    }
}

/// Equal records, with memory of their own.
fn copy_of(alloc: Global, records: &[Record]) -> Result<Vec<Record>, AllocError>
    ensures { IfOk result (λ copy. copy.items ≡ records.now) }
{
    let mut copy = Vec::with_capacity(alloc, records.len())?;
    for record in records {
        let kept = record.clone()?;
        copy.push_reserved(kept);
    }
    Ok(copy)
}

/// The copies that a list of records keeps.
fn copies_of(alloc: Global, records: &[Record]) -> Result<Copies, AllocError>
    ensures { IfOk result (λ copies. copies.files ≡ kept_copies records.now) }
{
    let mut copies = Copies::new(alloc);
    for written in records {
        install_record(alloc, &mut copies, written)?;
    }
    Ok(copies)
}

/// Installs the copy of a `Copy` record; the others have none.
fn install_record(alloc: Global, copies: &mut Copies, written: &Record) -> Result<(), AllocError>
    ensures { OnOk result (copies.new.files ≡ spec.with_record copies.old.files written.now) }
{
    match written {
        Record::Copy(write) => {
            let content = write.content().clone()?;
            copies.reserve(alloc, 1)?;
            copies.install(write.file(), write.version(), content);
            Ok(())
        }
        _ => Ok(()),
    }
}

/// The records of a vote, in order.
pub fn vote_records(
    alloc: Global,
    txn: u64,
    number: u64,
    writes: &SharedSeq<Write>,
    locks: &VoteLocks,
) -> Result<Vec<Record>, AllocError>
    ensures { IfOk result (λ list. list.items ≡ vote_records txn number writes.now locks.now) }
{
    let mut records = Vec::new(alloc);
    push_vote(&mut records, txn, number, writes, locks)?;
    Ok(records)
}

/// Writes the records of a vote behind the others. Where memory is refused, the first of them may stand there.
#[inline(always)]
fn push_vote(
    records: &mut Vec<Record>,
    txn: u64,
    number: u64,
    writes: &SharedSeq<Write>,
    locks: &VoteLocks,
) -> Result<(), AllocError>
    ensures ok { OnOk result (AddsVote records.old records.new txn number writes.now locks.now) }
    ensures first { take (length records.old.items) records.new.items ≡ records.old.items }
{
    let count = writes.len().saturating_add(locks.len()).saturating_add(1);
    make_room(records, count)?;
    for place in 0..writes.len() {
        let write = SharedWrite::at(writes.clone()?, place);
        records.push_reserved(Record::Intent { txn, number, write });
    }
    for place in 0..locks.len() {
        let lock = locks.get(place)?;
        records.push_reserved(Record::Keep { txn, number, lock });
    }
    records.push_reserved(Record::Prepared { txn, number });
    Ok(())
}

/// Writes the records of a vote and opens it. Where memory is refused it is not opened, but the first of its records may
/// stand behind the others.
fn give(
    records: &mut Vec<Record>,
    open_votes: &mut OpenVotes,
    txn: u64,
    vote: OpenVote,
) -> Result<(), AllocError>
    requires { vote_in open_votes.old txn ≡ None }
    ensures records { OnOk result (AddsOpenVote records.old records.new txn vote) }
    ensures votes { OnOk result (Indexes open_votes.old open_votes.new txn vote) }
    ensures first { take (length records.old.items) records.new.items ≡ records.old.items }
    ensures err { OnErr result (open_votes.new ≡ open_votes.old) }
{
    push_vote(records, txn, vote.number, &vote.writes, &vote.locks)?;
    open_votes.open(txn, vote)
}

/// The open votes of a list of records, by transaction.
fn index(alloc: Global, records: &[Record]) -> Result<BTreeMap<u64, OpenVote>, AllocError>
    ensures { IfOk result (λ index. HasEachVote records.now index.entries) }
{
    let mut index = BTreeMap::new(alloc);
    let mut left = records.len();
    while left > 0 {
        left -= 1;
        if let Some(entry) = opened_vote(alloc, records, &records[left])? {
            index.insert(entry.0, entry.1)?;
        }
    }
    Ok(index)
}

/// The vote that a record opens, where it has not ended.
fn opened_vote(
    alloc: Global,
    records: &[Record],
    written: &Record,
) -> Result<Option<(u64, OpenVote)>, AllocError>
    ensures { IfOk result (λ entry. entry ≡ spec.opened_vote records.now written.now) }
{
    match written {
        Record::Prepared { txn, number } => {
            if is_ended(records, *txn, *number) {
                return Ok(None);
            }
            let writes = writes_of(alloc, records, *txn, *number)?;
            let locks = locks_of(alloc, records, *txn, *number)?;
            let vote = OpenVote {
                number: *number,
                writes,
                locks,
            };
            Ok(Some((*txn, vote)))
        }
        _ => Ok(None),
    }
}

fn ends_vote(written: &Record, txn: u64, number: u64) -> bool
    ensures { result ≡ spec.ends_vote txn number written.now }
{
    match written {
        Record::Gone { txn: t, number: n } => txn == *t && number == *n,
        _ => false,
    }
}

fn is_ended(records: &[Record], txn: u64, number: u64) -> bool
    ensures { result ≡ list_any (spec.ends_vote txn number) records.now }
{
    records.iter().any(|record| ends_vote(record, txn, number))
}

fn write_of(written: &Record, txn: u64, number: u64) -> Option<&SharedWrite>
    ensures { option_copied result ≡ spec.write_of txn number written.now }
{
    match written {
        Record::Intent {
            txn: t,
            number: n,
            write,
        } => {
            if txn == *t && number == *n {
                Some(write)
            } else {
                None
            }
        }
        _ => None,
    }
}

fn lock_of(written: &Record, txn: u64, number: u64) -> Option<KeptLock>
    ensures { result ≡ spec.lock_of txn number written.now }
{
    match written {
        Record::Keep {
            txn: t,
            number: n,
            lock,
        } => {
            if txn == *t && number == *n {
                Some(lock.get())
            } else {
                None
            }
        }
        _ => None,
    }
}

fn writes_of(
    alloc: Global,
    records: &[Record],
    txn: u64,
    number: u64,
) -> Result<SharedSeq<Write>, AllocError>
    ensures { IfOk result (λ writes. writes ≡ filter_map (spec.write_of txn number) records.now) }
{
    let mut writes = Vec::new(alloc);
    for record in records {
        if let Some(write) = write_of(record, txn, number) {
            writes.push(write.write()?)?;
        }
    }
    Ok(SharedSeq::from_vec(writes)?)
}

fn locks_of(
    alloc: Global,
    records: &[Record],
    txn: u64,
    number: u64,
) -> Result<VoteLocks, AllocError>
    ensures { IfOk result (λ locks. locks ≡ filter_map (spec.lock_of txn number) records.now) }
{
    let mut held = Vec::new(alloc);
    let mut versions = LockVersions::new(alloc);
    for record in records {
        if let Some(lock) = lock_of(record, txn, number) {
            held.push(held_of(&lock))?;
            versions.push(lock.version)?;
        }
    }
    let held = SharedSeq::from_vec(held)?;
    Ok(VoteLocks::new(held, versions))
}

/// A lock of a vote, as the vote lists it.
fn held_of(lock: &KeptLock) -> HeldLock
    ensures { lock_of_vote result lock.now.version ≡ lock.now }
{
    HeldLock {
        file: lock.file,
        mode: lock.mode,
        since: lock.since,
    }
}
