//! Functions without a body: their contracts are the laws of a server's journal.

ghost use Rattle.tq_node.specs.NodeLaws as laws;

/// What holds of each legal journal of a server, whatever its asks cite: a finished write is seen by whoever
/// reads under a lock behind it, a copy that is told has an origin, and a Yes has the writes that were asked.
pub fn journals_are_lawful()
    ensures { laws.NodeLaws }
{}

/// No two locks are in conflict. The `since` of a lock is that of its first grant without a break, and the version
/// noted there isn't above the copy. An open vote owns its locks: until the server takes a decision on its
/// transaction, none is released, strengthened or lost, through any crash. A decision that is refused counts for nothing.
pub fn locks_are_lawful()
    ensures { laws.LockLaws }
{}

/// A vote that was given is open as it was given, or ended by a decision that the server took; where that cites the vote, its writes
/// are not above the copies. Each copy has an origin, and copies only rise.
pub fn votes_are_lawful()
    ensures { laws.VoteLaws }
{}

/// At all times the stable records are those of the copies, the open votes and their locks.
pub fn stable_records_are_kept()
    ensures { laws.StableLaw }
{}
