//! Values that can be told apart, entries among them.

ghost use Rattle.std.specs.Prelude.{◌≡◌, ◌↔◌, IsTrue};
ghost use Rattle.tq_tables.specs.Same.{Begins};

use tq_shape::Entry;

/// Values of which it can be told whether two are equal, as contracts see them.
pub trait Same {
    /// Whether the two are equal. It takes no memory.
    fn is_same(&self, other: &Self) -> bool
        ensures { IsTrue result ↔ (self.now ≡ other.now) };
}

/// Whether the two entries are the same: ask and reply.
pub fn is_same_entry<A: Same, R: Same>(one: &Entry<A, R>, other: &Entry<A, R>) -> bool
    ensures { IsTrue result ↔ (one.now ≡ other.now) }
{
    if !one.ask.is_same(&other.ask) {
        return false;
    }
    one.reply.is_same(&other.reply)
}

/// Whether the journal begins with these entries.
pub fn begins<A: Same, R: Same>(first: &[Entry<A, R>], journal: &[Entry<A, R>]) -> bool
    ensures { IsTrue result ↔ Begins first.now journal.now }
{
    if first.len() > journal.len() {
        return false;
    }
    for (place, entry) in first.iter().enumerate() {
        if !is_same_entry(entry, &journal[place]) {
            return false;
        }
    }
    true
}
