//! The names of files.

ghost use Rattle.std.specs.Prelude.{◌≡◌, ◌↔◌, ◌+◌, ◌≤◌, ◌==◌, IfSome, IsSome, IsTrue, length, nat_eq};
ghost use Rattle.std.specs.{Ordering.nat_cmp, Cmp.Lexicographic.{pointwise, slice_cmp}};
ghost use Rattle.std.specs.List.{list_all, position_or_len};
ghost use Rattle.tq_store.specs.Names.{is_file_name, padded_name, word_at};
ghost use Rattle.tq_store.specs.Names as names;

use std::alloc::AllocError;
use std::cmp::Ordering;
use std::fmt::{self, Debug, Display};
use std::hash::{Hash, Hasher};
use std::marker::Model;
use tq_shape::ExactClone;

/// The most bytes that a file name has.
pub const MAX_NAME: usize = 32;

/// A file name: 1 to `MAX_NAME` bytes of `a-z 0-9 . _ -`, the first a letter. It takes no memory.
///
/// Zeros fill it up to `MAX_NAME`, so that names are compared and hashed a word at a time.
#[derive(Clone, Copy)]
pub struct FileName {
    bytes: [u8; MAX_NAME],
    /// No words, so that a name begins where a word may, also in an enum: what holds it is moved by words.
    words: [u64; 0],
}

impl Model for FileName {
    ghost use Rattle.std.specs.{Prelude.{◌≡◌, List, [], ℕ, IsTrue}, Coded.{coded_list, coded_ℕ}};
    ghost use Rattle.tq_store.specs.Names.{is_file_name, name_in, padded_name};

    ghost Value = { List ℕ };

    ghost coded = { coded_list coded_ℕ };

    ghost view = { λ a. name_in a.bytes };

    ghost invariant = { λ a. (padded_name (name_in a.bytes) ≡ a.bytes)
        × IsTrue (is_file_name (name_in a.bytes)) × ([] ≡ a.words) };

    ghost inverse = { λ name. record { bytes = padded_name name; words = [] } };

    ghost inverse_ok = { λ a h. λ i. record { bytes = h.0 i; words = h.2 i } };
}

impl FileName {
    /// The name that these bytes are, where they are one.
    pub fn new(bytes: &[u8]) -> Option<FileName>
        ensures exact { IsSome result ↔ IsTrue (is_file_name bytes.now) }
        ensures value { IfSome result (λ name. name ≡ bytes.now) }
    {
        if !is_name(bytes) {
            return None;
        }
        let mut padded = [0; MAX_NAME];
        padded[..bytes.len()].copy_from_slice(bytes);
        Some(FileName {
            bytes: padded,
            words: [],
        })
    }

    /// The bytes, in order.
    #[tactic(auto, unfolding(crate::specs::Names::name_in))]
    pub fn as_bytes(&self) -> &[u8]
        ensures value { result.now ≡ self.now }
        ensures name { IsTrue (is_file_name self.now) }
    {
        &self.bytes[..first_zero(&self.bytes)]
    }

    /// The name as text: its bytes are ASCII.
    pub fn as_str(&self) -> &str
        ensures value { result.now ≡ self.now }
        ensures name { IsTrue (is_file_name self.now) }
    {
        str::from_utf8(self.as_bytes()).unwrap()
    }

    /// The eight bytes from this place on, as a number that orders as they do.
    fn word(&self, at: usize) -> u64
        requires { at + 8 ≤ 32 }
        ensures value { result ≡ word_at (padded_name self.now) at }
        ensures name { IsTrue (is_file_name self.now) }
    {
        let bytes = &self.bytes;
        u64::from_be_bytes([
            bytes[at],
            bytes[at + 1],
            bytes[at + 2],
            bytes[at + 3],
            bytes[at + 4],
            bytes[at + 5],
            bytes[at + 6],
            bytes[at + 7],
        ])
    }
}

// The place of the first zero, or the length.
fn first_zero(bytes: &[u8]) -> usize
    ensures value { result ≡ position_or_len (λ c. c == 0) bytes.now }
    ensures bound { result ≤ length bytes.now }
{
    let mut at = 0;
    while at < bytes.len() {
        if bytes[at] == 0 {
            return at;
        }
        at += 1;
    }
    at
}

fn is_name_byte(c: u8) -> bool
    ensures { result ≡ names.is_name_byte c }
{
    c.is_ascii_lowercase() || c.is_ascii_digit() || c == b'.' || c == b'_' || c == b'-'
}

fn starts_with_letter(bytes: &[u8]) -> bool
    ensures { result ≡ names.starts_with_letter bytes.now }
{
    match bytes.first() {
        Some(c) => c.is_ascii_lowercase(),
        None => false,
    }
}

fn has_name_bytes(bytes: &[u8]) -> bool
    ensures { result ≡ list_all names.is_name_byte bytes.now }
{
    bytes.iter().all(|c| is_name_byte(*c))
}

fn is_name(bytes: &[u8]) -> bool
    ensures { result ≡ is_file_name bytes.now }
{
    starts_with_letter(bytes) && has_name_bytes(bytes) && bytes.len() <= MAX_NAME
}

impl PartialEq for FileName {
    ghost use Rattle.std.{specs.{Prelude.nat_eq, Cmp.Lexicographic.pointwise}, proofs.Common.rules};

    ghost eq = { pointwise nat_eq };

    ghost laws = { Prim.search rules };

    fn eq(&self, other: &Self) -> bool
        ensures test { result ≡ pointwise nat_eq self.now other.now }
        ensures exact { IsTrue result ↔ (self.now ≡ other.now) }
    {
        (self.word(0) == other.word(0))
            & (self.word(8) == other.word(8))
            & (self.word(16) == other.word(16))
            & (self.word(24) == other.word(24))
    }
}

impl Eq for FileName {
    ghost use Rattle.std.proofs.lemmas.Cmp.{nat_list_eq_equiv};

    ghost laws = { nat_list_eq_equiv };
}

impl ExactClone for FileName {
    ghost use Rattle.std.proofs.Common.{rules};

    ghost clones = { Prim.search rules };
}

impl Hash for FileName {
    ghost use Rattle.std.{proofs.Common.ap, specs.Cmp.Lexicographic.bytes_decides};
    ghost use Rattle.tq_store.specs.Names.{hashed_words};

    ghost hash_input = { hashed_words };

    ghost respects_eq = { λ x y h. ap hashed_words ((bytes_decides x y).0 h) };

    fn hash<H: Hasher>(&self, state: &mut H) {
        self.word(0).hash(state);
        // No byte of a name is zero, so one of up to eight bytes ends here.
        if self.word(8) != 0 {
            self.word(8).hash(state);
            self.word(16).hash(state);
            self.word(24).hash(state);
        }
    }
}

impl Ord for FileName {
    ghost use Rattle.std.specs.{Ordering.nat_cmp, Cmp.{Lexicographic.{slice_cmp, nat_list_cmp_total}, Rules.comparing}};
    ghost use Rattle.std.proofs.Common.{rules};

    ghost cmp = { slice_cmp nat_cmp };

    ghost total = { nat_list_cmp_total };

    ghost matches_partial_cmp = { Prim.search (comparing, rules) };

    ghost matches_eq = { Prim.search (comparing, rules) };

    fn cmp(&self, other: &Self) -> Ordering {
        if self.word(0) != other.word(0) {
            return self.word(0).cmp(&other.word(0));
        }
        if self.word(8) != other.word(8) {
            return self.word(8).cmp(&other.word(8));
        }
        if self.word(16) != other.word(16) {
            return self.word(16).cmp(&other.word(16));
        }
        self.word(24).cmp(&other.word(24))
    }
}

impl PartialOrd for FileName {
    ghost use Rattle.std.specs.{Prelude.Some, Ordering.nat_cmp, Cmp.Lexicographic.{slice_cmp, texts_po}};

    ghost partial_cmp = { λ x y. Some (slice_cmp nat_cmp x y) };

    ghost laws = { texts_po };

    fn partial_cmp(&self, other: &Self) -> Option<Ordering> {
        Some(self.cmp(other))
    }
}

impl Display for FileName {
    ghost use Rattle.std.specs.Prelude.{Some};

    ghost output = { λ name. Some name };

    fn fmt<W: fmt::Write>(&self, f: &mut fmt::Formatter<W>) -> fmt::Result {
        f.write_str(self.as_str())
    }
}

impl Debug for FileName {
    fn fmt<W: fmt::Write>(&self, f: &mut fmt::Formatter<W>) -> fmt::Result {
        Debug::fmt(self.as_str(), f)
    }
}
