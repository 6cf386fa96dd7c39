//! What a quorum is chosen for.

ghost use Rattle.std.specs.{Prelude.◌≡◌, Str.bytes_eq};
ghost use Rattle.tq_live.specs.Costs as spec;

use tq_shape::ExactClone;

/// What a quorum is chosen for.
#[derive(Clone, Copy, Debug, PartialEq, Eq)]
pub enum Purpose {
    Read,
    Write,
}

impl Purpose {
    /// The word for it.
    pub fn word(self) -> &'static str
        ensures { result.now ≡ spec.purpose_text self }
    {
        match self {
            Purpose::Read => "read",
            Purpose::Write => "write",
        }
    }

    /// The purpose of a word.
    pub fn of(word: &[u8]) -> Option<Purpose>
        ensures { result ≡ spec.purpose_of word.now }
    {
        if is_same(word, b"read") {
            return Some(Purpose::Read);
        }
        if is_same(word, b"write") {
            return Some(Purpose::Write);
        }
        None
    }
}

/// Whether a word is this text.
fn is_same(word: &[u8], text: &[u8]) -> bool
    ensures { result ≡ bytes_eq word.now text.now }
{
    word == text
}

impl ExactClone for Purpose {
    ghost use Rattle.std.proofs.Common.{rules};

    ghost clones = { Prim.search rules };
}
