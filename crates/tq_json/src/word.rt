//! Words that are compared, and bytes as UTF-8.

ghost use Rattle.std.specs.{Prelude.{◌≡◌, IsUtf8, MatchOption}, Str.bytes_eq};
ghost use Rattle.tq_json.specs.Next.{IsTextOfBytes};

/// Whether the two are the same. It is compiled into its callers, for a text that is known to them.
#[inline(always)]
pub fn is_text(word: &str, text: &str) -> bool
    ensures { result ≡ bytes_eq word.now text.now }
{
    are_same(word.as_bytes(), text.as_bytes())
}

/// Whether the bytes are those that are wanted.
#[inline(always)]
pub(crate) fn are_same(bytes: &[u8], wanted: &[u8]) -> bool
    ensures { result ≡ bytes_eq bytes.now wanted.now }
{
    if bytes.len() != wanted.len() {
        return false;
    }
    let mut same = true;
    let mut place = wanted.len();
    'bytes: while place > 0 {
        place -= 1;
        same = (bytes[place] == wanted[place]) & same;
    }
    same
}

/// The text that the bytes are: `None` where they are no UTF-8.
pub fn text_of_bytes<'a>(bytes: &'a [u8]) -> Option<&'a str>
    ensures { MatchOption result (¬ IsUtf8 bytes.now) (λ text. IsTextOfBytes bytes.now text.now) }
{
    simdutf8::compat::from_utf8(bytes).ok()
}
