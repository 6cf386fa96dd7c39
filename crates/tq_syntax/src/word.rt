//! Words and numbers in bytes.

ghost use Rattle.std.specs.{Prelude.{◌≡◌, ◌+◌, ◌*◌, ◌<◌, ◌^◌, ℕ, IfSome, Some, List, length}, Fmt.decimal};
ghost use Rattle.std.specs.{Option.option_map, Str.bytes_eq};
ghost use Rattle.tq_syntax.specs.Word.{number_of, digits_after, digit_after, word_of, rest_of, options_now, without_return};

/// The bytes before the first space, and those after it where there is one.
pub(crate) fn first_word(bytes: &[u8]) -> (&[u8], Option<&[u8]>)
    ensures word { result.0.now ≡ word_of bytes.now }
    ensures rest { options_now result.1 ≡ rest_of bytes.now }
{
    for (place, byte) in bytes.iter().enumerate() {
        if *byte == b' ' {
            return (&bytes[..place], Some(&bytes[place + 1..]));
        }
    }
    (bytes, None)
}

/// Whether a word is this text.
// Compiled into its callers: they pass a text that is known, so that its bytes are compared one by one with no call.
#[inline(always)]
pub(crate) fn is_same(word: &[u8], text: &[u8]) -> bool
    ensures { result ≡ bytes_eq word.now text.now }
{
    if word.len() != text.len() {
        return false;
    }
    for place in 0..text.len() {
        if word[place] != text[place] {
            return false;
        }
    }
    true
}

/// The number that the word spells in decimal digits, if it is one of 64 bits without leading zeros.
pub(crate) fn number_of(word: &[u8]) -> Option<u64>
    ensures { result ≡ number_of word.now }
{
    if word.is_empty() {
        return None;
    }
    if word[0] == b'0' && word.len() > 1 {
        return None;
    }
    digits_of(word)
}

/// The number that the digits before the first space spell, how many these are, and the bytes after the space where there
/// is one. Zeros may lead the number.
#[inline(always)]
pub(crate) fn digits_to_space(bytes: &[u8]) -> Option<(u64, usize, Option<&[u8]>)>
    ensures value { option_map (λ n. n.0) result ≡ digits_after 0 (word_of bytes.now) }
    ensures count { IfSome result (λ n. n.1 ≡ length (word_of bytes.now)) }
    ensures rest { IfSome result (λ n. options_now n.2 ≡ rest_of bytes.now) }
{
    let mut value: u64 = 0;
    for (place, byte) in bytes.iter().enumerate() {
        if *byte == b' ' {
            return Some((value, place, Some(&bytes[place + 1..])));
        }
        value = with_digit(value, *byte)?;
    }
    Some((value, bytes.len(), None))
}

fn digits_of(word: &[u8]) -> Option<u64>
    ensures { result ≡ digits_after 0 word.now }
{
    if word.len() < 20 {
        return few_digits(word);
    }
    many_digits(word)
}

/// The number of at most nineteen digits, which has 64 bits.
fn few_digits(word: &[u8]) -> Option<u64>
    requires { length word.now < 20 }
    ensures { result ≡ digits_after 0 word.now }
{
    let mut value: u64 = 0;
    for digit in word {
        value = with_low_digit(value, *digit)?;
    }
    Some(value)
}

fn with_low_digit(value: u64, digit: u8) -> Option<u64>
    requires { value < 10 ^ 18 }
    ensures value { result ≡ digit_after value digit }
    ensures low { IfSome result (λ after. after < 10 * (value + 1)) }
{
    if digit < b'0' || digit > b'9' {
        return None;
    }
    Some(10 * value + u64::from(digit - b'0'))
}

/// The number of any digits.
fn many_digits(word: &[u8]) -> Option<u64>
    ensures { result ≡ digits_after 0 word.now }
{
    let mut value: u64 = 0;
    for digit in word {
        value = with_digit(value, *digit)?;
    }
    Some(value)
}

fn with_digit(value: u64, digit: u8) -> Option<u64>
    ensures { result ≡ digit_after value digit }
{
    if digit < b'0' || digit > b'9' {
        return None;
    }
    value.checked_mul(10)?.checked_add((digit - b'0') as u64)
}

/// The decimal text of a number of 64 bits is read as that number, and no other text is.
pub fn numbers_are_read_again()
    ensures read { (number : ℕ) → number < 2 ^ 64 → number_of (decimal number) ≡ Some number }
    ensures only { (word : List ℕ) (number : ℕ) →
        number_of word ≡ Some number → word ≡ decimal number }
{}

/// The bytes without one carriage return at their end.
pub fn without_return(bytes: &[u8]) -> &[u8]
    ensures { result.now ≡ without_return bytes.now }
{
    let length = bytes.len();
    if length == 0 {
        return bytes;
    }
    if bytes[length - 1] == b'\r' {
        return &bytes[..length - 1];
    }
    bytes
}
