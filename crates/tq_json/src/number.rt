//! Numbers, and whether they are in range.

ghost use Rattle.std.specs.Prelude.{◌≡◌, ◌*◌, ◌^◌, ◌<◌, ◌≤◌, ◌==◌, false, true, length, slice_index, IsTrue, IfSome};
ghost use Rattle.std.specs.{Bool.OnTrue, Option.{is_some, option_and_then}, Str.Parse.{AllDigits, digits_value}};
ghost use Rattle.fast_float.specs.Text.{digits_of, tens_up, tens_down};
ghost use Rattle.serde_json.specs.{Find.as_u64, Read.{number_of, number_from, float_of}};

use fast_float::Numeral;

/// Whatever so many digits are, the number is below 2^64.
const SURE_DIGITS: usize = 19;

/// Whatever so many digits before the point are, the number is less than the greatest float.
const SURE_PLACES: usize = 308;

/// Whether the number that the text writes is in range.
pub(crate) fn is_in_range(text: &str) -> bool
    ensures { result ≡ is_some (number_of text.now) }
{
    let bytes = text.as_bytes();
    if has_minus(bytes) {
        negative_is_in_range(&Numeral::scan(&bytes[1..]))
    } else {
        unsigned_is_in_range(&Numeral::scan(bytes))
    }
}

/// The number of 64 bits that the text writes without a point, an exponent or a sign.
pub(crate) fn whole(text: &str) -> Option<u64>
    ensures { result ≡ option_and_then as_u64 (number_of text.now) }
{
    let bytes = text.as_bytes();
    if has_minus(bytes) {
        return None;
    }
    if let Some(number) = few_digits(bytes) {
        return Some(number);
    }
    whole_of(&Numeral::scan(bytes))
}

/// The number that the bytes write, where they are digits alone, and so few that it is below 2^64.
#[inline(always)]
fn few_digits(bytes: &[u8]) -> Option<u64>
    ensures some { IfSome result (λ number. 0 < length bytes.now) }
    ensures few { IfSome result (λ number. length bytes.now ≤ 19) }
    ensures digits { IfSome result (λ number. AllDigits 10 bytes.now) }
    ensures value { IfSome result (λ number. number ≡ digits_value 10 bytes.now) }
{
    let count = bytes.len();
    if count == 0 {
        return None;
    }
    if count > SURE_DIGITS {
        return None;
    }
    let mut number: u64 = 0;
    let mut place = 0;
    'digits: while place < count {
        let byte = bytes[place];
        if !byte.is_ascii_digit() {
            return None;
        }
        number = number * 10 + (byte - b'0') as u64;
        place += 1;
    }
    Some(number)
}

fn whole_of(numeral: &Numeral<'_>) -> Option<u64>
    ensures { result ≡ option_and_then as_u64 (number_from false numeral.now) }
{
    numeral.to_u64()
}

fn unsigned_is_in_range(numeral: &Numeral<'_>) -> bool
    ensures { result ≡ is_some (number_from false numeral.now) }
{
    match numeral.to_u64() {
        Some(_) => true,
        None => is_finite(false, numeral),
    }
}

fn negative_is_in_range(numeral: &Numeral<'_>) -> bool
    ensures { result ≡ is_some (number_from true numeral.now) }
{
    if let Some(number) = numeral.to_i64(true) {
        if number < 0 {
            return true;
        }
    }
    is_finite(true, numeral)
}

#[tactic(auto, using(crate::proofs::Contents::small_finite))]
fn is_finite(negative: bool, numeral: &Numeral<'_>) -> bool
    ensures { result ≡ is_some (float_of negative numeral.now) }
{
    if has_few_places(numeral) {
        return true;
    }
    numeral.to_float::<f64>(negative).is_finite()
}

/// Whether the number has so few digits before the point, where the exponent moves it, that it is less than the greatest float.
/// This is no conversion, which is dear for a number that lies halfway between two floats.
fn has_few_places(numeral: &Numeral<'_>) -> bool
    ensures { OnTrue result
        (digits_of numeral.now * 10 ^ tens_up numeral.now ≤ 10 ^ 308 * 10 ^ tens_down numeral.now) }
{
    let _fraction = numeral.fraction();
    let places = numeral.whole().len();
    if places > SURE_PLACES {
        return false;
    }
    if numeral.is_exponent_negative() {
        return true;
    }
    let exponent = numeral.exponent();
    if exponent.is_empty() {
        return true;
    }
    let Some(tens) = few_digits(exponent) else {
        return false;
    };
    if tens > (SURE_PLACES - places) as u64 {
        return false;
    }
    true
}

fn has_minus(bytes: &[u8]) -> bool
    ensures value { result ≡ (slice_index bytes.now 0 == 45) }
    ensures some { IsTrue result → 0 < length bytes.now }
{
    !bytes.is_empty() && bytes[0] == b'-'
}
