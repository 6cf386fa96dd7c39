//! Numbers in decimal.
ghost use Rattle.std.specs.Prelude.{◌≡◌, ◌+◌, ◌/◌, ◌%◌, ◌<◌, ◌≤◌, ◌++◌, ◌∷◌, [], OnErr, OnOk, length, vec_len, vec_capacity};
ghost use Rattle.std.specs.Fmt.{decimal};

use std::alloc::AllocError;

/// The most digits of a number of 64 bits.
const MOST_DIGITS: usize = 20;

/// Puts the number in decimal behind the text.
///
/// # Errors
///
/// Refuses where there is no memory for the digits of any number; the text stays as it is.
pub fn push_number(text: &mut Vec<u8>, number: u64) -> Result<(), AllocError>
    ensures text { OnOk result (text.new.items ≡ text.old.items ++ decimal number) }
    ensures kept { OnErr result (text.new.items ≡ text.old.items) }
{
    text.reserve(MOST_DIGITS)?;
    push_digits(text, number);
    Ok(())
}

/// Puts the number in decimal behind the text, which has room for its digits: two digits a step.
fn push_digits(text: &mut Vec<u8>, number: u64)
    requires { vec_len text.old + length (decimal number) ≤ vec_capacity text.old }
    ensures items { text.new.items ≡ text.old.items ++ decimal number }
    ensures len { vec_len text.new ≡ vec_len text.old + length (decimal number) }
    ensures capacity { vec_capacity text.new ≡ vec_capacity text.old }
{
    if number < 10 {
        text.push_reserved(b'0' + number as u8);
        return;
    }
    if number < 100 {
        push_pair(text, number);
        return;
    }
    push_digits(text, number / 100);
    push_pair(text, number % 100);
}

/// Puts the two digits of the number behind the text, which has room for them.
#[inline(always)]
fn push_pair(text: &mut Vec<u8>, number: u64)
    requires few { number < 100 }
    requires room { vec_len text.old + 2 ≤ vec_capacity text.old }
    ensures items { text.new.items
        ≡ text.old.items ++ (48 + number / 10) ∷ (48 + number % 10) ∷ [] }
    ensures len { vec_len text.new ≡ vec_len text.old + 2 }
    ensures capacity { vec_capacity text.new ≡ vec_capacity text.old }
{
    text.push_reserved(b'0' + (number / 10) as u8);
    text.push_reserved(b'0' + (number % 10) as u8);
}
