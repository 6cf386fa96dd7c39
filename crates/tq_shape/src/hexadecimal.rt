//! Bytes in hexadecimal.
ghost use Rattle.std.specs.Prelude.{◌≡◌, ◌*◌, ◌≤◌, ◌++◌, OnErr, OnOk, length};
ghost use Rattle.hex.specs.Hex.{encode_lower};
ghost use Rattle.tq_shape.specs.Digits.{HasDigitsOfSome};

use std::alloc::AllocError;

/// The two digits of each byte, one byte after another.
static PAIRS: [u8; 512] =
    *b"000102030405060708090a0b0c0d0e0f101112131415161718191a1b1c1d1e1f202122232425262728292a2b2c2d2e2f303132333435363738393a3b3c3d3e3f404142434445464748494a4b4c4d4e4f505152535455565758595a5b5c5d5e5f606162636465666768696a6b6c6d6e6f707172737475767778797a7b7c7d7e7f808182838485868788898a8b8c8d8e8f909192939495969798999a9b9c9d9e9fa0a1a2a3a4a5a6a7a8a9aaabacadaeafb0b1b2b3b4b5b6b7b8b9babbbcbdbebfc0c1c2c3c4c5c6c7c8c9cacbcccdcecfd0d1d2d3d4d5d6d7d8d9dadbdcdddedfe0e1e2e3e4e5e6e7e8e9eaebecedeeeff0f1f2f3f4f5f6f7f8f9fafbfcfdfeff";

/// So many bytes are spelled at a time.
const PART: usize = 32;

/// Puts the bytes behind the text in hexadecimal, in lower case: two digits for each.
///
/// # Errors
///
/// Refuses where there is no memory for the digits; the text stays, with the digits of some first bytes behind it.
pub fn push_bytes(text: &mut Vec<u8>, bytes: &[u8]) -> Result<(), AllocError>
    ensures text { OnOk result (text.new.items ≡ text.old.items ++ encode_lower bytes.now) }
    ensures kept { OnErr result (HasDigitsOfSome text.old.items text.new.items) }
{
    let mut rest = bytes;
    while rest.len() > PART {
        let (part, more) = rest.split_at(PART);
        push_part(text, part)?;
        rest = more;
    }
    push_part(text, rest)?;
    Ok(())
}

/// The same of no more than `PART` bytes. It stands apart, so that its loop stays one.
#[inline(never)]
fn push_part(text: &mut Vec<u8>, part: &[u8]) -> Result<(), AllocError>
    requires { length part.now ≤ 32 }
    ensures text { OnOk result (text.new.items ≡ text.old.items ++ encode_lower part.now) }
    ensures kept { OnErr result (text.new.items ≡ text.old.items) }
{
    let mut room = [0; 2 * PART];
    let digits = &mut room[..2 * part.len()];
    spell(part, digits);
    text.extend_from_slice(digits)
}

/// Writes the bytes in hexadecimal, in lower case: two digits for each, in place of what stood there.
#[inline(always)]
pub fn spell(bytes: &[u8], digits: &mut [u8])
    requires { length digits.old ≡ 2 * length bytes.now }
    ensures { digits.new ≡ encode_lower bytes.now }
{
    'bytes: for i in 0..bytes.len() {
        let pair = 2 * bytes[i] as usize;
        let (high, low) = (PAIRS[pair], PAIRS[pair + 1]);
        digits[2 * i] = high;
        digits[2 * i + 1] = low;
    }
}
