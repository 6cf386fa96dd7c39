//! Bytes of a text, and passing over those of a string that mean themselves, 16 at a time.

ghost use Rattle.std.specs.{Prelude.{◌≡◌, ◌+◌, ◌≤◌, length, drop, get_or, map}, List.prefix_len, Simd.Lanes.mask_l};
ghost use Rattle.json.specs.{Word.head, Run.{is_stop, is_plain}};

use std::simd::prelude::*;

/// The byte at that place, or a space past the end.
#[inline(always)]
pub(crate) fn byte_at(text: &[u8], place: usize) -> u8
    ensures value { result ≡ get_or text.now place 32 }
    ensures head { result ≡ head (drop place text.now) }
{
    if place < text.len() {
        text[place]
    } else {
        b' '
    }
}

/// The byte that the text begins with, or a space where there is none.
#[inline(always)]
pub(crate) fn first_byte(text: &str) -> u8
    ensures { result ≡ head text.now }
{
    byte_at(text.as_bytes(), 0)
}

/// Which of the bytes are a quote, a backslash or a control character.
#[inline(always)]
fn stops(bytes: u8x16) -> u64
    ensures { result ≡ mask_l (map is_stop bytes) }
{
    (bytes.simd_eq(u8x16::splat(b'"'))
        | bytes.simd_eq(u8x16::splat(b'\\'))
        | bytes.simd_lt(u8x16::splat(0x20))).to_bitmask()
}

/// The last bytes, fewer than 16.
#[inline(never)]
fn plain_end_slowly(text: &[u8], from: usize) -> usize
    requires { from ≤ length text.now }
    ensures { result ≡ from + prefix_len is_plain (drop from text.now) }
{
    let mut place = from;
    'bytes: while place < text.len()
        && text[place] != b'"'
        && text[place] != b'\\'
        && text[place] >= 0x20
    {
        place += 1;
    }
    place
}

/// The place of the first quote, backslash or control character from that place on, or the end.
#[inline(always)]
pub(crate) fn plain_end(text: &[u8], from: usize) -> usize
    requires { from ≤ length text.now }
    ensures value { result ≡ from + prefix_len is_plain (drop from text.now) }
    ensures bound { result ≤ length text.now }
{
    let mut place = from;
    'sixteens: while text.len() - place >= 16 {
        let found = stops(u8x16::from_slice(&text[place..]));
        if found != 0 {
            return place + found.trailing_zeros() as usize;
        }
        place += 16;
    }
    plain_end_slowly(text, place)
}
