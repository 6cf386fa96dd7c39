//! The room in which text waits to be written.
ghost use Rattle.std.specs.{Prelude.{◌≡◌, ◌+◌, ◌*◌, ◌≤◌, [], ◌++◌, IfOk, length, drop}, Fmt.decimal};
ghost use Rattle.hex.specs.Hex.{encode_lower};
ghost use Rattle.tq_board.specs.Lines.{in_quotes};

use itoa::write_digits;
use std::alloc::{AllocError, Global};
use std::marker::Model;
use tq_shape::spell;

/// The most bytes that a room has.
const ROOM: usize = 65_536;

/// Bytes that wait to be written: the first of 65,536 places, all of which are there from the start, so that no bytes that
/// have a place are refused. Contracts see it as these bytes.
#[derive(Drop)]
pub(crate) struct Room {
    places: Vec<u8>,
    used: usize,
}

impl Model for Room {
    ghost use Rattle.std.specs.{Prelude.{◌≡◌, ◌≤◌, List, ℕ, length, take}, Coded.{coded_list, coded_ℕ}};

    ghost Value = { List ℕ };

    ghost coded = { coded_list coded_ℕ };

    ghost view = { λ room. take room.used room.places.items };

    ghost invariant = { λ room. (length room.places.items ≡ 65536) × (room.used ≤ 65536) };
}

impl Room {
    /// An empty room, with a place for each byte that it may have.
    pub(crate) fn new(alloc: Global) -> Result<Room, AllocError>
        ensures { IfOk result (λ room. room ≡ []) }
    {
        let places = vec![in alloc; 0; ROOM]?;
        Ok(Room { places, used: 0 })
    }

    /// The bytes.
    pub(crate) fn as_slice(&self) -> &[u8]
        ensures { result.now ≡ self.now }
    {
        &self.places[..self.used]
    }

    /// For how many bytes more there is a place.
    #[inline(always)]
    pub(crate) fn spare(&self) -> usize
        ensures { result + length self.now ≡ 65536 }
    {
        ROOM - self.used
    }

    /// Lets go of all bytes.
    pub(crate) fn clear(&mut self)
        ensures { self.new ≡ [] }
    {
        self.used = 0;
    }

    /// Puts the bytes, for which there is a place, behind those that are there.
    #[inline(always)]
    pub(crate) fn put(&mut self, bytes: &[u8])
        requires { length self.old + length bytes.now ≤ 65536 }
        ensures { self.new ≡ self.old ++ bytes.now }
    {
        let end = self.used + bytes.len();
        self.places[self.used..end].copy_from_slice(bytes);
        self.used = end;
    }

    /// Puts the number in decimal, where there is a place for twenty digits.
    #[inline(always)]
    pub(crate) fn put_number(&mut self, number: u64)
        requires { length self.old + 20 ≤ 65536 }
        ensures { self.new ≡ self.old ++ decimal number }
    {
        self.used += write_number(&mut self.places[self.used..], number);
    }

    /// Puts the bytes between quotes, where there is a place for them and the quotes.
    #[inline(always)]
    pub(crate) fn put_quoted(&mut self, bytes: &[u8])
        requires { length self.old + length bytes.now + 2 ≤ 65536 }
        ensures { self.new ≡ self.old ++ in_quotes bytes.now }
    {
        self.put(b"\"");
        self.put(bytes);
        self.put(b"\"");
    }

    /// Puts the bytes in hexadecimal between quotes, where there is a place for two digits of each and the quotes.
    #[inline(always)]
    pub(crate) fn put_digits(&mut self, bytes: &[u8])
        requires { length self.old + 2 * length bytes.now + 2 ≤ 65536 }
        ensures { self.new ≡ self.old ++ in_quotes (encode_lower bytes.now) }
    {
        self.put(b"\"");
        self.put_spelled(bytes);
        self.put(b"\"");
    }

    /// Puts the bytes in hexadecimal, where there is a place for two digits of each.
    #[inline(always)]
    fn put_spelled(&mut self, bytes: &[u8])
        requires { length self.old + 2 * length bytes.now ≤ 65536 }
        ensures bytes { self.new ≡ self.old ++ encode_lower bytes.now }
        ensures len { length self.new ≡ length self.old + 2 * length bytes.now }
    {
        let end = self.used + 2 * bytes.len();
        spell(bytes, &mut self.places[self.used..end]);
        self.used = end;
    }
}

/// Writes the number in decimal at the front of the places, and says how many digits it has.
fn write_number(places: &mut [u8], number: u64) -> usize
    requires { length (decimal number) ≤ length places.old }
    ensures len { result ≡ length (decimal number) }
    ensures digits { places.new ≡ decimal number ++ drop result places.old }
{
    let count = digits_of(number);
    let _start = write_digits(number, places, count);
    count
}

/// How many digits the number has in decimal.
fn digits_of(number: u64) -> usize
    ensures { result ≡ length (decimal number) }
{
    if number < 10 {
        return 1;
    }
    if number < 100 {
        return 2;
    }
    if number < 1_000 {
        return 3;
    }
    if number < 10_000 {
        return 4;
    }
    4 + digits_of(number / 10_000)
}
