//! Text that is written as it comes.
ghost use Rattle.std.specs.{Prelude.{◌≡◌, ◌+◌, ◌-◌, ◌^◌, ◌<◌, ◌≤◌, [], ◌++◌, length}, Fmt.decimal};
ghost use Rattle.hex.specs.Hex.{encode_lower};
ghost use Rattle.tq_board.specs.Lines.{Ends, IsSpilled, Settles, Spills, in_quotes, spill};

use crate::out::Out;
use crate::room::Room;
use std::convert::Infallible;
use tq_devices::{RunFault, Sink, write_out};

/// The most digits of a number.
const MOST_DIGITS: usize = 20;

/// Text that is written as it comes: it is gathered in a room, and goes to the sink when the room has no place
/// for the next piece. Once the sink has failed nothing more is written. A piece longer than the room is written at once.
#[derive(Drop)]
pub(crate) struct Spilling<'a, W: Sink> {
    pub(crate) sink: &'a mut W,
    pub(crate) room: &'a mut Room,
    pub(crate) has_failed: bool,
}

impl<'a, W: Sink> Spilling<'a, W> {
    /// No text yet, and an empty room.
    pub(crate) fn new(sink: &'a mut W, room: &'a mut Room) -> Spilling<'a, W>
        requires few { W.failed sink.old < 2 ^ 64 - 1 }
        requires empty { room.old ≡ [] }
        ensures same_sink { result.sink.ghost_name ≡ sink.entry.ghost_name }
        ensures same_room { result.room.ghost_name ≡ room.entry.ghost_name }
        ensures same { result.sink.now ≡ sink.old }
        ensures nothing { IsSpilled (W.taken result.sink.now) (W.failed result.sink.now)
            (spill W.taken W.failed result.sink.now result.has_failed result.room.now) [] }
    {
        Spilling {
            sink,
            room,
            has_failed: false,
        }
    }

    /// Writes out what the room keeps: then all that was put is written, or the sink has failed and a front of it is.
    pub(crate) fn end(&mut self) -> Result<(), RunFault>
        ensures same_sink { self.new.sink.ghost_name ≡ self.old.sink.ghost_name }
        ensures same_room { self.new.room.ghost_name ≡ self.old.room.ghost_name }
        ensures ends { Ends result
            (spill W.taken W.failed self.old.sink.now self.old.has_failed self.old.room.now)
            (W.taken self.new.sink.now) (W.failed self.new.sink.now) }
    {
        self.flush();
        if self.has_failed {
            return Err(RunFault::Write);
        }
        Ok(())
    }

    /// Writes out what the room keeps.
    #[inline(never)]
    fn flush(&mut self)
        ensures same_sink { self.new.sink.ghost_name ≡ self.old.sink.ghost_name }
        ensures same_room { self.new.room.ghost_name ≡ self.old.room.ghost_name }
        ensures empty { self.new.room.now ≡ [] }
        ensures settles { Settles
            (spill W.taken W.failed self.old.sink.now self.old.has_failed self.old.room.now)
            (spill W.taken W.failed self.new.sink.now self.new.has_failed []) }
    {
        self.has_failed = pass_on(self.sink, self.has_failed, self.room.as_slice());
        self.room.clear();
    }

    /// Puts the bytes into the room, which is written out first where it has no place for them.
    #[inline(always)]
    fn put(&mut self, bytes: &[u8])
        ensures same_sink { self.new.sink.ghost_name ≡ self.old.sink.ghost_name }
        ensures same_room { self.new.room.ghost_name ≡ self.old.room.ghost_name }
        ensures spills { Spills
            (spill W.taken W.failed self.old.sink.now self.old.has_failed self.old.room.now)
            (spill W.taken W.failed self.new.sink.now self.new.has_failed self.new.room.now)
            bytes.now }
    {
        if bytes.len() <= self.room.spare() {
            self.room.put(bytes);
            return;
        }
        self.put_anew(bytes);
    }

    /// Puts the bytes into the room once it is written out; where it has no place for them even then, they are written too.
    #[cold]
    #[inline(never)]
    fn put_anew(&mut self, bytes: &[u8])
        ensures same_sink { self.new.sink.ghost_name ≡ self.old.sink.ghost_name }
        ensures same_room { self.new.room.ghost_name ≡ self.old.room.ghost_name }
        ensures spills { Spills
            (spill W.taken W.failed self.old.sink.now self.old.has_failed self.old.room.now)
            (spill W.taken W.failed self.new.sink.now self.new.has_failed self.new.room.now)
            bytes.now }
    {
        self.flush();
        if bytes.len() <= self.room.spare() {
            self.room.put(bytes);
            return;
        }
        self.put_through(bytes);
    }

    /// Writes out what the room keeps, and the bytes behind it.
    fn put_through(&mut self, bytes: &[u8])
        ensures same_sink { self.new.sink.ghost_name ≡ self.old.sink.ghost_name }
        ensures same_room { self.new.room.ghost_name ≡ self.old.room.ghost_name }
        ensures spills { Spills
            (spill W.taken W.failed self.old.sink.now self.old.has_failed self.old.room.now)
            (spill W.taken W.failed self.new.sink.now self.new.has_failed self.new.room.now)
            bytes.now }
    {
        self.flush();
        self.has_failed = pass_on(self.sink, self.has_failed, bytes);
    }

    /// Writes out what the room keeps, where it has no place for so many bytes behind it.
    fn leave(&mut self, wanted: usize)
        requires { wanted ≤ 65536 }
        ensures same_sink { self.new.sink.ghost_name ≡ self.old.sink.ghost_name }
        ensures same_room { self.new.room.ghost_name ≡ self.old.room.ghost_name }
        ensures place { length self.new.room.now + wanted ≤ 65536 }
        ensures settles { Settles
            (spill W.taken W.failed self.old.sink.now self.old.has_failed self.old.room.now)
            (spill W.taken W.failed self.new.sink.now self.new.has_failed self.new.room.now) }
    {
        if wanted > self.room.spare() {
            self.flush();
        }
    }

    /// Puts the piece into the room once that is written out, and the number in decimal.
    #[cold]
    #[inline(never)]
    fn put_number_anew(&mut self, piece: &[u8], number: u64)
        ensures same_sink { self.new.sink.ghost_name ≡ self.old.sink.ghost_name }
        ensures same_room { self.new.room.ghost_name ≡ self.old.room.ghost_name }
        ensures spills { Spills
            (spill W.taken W.failed self.old.sink.now self.old.has_failed self.old.room.now)
            (spill W.taken W.failed self.new.sink.now self.new.has_failed self.new.room.now)
            (piece.now ++ decimal number) }
    {
        self.put_anew(piece);
        self.leave(MOST_DIGITS);
        self.room.put_number(number);
    }

    /// Puts the piece into the room once that is written out, and the bytes between quotes.
    #[cold]
    #[inline(never)]
    fn put_quoted_anew(&mut self, piece: &[u8], bytes: &[u8])
        requires { length bytes.now ≤ 32 }
        ensures same_sink { self.new.sink.ghost_name ≡ self.old.sink.ghost_name }
        ensures same_room { self.new.room.ghost_name ≡ self.old.room.ghost_name }
        ensures spills { Spills
            (spill W.taken W.failed self.old.sink.now self.old.has_failed self.old.room.now)
            (spill W.taken W.failed self.new.sink.now self.new.has_failed self.new.room.now)
            (piece.now ++ in_quotes bytes.now) }
    {
        self.put_anew(piece);
        self.leave(bytes.len() + 2);
        self.room.put_quoted(bytes);
    }

    /// Puts the piece into the room once that is written out, and the bytes in hexadecimal between quotes.
    #[cold]
    #[inline(never)]
    fn put_digits_anew(&mut self, piece: &[u8], bytes: &[u8])
        requires { length bytes.now ≤ 4000 }
        ensures same_sink { self.new.sink.ghost_name ≡ self.old.sink.ghost_name }
        ensures same_room { self.new.room.ghost_name ≡ self.old.room.ghost_name }
        ensures spills { Spills
            (spill W.taken W.failed self.old.sink.now self.old.has_failed self.old.room.now)
            (spill W.taken W.failed self.new.sink.now self.new.has_failed self.new.room.now)
            (piece.now ++ in_quotes (encode_lower bytes.now)) }
    {
        self.put_anew(piece);
        self.leave(2 * bytes.len() + 2);
        self.room.put_digits(bytes);
    }
}

/// Writes the bytes, unless the sink has failed before. Says whether it has failed now.
fn pass_on<W: Sink>(sink: &mut W, has_failed: bool, bytes: &[u8]) -> bool
    ensures { Settles (spill W.taken W.failed sink.old has_failed bytes.now)
        (spill W.taken W.failed sink.new result []) }
{
    if has_failed || sink.failures() == u64::MAX {
        return has_failed;
    }
    write_out(sink, bytes).is_err()
}

impl<'a, W: Sink> Out for Spilling<'a, W> {
    ghost use Rattle.std.specs.Prelude.{◌≡◌};
    ghost use Rattle.tq_board.specs.Lines.{IsSpilled, spill};

    type Fault = Infallible;

    ghost puts = { λ start out text. (out.sink.ghost_name ≡ start.sink.ghost_name)
        × (out.room.ghost_name ≡ start.room.ghost_name)
        × IsSpilled (W.taken start.sink.now) (W.failed start.sink.now)
        (spill W.taken W.failed out.sink.now out.has_failed out.room.now) text };

    #[inline(always)]
    fn push(&mut self, piece: &str) -> Result<(), Infallible> {
        self.put(piece.as_bytes());
        Ok(())
    }

    #[inline(always)]
    fn push_number(&mut self, piece: &str, number: u64) -> Result<(), Infallible> {
        if piece.len() + MOST_DIGITS > self.room.spare() {
            self.put_number_anew(piece.as_bytes(), number);
            return Ok(());
        }
        self.room.put(piece.as_bytes());
        self.room.put_number(number);
        Ok(())
    }

    #[inline(always)]
    fn push_ascii(&mut self, piece: &str, bytes: &[u8]) -> Result<(), Infallible> {
        if piece.len() + bytes.len() + 2 > self.room.spare() {
            self.put_quoted_anew(piece.as_bytes(), bytes);
            return Ok(());
        }
        self.room.put(piece.as_bytes());
        self.room.put_quoted(bytes);
        Ok(())
    }

    #[inline(always)]
    fn push_digits(&mut self, piece: &str, bytes: &[u8]) -> Result<(), Infallible> {
        if piece.len() + 2 * bytes.len() + 2 > self.room.spare() {
            self.put_digits_anew(piece.as_bytes(), bytes);
            return Ok(());
        }
        self.room.put(piece.as_bytes());
        self.room.put_digits(bytes);
        Ok(())
    }
}
