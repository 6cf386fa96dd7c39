//! Sources and sinks in memory.

ghost use Rattle.std.specs.Prelude.{◌≡◌, ◌≤◌, ◌<◌};

use crate::device::{Failed, Sink, Source};
use std::alloc::Global;
use std::marker::Model;

/// A source of known bytes, which come in pieces. One of its calls may fail.
#[derive(Drop)]
pub struct MemorySource<'a> {
    bytes: &'a [u8],
    place: usize,
    piece: usize,
    calls: u64,
    fails_at: Option<u64>,
    ended: bool,
    failures: u64,
}

impl<'a> Model for MemorySource<'a> {
    ghost use Rattle.std.{specs.Prelude.{◌≤◌, ◌<◌, take, drop}, proofs.Common.length};
    ghost use Rattle.tq_devices.specs.Devices.{KnownSource};

    ghost Value = { KnownSource };

    ghost view = { λ source. record {
      given = take source.place source.bytes.now;
      left = drop source.place source.bytes.now;
      is_ended = source.ended;
      calls = source.calls;
      fails_at = source.fails_at;
      failed = source.failures;
    } };

    ghost invariant = { λ source. (0 < source.piece) × (source.place ≤ length source.bytes.now) };
}

impl<'a> MemorySource<'a> {
    ghost use Rattle.std.specs.Prelude.{◌≡◌, ◌<◌};
    ghost use Rattle.tq_devices.specs.Devices.{new_source};

    /// Pieces have at most so many bytes. The call that `fails_at` counts, the first being 0, fails.
    pub fn new(bytes: &'a [u8], piece: usize, fails_at: Option<u64>) -> MemorySource<'a>
        requires { 0 < piece }
        ensures { result ≡ new_source bytes.entry.now fails_at }
    {
        MemorySource {
            bytes,
            place: 0,
            piece,
            calls: 0,
            fails_at,
            ended: false,
            failures: 0,
        }
    }
}

impl<'a> Source for MemorySource<'a> {
    ghost use Rattle.std.specs.Prelude.{Some, ◌≡◌, ◌+◌, ◌-◌, ◌^◌, ◌<◌, ◌≤◌, ◌↔◌, [], IsErr, IfOk, OnErr, IsTrue, length};
    ghost use Rattle.tq_devices.specs.Devices.{Counts, GivesFront, LeavesRest};

    ghost given = { λ source. Some source.given };

    ghost is_ended = { λ source. source.is_ended };

    ghost failed = { λ source. source.failed };

    fn failures(&self) -> u64 {
        self.failures
    }

    fn read(&mut self, buffer: &mut [u8]) -> Result<usize, Failed>
        requires room { 0 < length buffer.old }
        requires few { self.old.failed < 2 ^ 64 - 1 }
        ensures within { IfOk result (λ count. count ≤ length buffer.new) }
        ensures bytes { IfOk result (GivesFront self.old self.new buffer.new) }
        ensures left { IfOk result (LeavesRest self.old self.new buffer.new) }
        ensures end { IfOk result (λ count. IsTrue self.new.is_ended ↔ (count ≡ 0)) }
        ensures all { IfOk result (λ count. count ≡ 0 → self.new.left ≡ []) }
        ensures nothing { OnErr result (self.new.given ≡ self.old.given) }
        ensures kept { OnErr result (self.new.left ≡ self.old.left) }
        ensures fails { IsErr result ↔ (self.old.fails_at ≡ Some self.old.calls) }
        ensures counts { Counts result self.old.failed self.new.failed }
    {
        let call = self.calls;
        self.calls = call.saturating_add(1);
        if self.fails_at == Some(call) {
            self.failures += 1;
            return Err(Failed);
        }
        let rest = &self.bytes[self.place..];
        let count = rest.len().min(self.piece).min(buffer.len());
        buffer[..count].copy_from_slice(&rest[..count]);
        self.place += count;
        self.ended = count == 0;
        Ok(count)
    }
}

/// A sink that keeps the bytes, and takes at most a piece at a time. One of its calls may fail.
#[derive(Drop)]
pub struct MemorySink {
    bytes: Vec<u8>,
    piece: usize,
    calls: u64,
    fails_at: Option<u64>,
    failures: u64,
}

impl Model for MemorySink {
    ghost use Rattle.std.specs.Prelude.{◌<◌};
    ghost use Rattle.tq_devices.specs.Devices.{KnownSink};

    ghost Value = { KnownSink };

    ghost view = { λ sink. record {
      taken = sink.bytes.items;
      calls = sink.calls;
      fails_at = sink.fails_at;
      failed = sink.failures;
    } };

    ghost invariant = { λ sink. 0 < sink.piece };
}

impl MemorySink {
    ghost use Rattle.std.specs.Prelude.{◌≡◌, ◌<◌};
    ghost use Rattle.tq_devices.specs.Devices.{new_sink};

    /// Pieces have at most so many bytes. The call that `fails_at` counts, the first being 0, fails.
    pub fn new(alloc: Global, piece: usize, fails_at: Option<u64>) -> MemorySink
        requires { 0 < piece }
        ensures { result ≡ new_sink fails_at }
    {
        MemorySink {
            bytes: Vec::new(alloc),
            piece,
            calls: 0,
            fails_at,
            failures: 0,
        }
    }

    /// The bytes that it took.
    pub fn bytes(&self) -> &[u8]
        ensures { result.now ≡ self.now.taken }
    {
        self.bytes.as_slice()
    }
}

impl Sink for MemorySink {
    ghost use Rattle.std.specs.Prelude.{Some, ◌≡◌, ◌+◌, ◌-◌, ◌^◌, ◌<◌, ◌≤◌, IsErr, IfOk, OnErr, length};
    ghost use Rattle.tq_devices.specs.Devices.{Counts, TakesFront};

    ghost taken = { λ sink. Some sink.taken };

    ghost failed = { λ sink. sink.failed };

    fn failures(&self) -> u64 {
        self.failures
    }

    /// Fails at the chosen call, and where memory is refused.
    fn write(&mut self, bytes: &[u8]) -> Result<usize, Failed>
        requires some { 0 < length bytes.now }
        requires few { self.old.failed < 2 ^ 64 - 1 }
        ensures some { IfOk result (λ count. 0 < count) }
        ensures within { IfOk result (λ count. count ≤ length bytes.now) }
        ensures bytes { IfOk result (TakesFront self.old self.new bytes.now) }
        ensures nothing { OnErr result (self.new.taken ≡ self.old.taken) }
        ensures fails { self.old.fails_at ≡ Some self.old.calls → IsErr result }
        ensures counts { Counts result self.old.failed self.new.failed }
    {
        let call = self.calls;
        self.calls = call.saturating_add(1);
        if self.fails_at == Some(call) {
            self.failures += 1;
            return Err(Failed);
        }
        let count = bytes.len().min(self.piece);
        match self.bytes.extend_from_slice(&bytes[..count]) {
            Ok(()) => Ok(count),
            Err(_) => {
                self.failures += 1;
                Err(Failed)
            }
        }
    }
}
