//! Sources and sinks over `std::io`.

ghost use Rattle.std.specs.{Prelude.{◌≡◌, ◌<◌, ◌≤◌, IfSome, IsNone, length}, Io.KnownBytes.{IsAtEnd, Keeps}};
ghost use Rattle.tq_devices.specs.Devices.{AppendsFront, ConsumesFront};

use crate::device::{Failed, Sink, Source};
use std::io::{ErrorKind, Read, Write};
use std::marker::Model;

/// A source over a reader. A read that a signal interrupts is tried again, and is no failure.
#[derive(Drop)]
pub struct StdSource<R: Read> {
    reader: R,
    ended: bool,
    failures: u64,
}

impl<R: Read> Model for StdSource<R> {
    ghost use Rattle.tq_devices.specs.Devices.{OuterSource};

    ghost Value = { OuterSource };

    ghost view = { λ source. record {
      left = R.remaining source.reader;
      is_ended = source.ended;
      failed = source.failures;
    } };
}

impl<R: Read> StdSource<R> {
    ghost use Rattle.std.specs.Prelude.{◌≡◌, false};

    /// A source none of whose calls failed yet.
    pub fn new(reader: R) -> StdSource<R>
        ensures { result ≡ record { left = R.remaining reader; is_ended = false; failed = 0 } }
    {
        StdSource {
            reader,
            ended: false,
            failures: 0,
        }
    }
}

impl<R: Read> Source for StdSource<R> {
    ghost use Rattle.std.specs.Prelude.{None, ◌≡◌, ◌+◌, ◌-◌, ◌^◌, ◌<◌, ◌≤◌, ◌↔◌, IfOk, OnErr, IsTrue, length};
    ghost use Rattle.std.specs.Io.KnownBytes.{IsAtEnd, Keeps};
    ghost use Rattle.tq_devices.specs.Devices.{ConsumesFront, Counts};

    ghost given = { λ _. None };

    ghost is_ended = { λ source. source.is_ended };

    ghost failed = { λ source. source.failed };

    fn failures(&self) -> u64 {
        self.failures
    }

    fn read(&mut self, buffer: &mut [u8]) -> Result<usize, Failed>
        requires room { 0 < length buffer.old }
        requires few { self.old.failed < 2 ^ 64 - 1 }
        ensures within { IfOk result (λ count. count ≤ length buffer.new) }
        ensures bytes { IfOk result (ConsumesFront self.old.left self.new.left buffer.new) }
        ensures end { IfOk result (λ count. IsTrue self.new.is_ended ↔ (count ≡ 0)) }
        ensures all { IfOk result (λ count. count ≡ 0 → IsAtEnd self.new.left) }
        ensures nothing { OnErr result (Keeps self.old.left self.new.left) }
        ensures counts { Counts result self.old.failed self.new.failed }
    {
        match read_on(&mut self.reader, buffer) {
            Some(count) => {
                self.ended = count == 0;
                Ok(count)
            }
            None => {
                self.failures += 1;
                Err(Failed)
            }
        }
    }
}

/// One read, tried again while signals interrupt it. None where it failed.
fn read_on<R: Read>(reader: &mut R, buffer: &mut [u8]) -> Option<usize>
    requires { 0 < length buffer.old }
    ensures within { IfSome result (λ count. count ≤ length buffer.new) }
    ensures bytes { IfSome result
        (ConsumesFront (R.remaining reader.old) (R.remaining reader.new) buffer.new) }
    ensures end { IfSome result (λ count. count ≡ 0 → IsAtEnd (R.remaining reader.new)) }
    ensures nothing { IsNone result → Keeps (R.remaining reader.old) (R.remaining reader.new) }
{
    for _turn in 0..u64::MAX {
        match reader.read(buffer) {
            Ok(count) => return Some(count),
            Err(error) => {
                if error.kind() != ErrorKind::Interrupted {
                    return None;
                }
            }
        }
    }
    None
}

/// A sink over a writer. A write that a signal interrupts is tried again, and is no failure; one that takes nothing is.
#[derive(Drop)]
pub struct StdSink<W: Write> {
    writer: W,
    failures: u64,
}

impl<W: Write> Model for StdSink<W> {
    ghost use Rattle.tq_devices.specs.Devices.{OuterSink};

    ghost Value = { OuterSink };

    ghost view = { λ sink. record { taken = W.contents sink.writer; failed = sink.failures } };
}

impl<W: Write> StdSink<W> {
    ghost use Rattle.std.specs.Prelude.{◌≡◌};

    /// A sink none of whose calls failed yet.
    pub fn new(writer: W) -> StdSink<W>
        ensures { result ≡ record { taken = W.contents writer; failed = 0 } }
    {
        StdSink {
            writer,
            failures: 0,
        }
    }
}

impl<W: Write> Sink for StdSink<W> {
    ghost taken = { λ sink. sink.taken };

    ghost failed = { λ sink. sink.failed };

    fn failures(&self) -> u64 {
        self.failures
    }

    fn write(&mut self, bytes: &[u8]) -> Result<usize, Failed> {
        match write_on(&mut self.writer, bytes) {
            Some(count) => Ok(count),
            None => {
                self.failures += 1;
                Err(Failed)
            }
        }
    }
}

/// One write, tried again while signals interrupt it. None where it failed or took nothing.
fn write_on<W: Write>(writer: &mut W, bytes: &[u8]) -> Option<usize>
    ensures some { IfSome result (λ count. 0 < count) }
    ensures within { IfSome result (λ count. count ≤ length bytes.now) }
    ensures bytes { IfSome result
        (AppendsFront (W.contents writer.old) (W.contents writer.new) bytes.now) }
    ensures nothing { IsNone result → Keeps (W.contents writer.old) (W.contents writer.new) }
{
    for _turn in 0..u64::MAX {
        match writer.write(bytes) {
            Ok(count) => return if count > 0 { Some(count) } else { None },
            Err(error) => {
                if error.kind() != ErrorKind::Interrupted {
                    return None;
                }
            }
        }
    }
    None
}
