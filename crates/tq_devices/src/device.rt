//! The traits `Source` and `Sink`.

ghost use Rattle.std.specs.Prelude.{◌≡◌, ◌-◌, ◌^◌, ◌<◌, ◌≤◌, ◌↔◌, ℕ, Bool, List, Option, IsTrue, IfOk, OnErr, length};
ghost use Rattle.std.specs.Io.KnownBytes.{Keeps};
ghost use Rattle.tq_devices.specs.Devices.{AppendsFront, Counts};

use thiserror::Error;

/// A call of a device that failed.
#[derive(Clone, Copy, Debug, PartialEq, Eq, Error)]
#[error("the device failed")]
pub struct Failed;

/// What bytes come from.
pub trait Source {
    /// The bytes that it has given so far, where they are known.
    ghost given: { Self → Option (List ℕ) };
    /// Whether its end came.
    ghost is_ended: { Self → Bool };
    /// How many of its calls failed.
    ghost failed: { Self → ℕ };

    /// How many of its calls failed.
    fn failures(&self) -> u64
        ensures { result ≡ failed self.now };

    /// Puts the next bytes into the buffer, and says how many: none exactly at the end.
    fn read(&mut self, buffer: &mut [u8]) -> Result<usize, Failed>
        requires room { 0 < length buffer.old }
        requires few { failed self.old < 2 ^ 64 - 1 }
        ensures within { IfOk result (λ count. count ≤ length buffer.new) }
        ensures bytes { IfOk result (AppendsFront (given self.old) (given self.new) buffer.new) }
        ensures end { IfOk result (λ count. IsTrue (is_ended self.new) ↔ (count ≡ 0)) }
        ensures nothing { OnErr result (Keeps (given self.old) (given self.new)) }
        ensures counts { Counts result (failed self.old) (failed self.new) };
}

/// What bytes go to.
pub trait Sink {
    /// The bytes that it has taken so far, where they are known.
    ghost taken: { Self → Option (List ℕ) };
    /// How many of its calls failed.
    ghost failed: { Self → ℕ };

    /// How many of its calls failed.
    fn failures(&self) -> u64
        ensures { result ≡ failed self.now };

    /// Takes a front of the bytes, and says how many: one at least.
    fn write(&mut self, bytes: &[u8]) -> Result<usize, Failed>
        requires some { 0 < length bytes.now }
        requires few { failed self.old < 2 ^ 64 - 1 }
        ensures some { IfOk result (λ count. 0 < count) }
        ensures within { IfOk result (λ count. count ≤ length bytes.now) }
        ensures bytes { IfOk result (AppendsFront (taken self.old) (taken self.new) bytes.now) }
        ensures nothing { OnErr result (Keeps (taken self.old) (taken self.new)) }
        ensures counts { Counts result (failed self.old) (failed self.new) };
}
