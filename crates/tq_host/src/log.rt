//! What keeps entries.

ghost use Rattle.std.specs.{Prelude.{◌≡◌, ◌-◌, ◌^◌, ◌<◌, ℕ, List, Option, OnOk, OnErr}, Io.KnownBytes.Appends};
ghost use Rattle.tq_devices.specs.Devices.{AppendsFront, Counts};

use tq_devices::Failed;

/// What keeps bytes over the end of the process and of the machine.
pub trait Log {
    /// The bytes that it keeps, where they are known.
    ghost kept: { Self → Option (List ℕ) };
    /// Those of them that stay, whatever happens.
    ghost synced: { Self → Option (List ℕ) };
    /// How many of its calls failed.
    ghost failed: { Self → ℕ };

    /// How many of its calls failed.
    fn failures(&self) -> u64
        ensures { result ≡ failed self.now };

    /// Puts the bytes behind those that it keeps. Where it fails, a front of them.
    fn append(&mut self, bytes: &[u8]) -> Result<(), Failed>
        requires few { failed self.old < 2 ^ 64 - 1 }
        ensures ok { OnOk result (Appends (kept self.old) (kept self.new) bytes.now) }
        ensures err { OnErr result
            ((count : ℕ) × AppendsFront (kept self.old) (kept self.new) bytes.now count) }
        ensures synced { synced self.new ≡ synced self.old }
        ensures counts { Counts result (failed self.old) (failed self.new) };

    /// Syncs what it keeps. Where it fails, what was synced is.
    fn sync(&mut self) -> Result<(), Failed>
        requires few { failed self.old < 2 ^ 64 - 1 }
        ensures ok { OnOk result (synced self.new ≡ kept self.new) }
        ensures err { OnErr result (synced self.new ≡ synced self.old) }
        ensures kept { kept self.new ≡ kept self.old }
        ensures counts { Counts result (failed self.old) (failed self.new) };
}
