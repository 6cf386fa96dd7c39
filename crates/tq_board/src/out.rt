//! What text is put into, and text in the making.
ghost use Rattle.std.specs.{Prelude.{◌≡◌, []}, String.string_bytes};

use std::alloc::Global;
use std::marker::Model;
use tq_shape::Memory;

/// What text is put into, a piece behind another.
pub trait Out {
    ghost use Rattle.std.specs.{Prelude.{List, ℕ, ◌≤◌, ◌++◌, length}, Fmt.decimal, Str.IsAscii};
    ghost use Rattle.hex.specs.Hex.{encode_lower};
    ghost use Rattle.tq_board.specs.Lines.{Adds, in_quotes};

    /// Why a piece may not be put.
    type Fault: Drop;

    /// What was put from a first state to a later one.
    ghost puts: { Self → Self → List ℕ → Type 0 };

    /// Puts a piece that stands ready.
    fn push(&mut self, piece: &str) -> Result<(), Self::Fault>
        ensures { Adds puts result self.old self.new piece.now };

    /// Puts a piece, and the number in decimal.
    fn push_number(&mut self, piece: &str, number: u64) -> Result<(), Self::Fault>
        ensures { Adds puts result self.old self.new (piece.now ++ decimal number) };

    /// Puts a piece, and bytes that are ASCII, between quotes.
    fn push_ascii(&mut self, piece: &str, bytes: &[u8]) -> Result<(), Self::Fault>
        requires ascii { IsAscii bytes.now }
        requires few { length bytes.now ≤ 32 }
        ensures { Adds puts result self.old self.new (piece.now ++ in_quotes bytes.now) };

    /// Puts a piece, and the bytes in hexadecimal, between quotes.
    fn push_digits(&mut self, piece: &str, bytes: &[u8]) -> Result<(), Self::Fault>
        requires { length bytes.now ≤ 4000 }
        ensures { Adds puts result self.old self.new
            (piece.now ++ in_quotes (encode_lower bytes.now)) };
}

/// Text in the making. Its bytes are UTF-8 all along, so that at the end it is a `String` without a look at them.
#[derive(Drop)]
pub(crate) struct Text {
    bytes: Vec<u8>,
}

impl Model for Text {
    ghost use Rattle.std.specs.{Prelude.{List, ℕ}, Str.IsUtf8, Coded.{coded_list, coded_ℕ}};

    ghost Value = { List ℕ };

    ghost coded = { coded_list coded_ℕ };

    ghost view = { λ text. text.bytes.items };

    ghost invariant = { λ text. IsUtf8 text.bytes.items };
}

impl Text {
    /// No text yet. It takes no memory.
    pub(crate) fn new(alloc: Global) -> Text
        ensures { result ≡ [] }
    {
        Text {
            bytes: Vec::new(alloc),
        }
    }

    /// The text as it stands.
    pub(crate) fn into_string(self) -> String
        ensures { string_bytes result ≡ self }
    {
        unsafe { String::from_utf8_unchecked(self.bytes) }
    }
}

impl Out for Text {
    ghost use Rattle.std.specs.Prelude.{◌≡◌, ◌++◌};

    type Fault = Memory;

    ghost puts = { λ start text put. text ≡ start ++ put };

    #[inline(always)]
    fn push(&mut self, piece: &str) -> Result<(), Memory> {
        self.bytes.extend_from_slice(piece.as_bytes())?;
        Ok(())
    }

    fn push_number(&mut self, piece: &str, number: u64) -> Result<(), Memory> {
        self.push(piece)?;
        tq_shape::push_number(&mut self.bytes, number)?;
        Ok(())
    }

    fn push_ascii(&mut self, piece: &str, bytes: &[u8]) -> Result<(), Memory> {
        self.push(piece)?;
        self.push("\"")?;
        self.bytes.extend_from_slice(bytes)?;
        self.push("\"")
    }

    fn push_digits(&mut self, piece: &str, bytes: &[u8]) -> Result<(), Memory> {
        self.push(piece)?;
        self.push("\"")?;
        tq_shape::push_bytes(&mut self.bytes, bytes)?;
        self.push("\"")
    }
}
