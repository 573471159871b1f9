//! What stands between the parts of a text.

ghost use Rattle.std.specs.Prelude.{◌≡◌, [], ◌∷◌, true, false, if◌then◌else◌, OnOk};
ghost use Rattle.locales.specs.contract_words.Writes.{Writes};

use std::io::{self, Write};

/// A byte that stands before each part of a text but the first.
#[derive(Clone, Copy)]
pub(crate) struct Separator {
    byte: u8,
    due: bool,
}

impl Separator {
    pub(crate) fn new(byte: u8) -> Self
        ensures { result ≡ record { byte = byte; due = false } }
    {
        Separator { byte, due: false }
    }

    /// Writes the byte, but not the first time.
    pub(crate) fn write<W: Write + Drop>(&mut self, out: &mut W) -> io::Result<()>
        ensures due { self.new ≡ record { byte = self.old.byte; due = true } }
        ensures text { Writes W.contents out.old out.new result (if self.old.due then self.old.byte ∷ [] else []) }
    {
        if self.due {
            return out.write_all(&[self.byte]);
        }
        self.due = true;
        Ok(())
    }
}
