//! Texts as they stand in a pool.

ghost use Rattle.std.specs.Prelude.{◌≡◌, OnOk};
ghost use Rattle.contract_words.specs.Writes.{Writes};

use crate::shown::{write_bytes, write_units};
use crate::units::are_units_of;
use std::io::{self, Write};

/// A string of a pool, lent from the bytes of its file. What does not spell characters in it stays as
/// it is.
#[derive(Clone, Copy, Debug)]
pub enum Text<'a> {
    /// Bytes that are meant as UTF-8.
    Utf8(&'a [u8]),
    /// Units of two bytes that are meant as UTF-16, the least significant byte first. A byte that is
    /// left over at the end says nothing.
    Utf16(&'a [u8]),
}

impl<'a> Text<'a> {
    ghost use Rattle.string_pool.specs.Text.{text_of, is_text_of};
    ghost use Rattle.string_pool.specs.Shown.{shown_text};

    /// Whether the string is this text.
    #[tactic(auto, unfolding(crate::specs::Text::is_text_of))]
    pub fn is_text(&self, text: &str) -> bool
        ensures { result ≡ is_text_of (text_of self.now) text.now }
    {
        match self {
            Text::Utf8(bytes) => *bytes == text.as_bytes(),
            Text::Utf16(bytes) => are_units_of(bytes, text),
        }
    }

    /// Writes the string between quotes, as UTF-8. `"` and `\` have a `\` before them; control
    /// characters of ASCII and bytes that are no UTF-8 are `\x` and two digits, lone surrogates `\u`
    /// and four.
    #[tactic(auto, unfolding(crate::specs::Shown::shown_text))]
    pub fn write_shown<W: Write + Drop>(&self, out: &mut W) -> io::Result<()>
        ensures { Writes W.contents out.old out.new result (shown_text (text_of self.now)) }
    {
        out.write_all(b"\"")?;
        match self {
            Text::Utf8(bytes) => write_bytes(bytes, out)?,
            Text::Utf16(bytes) => write_units(bytes, out)?,
        }
        out.write_all(b"\"")
    }
}
