//! Values as they are shown with all of their bits.

ghost use Rattle.std.specs.Prelude.{◌≡◌, [], OnOk};
ghost use Rattle.contract_words.specs.Writes.{Writes};
ghost use Rattle.res_value.specs.ValueText.{text_among};
ghost use Rattle.notation.specs.XmlText.{hides_bits, exact_text};

use crate::complex::spare_bits;
use chunk_walk::{word_digits, write_hex};
use res_value::{Value, kind, write_value};
use std::io::{self, Write};

/// Writes a value that XML does not write so that all of its bits are shown.
#[tactic(auto, unfolding(crate::specs::XmlText::exact_text))]
pub(crate) fn write_exact<W: Write + Drop>(value: Value, out: &mut W) -> io::Result<()>
    ensures { Writes W.contents out.old out.new result (exact_text value) }
{
    if hides_bits(value) {
        return write_unknown(value, out);
    }
    write_value(value, out)
}

fn hides_bits(value: Value) -> bool
    ensures { result ≡ hides_bits value }
{
    match value.kind {
        kind::INT_BOOLEAN => true,
        kind::DIMENSION | kind::FRACTION => spare_bits(value.word) != 0,
        _ => false,
    }
}

// As a value of a kind that has no name.
#[tactic(auto, unfolding(res_value::specs::Word::eight_digits))]
fn write_unknown<W: Write + Drop>(value: Value, out: &mut W) -> io::Result<()>
    ensures { Writes W.contents out.old out.new result (text_among [] value) }
{
    out.write_all(b"kind 0x")?;
    write_hex(&[value.kind], out)?;
    out.write_all(b" 0x")?;
    out.write_all(&word_digits(value.word))
}
