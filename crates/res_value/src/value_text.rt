//! How a value is shown.

ghost use Rattle.std.specs.Prelude.{◌∷◌, ◌++◌, [], codes, OnOk};
ghost use Rattle.std.specs.Fmt.{decimal, signed_decimal};
ghost use Rattle.hex.specs.Hex.{encode_lower};
ghost use Rattle.contract_words.specs.Writes.{Writes};
ghost use Rattle.res_value.specs.Complex.{signed_number};
ghost use Rattle.res_value.specs.Word.{eight_digits};
ghost use Rattle.res_value.specs.ValueText.{value_text, null_text, boolean_text};

use crate::complex::{DIMENSION_UNITS, FRACTION_UNITS, write_complex};
use crate::kind;
use crate::value::Value;
use crate::word::write_digits;
use chunk_walk::write_hex;
use itoa::Buffer;
use std::io::{self, Write};

/// Writes a value: the sign or the name of its kind, and what its word means there.
#[tactic(auto, unfolding(crate::specs::ValueText::value_text))]
pub fn write_value<W: Write + Drop>(value: Value, out: &mut W) -> io::Result<()>
    ensures { Writes W.contents out.old out.new result (value_text value) }
{
    let word = value.word;
    match value.kind {
        kind::NULL => write_null(word, out),
        kind::REFERENCE => write_digits("@0x", word, out),
        kind::ATTRIBUTE => write_digits("?0x", word, out),
        kind::STRING => write_string_index(word, out),
        kind::FLOAT => write_digits("float 0x", word, out),
        kind::DIMENSION => write_complex("dimension ", word, &DIMENSION_UNITS, out),
        kind::FRACTION => write_complex("fraction ", word, &FRACTION_UNITS, out),
        kind::DYNAMIC_REFERENCE => write_digits("dynamic 0x", word, out),
        kind::INT_DEC => write_decimal(word, out),
        kind::INT_HEX => write_digits("hex 0x", word, out),
        kind::INT_BOOLEAN => write_boolean(word, out),
        kind::INT_COLOR_ARGB8 => write_digits("argb8 #", word, out),
        kind::INT_COLOR_RGB8 => write_digits("rgb8 #", word, out),
        kind::INT_COLOR_ARGB4 => write_digits("argb4 #", word, out),
        kind::INT_COLOR_RGB4 => write_digits("rgb4 #", word, out),
        other => write_unknown(other, word, out),
    }
}

fn write_unknown<W: Write + Drop>(kind: u8, word: u32, out: &mut W) -> io::Result<()>
    ensures { Writes W.contents out.old out.new result (codes "kind 0x" ++ encode_lower (kind ∷ []) ++ codes " 0x" ++ eight_digits word) }
{
    out.write_all(b"kind 0x")?;
    write_hex(&[kind], out)?;
    write_digits(" 0x", word, out)
}

fn write_string_index<W: Write + Drop>(word: u32, out: &mut W) -> io::Result<()>
    ensures { Writes W.contents out.old out.new result (codes "string " ++ decimal word) }
{
    out.write_all(b"string ")?;
    out.write_all(Buffer::new().format(word).as_bytes())
}

fn write_decimal<W: Write + Drop>(word: u32, out: &mut W) -> io::Result<()>
    ensures { Writes W.contents out.old out.new result (codes "decimal " ++ signed_decimal (signed_number 32 word)) }
{
    out.write_all(b"decimal ")?;
    out.write_all(Buffer::new().format(word.cast_signed()).as_bytes())
}

#[tactic(auto, unfolding(crate::specs::ValueText::null_text))]
fn write_null<W: Write + Drop>(word: u32, out: &mut W) -> io::Result<()>
    ensures { Writes W.contents out.old out.new result (null_text word) }
{
    match word {
        kind::NULL_UNDEFINED => out.write_all(b"null"),
        kind::NULL_EMPTY => out.write_all(b"empty"),
        _ => write_digits("null 0x", word, out),
    }
}

#[tactic(auto, unfolding(crate::specs::ValueText::boolean_text))]
fn write_boolean<W: Write + Drop>(word: u32, out: &mut W) -> io::Result<()>
    ensures { Writes W.contents out.old out.new result (boolean_text word) }
{
    match word {
        0 => out.write_all(b"false"),
        _ => out.write_all(b"true"),
    }
}
