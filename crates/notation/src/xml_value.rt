//! Values as XML writes them.

ghost use Rattle.std.specs.Prelude.{◌≡◌, ◌++◌, false, codes, unwrap_or, OnOk};
ghost use Rattle.std.specs.Fmt.{digits, signed_decimal};
ghost use Rattle.contract_words.specs.Writes.{Writes};
ghost use Rattle.res_value.specs.declared.value.Value.{Value};
ghost use Rattle.res_value.specs.Complex.{signed_number};
ghost use Rattle.notation.specs.Stored.{IsStored};
ghost use Rattle.notation.specs.XmlText.{null_notation, reference_notation, boolean_notation, exact_text, xml_text};

use crate::color::{write_argb4, write_argb8, write_rgb4, write_rgb8};
use crate::complex::{DIMENSION_UNITS, FRACTION_UNITS, write_complex};
use crate::exact_text::write_exact;
use crate::float::write_float;
use res_value::{Value, kind};
use std::io::{self, Write};

/// Writes a value as XML does: `34.5sp`, `#b5651d`, `true`. Where that would not show all of its bits, and where it names a
/// resource or a string, it is the text of `write_value` of `res_value`, so that a caller who knows the names writes these.
///
/// ```text
/// write_xml_value(value, &mut out)?; // 34.5sp
/// ```
pub fn write_xml_value<W: Write + Drop>(value: Value, out: &mut W) -> io::Result<()>
    ensures text { Writes W.contents out.old out.new result (xml_text value) }

    // Two values with one text are the same.
    ensures tells { (one other : Value) → IsStored one → IsStored other → xml_text one ≡ xml_text other → one ≡ other }
{
    write_text(value, out)
}

#[tactic(auto, unfolding(crate::specs::XmlText::xml_text))]
fn write_text<W: Write + Drop>(value: Value, out: &mut W) -> io::Result<()>
    ensures { Writes W.contents out.old out.new result (xml_text value) }
{
    match value.kind {
        kind::NULL => write_null(value, out),
        kind::REFERENCE => write_reference(value, out),
        kind::FLOAT => write_float(value, out),
        kind::DIMENSION => write_complex(value, 1, &DIMENSION_UNITS, out),
        kind::FRACTION => write_complex(value, 100, &FRACTION_UNITS, out),
        kind::INT_DEC => write!(out, "{}", value.word.cast_signed()),
        kind::INT_HEX => write!(out, "0x{:x}", value.word),
        kind::INT_BOOLEAN => write_boolean(value, out),
        kind::INT_COLOR_ARGB8 => write_argb8(value, out),
        kind::INT_COLOR_RGB8 => write_rgb8(value, out),
        kind::INT_COLOR_ARGB4 => write_argb4(value, out),
        kind::INT_COLOR_RGB4 => write_rgb4(value, out),
        _ => write_exact(value, out),
    }
}

#[tactic(auto, unfolding(crate::specs::XmlText::null_notation))]
fn write_null<W: Write + Drop>(value: Value, out: &mut W) -> io::Result<()>
    ensures { Writes W.contents out.old out.new result
        (unwrap_or (null_notation value.word) (exact_text value)) }
{
    match value.word {
        kind::NULL_EMPTY => out.write_all(b"@empty"),
        _ => write_exact(value, out),
    }
}

#[tactic(auto, unfolding(crate::specs::XmlText::reference_notation))]
fn write_reference<W: Write + Drop>(value: Value, out: &mut W) -> io::Result<()>
    ensures { Writes W.contents out.old out.new result
        (unwrap_or (reference_notation value.word) (exact_text value)) }
{
    match value.word {
        0 => out.write_all(b"@null"),
        _ => write_exact(value, out),
    }
}

#[tactic(auto, unfolding(crate::specs::XmlText::boolean_notation))]
fn write_boolean<W: Write + Drop>(value: Value, out: &mut W) -> io::Result<()>
    ensures { Writes W.contents out.old out.new result
        (unwrap_or (boolean_notation value.word) (exact_text value)) }
{
    match value.word {
        0 => out.write_all(b"false"),
        u32::MAX => out.write_all(b"true"),
        _ => write_exact(value, out),
    }
}
