//! The formats of an attribute, in the words of XML.

ghost use Rattle.std.specs.Prelude.{◌≡◌, ℕ, List, Some, ◌/◌, ◌%◌, ◌^◌, ◌==◌, ◌++◌, false, unwrap_or, OnOk};
ghost use Rattle.std.specs.List.{flat_map, join_with_byte};
ghost use Rattle.contract_words.specs.Writes.{Writes};
ghost use Rattle.notation.specs.Dashes.{WritesBetween};
ghost use Rattle.notation.specs.XmlText.{xml_text};
ghost use Rattle.notation.specs.FormatsText.{format_of, types, choices, is_any, set_word, set_words, type_words, has_words, bar, formats_notation, is_whole, formats_text};

use crate::separator::write_separator;
use crate::xml_value::write_xml_value;
use res_value::{Value, kind};
use std::io::{self, Write};

/// A word, and the bit that stands for it.
#[derive(Clone, Copy)]
struct Format {
    bit: u32,
    word: &'static [u8],
}

/// (AOSP: `ResTable_map::TYPE_REFERENCE` to `TYPE_FRACTION`)
#[rattlefmt::skip]
const TYPES: [Format; 8] = [
    Format { bit: 0, word: b"reference" },
    Format { bit: 1, word: b"string" },
    Format { bit: 2, word: b"integer" },
    Format { bit: 3, word: b"boolean" },
    Format { bit: 4, word: b"color" },
    Format { bit: 5, word: b"float" },
    Format { bit: 6, word: b"dimension" },
    Format { bit: 7, word: b"fraction" },
];

/// (AOSP: `ResTable_map::TYPE_ENUM`, `TYPE_FLAGS`)
#[rattlefmt::skip]
const CHOICES: [Format; 2] = [
    Format { bit: 16, word: b"enum" },
    Format { bit: 17, word: b"flags" },
];

/// All types (AOSP: `ResTable_map::TYPE_ANY`).
const ANY: u32 = 0xffff;

/// The types that have words.
const WITH_WORDS: u32 = 0xff;

/// All of these, and both choices.
const MOST: u32 = 0x3ffff;

/// Writes what an attribute may be, as its row `0x01000000` says it: `reference|color`. What is no such number is written as
/// XML has it.
///
/// ```text
/// write_formats(value, &mut out)?; // dimension|fraction|enum
/// ```
pub fn write_formats<W: Write + Drop>(value: Value, out: &mut W) -> io::Result<()>
    ensures text { Writes W.contents out.old out.new result (formats_text value) }

    // The words tell which bits are set.
    ensures tells { (one other : ℕ) (words : List ℕ) → formats_notation one ≡ Some words → formats_notation other ≡ Some words → one ≡ other }
{
    write_text(value, out)
}

#[tactic(auto, unfolding(crate::specs::FormatsText::formats_text, crate::specs::FormatsText::formats_notation))]
fn write_text<W: Write + Drop>(value: Value, out: &mut W) -> io::Result<()>
    ensures { Writes W.contents out.old out.new result (formats_text value) }
{
    if is_whole(value) && has_words(value.word) {
        return write_words(value.word, out);
    }
    write_xml_value(value, out)
}

fn is_whole(value: Value) -> bool
    ensures { result ≡ is_whole value }
{
    value.kind == kind::INT_DEC || value.kind == kind::INT_HEX
}

fn has_words(bits: u32) -> bool
    ensures { result ≡ has_words bits }
{
    bits != 0 && bits <= MOST && (is_any(bits) || bits & ANY <= WITH_WORDS)
}

fn is_any(bits: u32) -> bool
    ensures { result ≡ is_any bits }
{
    bits & ANY == ANY
}

#[tactic(auto, unfolding(crate::specs::FormatsText::choices))]
fn write_words<W: Write + Drop>(bits: u32, out: &mut W) -> io::Result<()>
    ensures { Writes W.contents out.old out.new result (join_with_byte bar (type_words bits ++ set_words choices bits)) }
{
    let mut due = false;
    write_types(bits, &mut due, out)?;
    write_set_words(&CHOICES, bits, &mut due, out)?;
    Ok(())
}

#[tactic(auto, unfolding(crate::specs::FormatsText::type_words, crate::specs::FormatsText::types, config_record::specs::Separator::continued))]
fn write_types<W: Write + Drop>(bits: u32, due: &mut bool, out: &mut W) -> io::Result<()>
    ensures { OnOk result (WritesBetween bar due.old due.new (W.contents out.old) (W.contents out.new)
        (type_words bits)) }
{
    if !is_any(bits) {
        return write_set_words(&TYPES, bits, due, out);
    }
    write_separator(b'|', due, out)?;
    out.write_all(b"any")
}

#[tactic(auto, using(config_record::proofs::SeparatorSteps::continues))]
fn write_set_words<W: Write + Drop>(
    formats: &[Format],
    bits: u32,
    due: &mut bool,
    out: &mut W,
) -> io::Result<()>
    ensures { OnOk result (WritesBetween bar due.old due.new (W.contents out.old) (W.contents out.new)
        (flat_map (λ format. set_word bits (format_of format)) formats.now)) }
{
    for format in formats {
        write_if_set(*format, bits, due, out)?;
    }
    Ok(())
}

#[tactic(auto, unfolding(crate::specs::FormatsText::set_word, config_record::specs::Separator::continued))]
fn write_if_set<W: Write + Drop>(
    format: Format,
    bits: u32,
    due: &mut bool,
    out: &mut W,
) -> io::Result<()>
    ensures { OnOk result (WritesBetween bar due.old due.new (W.contents out.old) (W.contents out.new)
        (set_word bits (format_of format))) }
{
    if !is_set(format.bit, bits) {
        return Ok(());
    }
    write_separator(b'|', due, out)?;
    out.write_all(format.word)
}

fn is_set(bit: u32, bits: u32) -> bool
    ensures { result ≡ (bits / 2 ^ bit % 2 == 1) }
{
    bit < u32::BITS && (bits >> bit) % 2 == 1
}
