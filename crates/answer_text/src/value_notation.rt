//! What values and the keys of rows say, written in Android's notation.

ghost use Rattle.std.specs.Prelude.{◌≡◌};
ghost use Rattle.std.specs.Option.{option_map};
ghost use Rattle.contract_words.specs.Writes.{Writes};
ghost use Rattle.names.specs.Label.{label_of};
ghost use Rattle.answer_text.specs.ContentSeen.{value_content_of, row_key_of};
ghost use Rattle.answer_text.specs.ValueNotation.{reference_notation, value_notation, attribute_word, word_or_id, key_notation, is_of_formats, formats_notation, row_notation};

use crate::content::{RowKey, ValueContent};
use crate::value_text::{write_label_behind, write_row_key, write_value_content};
use bags_themes::{ResId, Value};
use names::{Label, PackageNames};
use notation::{write_formats, write_xml_value};
use res_value::write_id;
use std::io::{self, Write};

/// The row that says which formats an attribute has (AOSP: `ResTable_map::ATTR_TYPE`).
const FORMATS: u32 = 0x0100_0000;

/// Writes what a value says: a string between quotes, an id by its label behind `@` or `?`, and any other value as XML
/// writes it.
///
/// ```text
/// write_value_notation(&packages, &row.value, &mut out)?; // 34.5sp
/// ```
#[tactic(auto, unfolding(crate::specs::ValueNotation::value_notation))]
pub fn write_value_notation<W: Write + Drop>(
    packages: &PackageNames<'_>,
    value: &ValueContent<'_>,
    out: &mut W,
) -> io::Result<()>
    ensures { Writes W.contents out.old out.new result (value_notation packages.now (value_content_of value.now)) }
{
    match value {
        ValueContent::Reference(label) => write_reference(packages, label, out),
        ValueContent::Other { kind, word } => write_xml_value(
            Value {
                kind: *kind,
                word: *word,
            },
            out,
        ),
        ValueContent::String(_)
        | ValueContent::Garbled(_)
        | ValueContent::Broken(_)
        | ValueContent::Attribute(_) => write_value_content(packages, value, out),
    }
}

#[tactic(auto, unfolding(crate::specs::ValueNotation::reference_notation))]
fn write_reference<W: Write + Drop>(
    packages: &PackageNames<'_>,
    label: &Label<'_>,
    out: &mut W,
) -> io::Result<()>
    ensures { Writes W.contents out.old out.new result (reference_notation packages.now (label_of label.now)) }
{
    match label {
        Label::Id(ResId(0)) => out.write_all(b"@null"),
        Label::Id(_) | Label::Name { .. } => write_label_behind(b"@", packages, label, out),
    }
}

/// Writes what tells a row from the others of its bag: `[PLACE]`, a quantity, what it says of an attribute, or a label.
#[tactic(auto, unfolding(crate::specs::ValueNotation::key_notation))]
pub fn write_key_notation<W: Write + Drop>(
    packages: &PackageNames<'_>,
    key: &RowKey<'_>,
    out: &mut W,
) -> io::Result<()>
    ensures { Writes W.contents out.old out.new result (key_notation packages.now (row_key_of key.now)) }
{
    match key {
        RowKey::Called(Label::Id(id)) => write_word_or_id(*id, out),
        RowKey::Called(Label::Name { .. }) | RowKey::Place(_) | RowKey::Quantity(_) => {
            write_row_key(packages, key, out)
        }
    }
}

fn write_word_or_id<W: Write + Drop>(id: ResId, out: &mut W) -> io::Result<()>
    ensures { Writes W.contents out.old out.new result (word_or_id id (attribute_word id.0)) }
{
    match attribute_word(id) {
        Some(word) => out.write_all(word),
        None => write_id(id, out),
    }
}

#[tactic(auto, unfolding(crate::specs::ValueNotation::attribute_word))]
fn attribute_word(id: ResId) -> Option<&'static [u8]>
    ensures { option_map (λ word. word.now) result ≡ attribute_word id.0 }
{
    match id.0 {
        FORMATS => Some(b"format"),
        0x0100_0001 => Some(b"min"),
        0x0100_0002 => Some(b"max"),
        0x0100_0003 => Some(b"localization"),
        _ => None,
    }
}

/// Writes the value of a row: of the formats of an attribute their words.
///
/// ```text
/// write_row_notation(&packages, &row.key, &row.value, &mut out)?; // reference|color
/// ```
#[tactic(auto, unfolding(crate::specs::ValueNotation::row_notation))]
pub fn write_row_notation<W: Write + Drop>(
    packages: &PackageNames<'_>,
    key: &RowKey<'_>,
    value: &ValueContent<'_>,
    out: &mut W,
) -> io::Result<()>
    ensures { Writes W.contents out.old out.new result (row_notation packages.now (row_key_of key.now) (value_content_of value.now)) }
{
    if is_of_formats(key) {
        return write_formats_notation(packages, value, out);
    }
    write_value_notation(packages, value, out)
}

fn is_of_formats(key: &RowKey<'_>) -> bool
    ensures { result ≡ is_of_formats (row_key_of key.now) }
{
    match key {
        RowKey::Called(Label::Id(id)) => id.0 == FORMATS,
        RowKey::Called(Label::Name { .. }) | RowKey::Place(_) | RowKey::Quantity(_) => false,
    }
}

fn write_formats_notation<W: Write + Drop>(
    packages: &PackageNames<'_>,
    value: &ValueContent<'_>,
    out: &mut W,
) -> io::Result<()>
    ensures { Writes W.contents out.old out.new result (formats_notation packages.now (value_content_of value.now)) }
{
    match value {
        ValueContent::Other { kind, word } => write_formats(
            Value {
                kind: *kind,
                word: *word,
            },
            out,
        ),
        ValueContent::String(_)
        | ValueContent::Garbled(_)
        | ValueContent::Broken(_)
        | ValueContent::Reference(_)
        | ValueContent::Attribute(_) => write_value_notation(packages, value, out),
    }
}
