//! What values and keys say, written.

ghost use Rattle.std.specs.Prelude.{◌≡◌, ◌++◌};
ghost use Rattle.contract_words.specs.Writes.{Writes};
ghost use Rattle.names.specs.Label.{label_of};
ghost use Rattle.names.specs.LabelText.{label_text};
ghost use Rattle.answer_text.specs.ContentSeen.{value_content_of, row_key_of};
ghost use Rattle.answer_text.specs.ValueText.{broken_text, value_content_text, quantity_text, key_text};

use crate::content::{BrokenString, Quantity, RowKey, ValueContent};
use crate::named::write_named_number;
use bags_themes::Value;
use names::{Label, PackageNames, write_quoted};
use res_value::write_value;
use std::io::{self, Write};

/// Writes what a value says: a string between quotes, an id by its label behind `@` or `?`, and any other value as
/// values are.
///
/// ```text
/// write_value_content(&packages, &row.value, &mut out)?; // @android:color/white
/// ```
#[tactic(auto, unfolding(crate::specs::ValueText::value_content_text))]
pub fn write_value_content<W: Write + Drop>(
    packages: &PackageNames<'_>,
    value: &ValueContent<'_>,
    out: &mut W,
) -> io::Result<()>
    ensures { Writes W.contents out.old out.new result (value_content_text packages.now (value_content_of value.now)) }
{
    match value {
        ValueContent::String(text) => write_quoted(text.as_str().as_bytes(), out),
        ValueContent::Garbled(text) => out.write_all(text),
        ValueContent::Broken(string) => write_broken(*string, out),
        ValueContent::Reference(label) => write_label_behind(b"@", packages, label, out),
        ValueContent::Attribute(label) => write_label_behind(b"?", packages, label, out),
        ValueContent::Other { kind, word } => write_value(
            Value {
                kind: *kind,
                word: *word,
            },
            out,
        ),
    }
}

#[tactic(auto, unfolding(crate::specs::ValueText::broken_text, crate::specs::NamedText::named_number))]
fn write_broken<W: Write + Drop>(string: BrokenString, out: &mut W) -> io::Result<()>
    ensures { Writes W.contents out.old out.new result (broken_text string) }
{
    match string {
        BrokenString::NoSuch(index) => write_named_number("!NoSuch", u128::from(index), out),
        BrokenString::Cut(index) => write_named_number("!Cut", u128::from(index), out),
        BrokenString::NotEnded(index) => write_named_number("!NotEnded", u128::from(index), out),
    }
}

/// Writes a label behind a sign.
pub(crate) fn write_label_behind<W: Write + Drop>(
    sign: &[u8],
    packages: &PackageNames<'_>,
    label: &Label<'_>,
    out: &mut W,
) -> io::Result<()>
    ensures { Writes W.contents out.old out.new result (sign.now ++ label_text packages.now (label_of label.now)) }
{
    out.write_all(sign)?;
    packages.write_label(label, out)
}

/// Writes what tells a row from the others of its bag: `[PLACE]`, a quantity, or a label.
#[tactic(auto, unfolding(crate::specs::ValueText::key_text))]
pub fn write_row_key<W: Write + Drop>(
    packages: &PackageNames<'_>,
    key: &RowKey<'_>,
    out: &mut W,
) -> io::Result<()>
    ensures { Writes W.contents out.old out.new result (key_text packages.now (row_key_of key.now)) }
{
    match key {
        RowKey::Place(place) => write!(out, "[{place}]"),
        RowKey::Quantity(quantity) => out.write_all(quantity_word(*quantity)),
        RowKey::Called(label) => packages.write_label(label, out),
    }
}

fn quantity_word(quantity: Quantity) -> &'static [u8]
    ensures { result.now ≡ quantity_text quantity }
{
    match quantity {
        Quantity::Other => b"other",
        Quantity::Zero => b"zero",
        Quantity::One => b"one",
        Quantity::Two => b"two",
        Quantity::Few => b"few",
        Quantity::Many => b"many",
    }
}
