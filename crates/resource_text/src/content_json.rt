//! What resources say, as JSON values.

ghost use Rattle.std.specs.Prelude.{◌≡◌, map, IfOk, OnOk};
ghost use Rattle.serde_json.specs.View.{view, members_view};
ghost use Rattle.serde_json.specs.Written.{compact_text};
ghost use Rattle.names.specs.Label.{label_of};
ghost use Rattle.answer_text.specs.ContentSeen.{value_content_of, row_key_of, row_content_of, content_of};
ghost use Rattle.answer_text.specs.InForm.{value_in, key_in, row_value_in};
ghost use Rattle.answer_text.specs.ValueText.{value_content_text};
ghost use Rattle.resource_text.specs.TextJson.{text_data};
ghost use Rattle.resource_text.specs.ContentJson.{label_data, with_kind_and_word, with_stored, with_value, value_data, key_data, with_key, with_row_value, with_row, row_data, with_content, content_data};
ghost use Rattle.notation.specs.declared.form.Form.TheVariants.{Android};

use crate::text_json::text_json;
use answer_text::{
    Content, Form, RowContent, RowKey, ValueContent, write_key_in, write_row_value_in,
    write_value_content, write_value_in,
};
use names::{Label, PackageNames};
use serde_json::{Map, Value, put};
use std::alloc::{AllocError, Global};

// ---- names

/// What a resource is called, as the text of a JSON value.
///
/// ```text
/// let name = name_json(alloc, &packages, &pair.label)?; // "dimen/margin", in quotes
/// ```
pub fn name_json(
    alloc: Global,
    packages: &PackageNames<'_>,
    label: &Label<'_>,
) -> Result<Vec<u8>, AllocError>
    ensures { IfOk result (λ text. text.items ≡ compact_text (label_data packages.now (label_of label.now))) }
{
    let name = label_json(alloc, packages, label)?;
    let text = name.to_vec(alloc)?;
    Ok(text)
}

// The same, as the value: its name, or its id.
fn label_json(
    alloc: Global,
    packages: &PackageNames<'_>,
    label: &Label<'_>,
) -> Result<Value, AllocError>
    ensures { IfOk result (λ name. view name ≡ label_data packages.now (label_of label.now)) }
{
    let mut text = Vec::new(alloc);
    match packages.write_label(label, &mut text) {
        Ok(()) => text_json(alloc, &text),
        // To a `Vec` only a want of memory is a fault.
        Err(_) => Err(AllocError),
    }
}

// ---- values

/// What a value says, as `{"kind":5,"word":4097,"xml":"16dp"}`, and what its row holds, where that is told.
pub(crate) fn value_json(
    alloc: Global,
    packages: &PackageNames<'_>,
    stored: Option<res_value::Value>,
    value: &ValueContent<'_>,
) -> Result<Value, AllocError>
    ensures { IfOk result (λ json. view json ≡ value_data packages.now stored (value_content_of value.now)
        (value_in Android packages.now (value_content_of value.now))) }
{
    let mut xml = Vec::new(alloc);
    match write_value_in(Form::Android, packages, value, &mut xml) {
        Ok(()) => value_with(alloc, packages, stored, value, &xml),
        // To a `Vec` only a want of memory is a fault.
        Err(_) => Err(AllocError),
    }
}

// A value that stands in XML as this text.
#[tactic(auto, unfolding(crate::specs::ContentJson::value_data))]
fn value_with(
    alloc: Global,
    packages: &PackageNames<'_>,
    stored: Option<res_value::Value>,
    value: &ValueContent<'_>,
    xml: &[u8],
) -> Result<Value, AllocError>
    ensures { IfOk result (λ json. view json ≡ value_data packages.now stored (value_content_of value.now) xml.now) }
{
    let mut members = Map::new(alloc);
    put(&mut members, alloc, "xml", text_json(alloc, xml)?)?;
    put_stored(alloc, stored, &mut members)?;
    put_value(alloc, packages, value, &mut members)?;
    Ok(Value::Object(members))
}

// Puts what a row holds, where that is told.
#[tactic(auto, unfolding(crate::specs::ContentJson::with_stored))]
fn put_stored(
    alloc: Global,
    stored: Option<res_value::Value>,
    members: &mut Map<String, Value>,
) -> Result<(), AllocError>
    ensures { OnOk result (members_view members.new.entries ≡ with_stored stored (members_view members.old.entries)) }
{
    let Some(value) = stored else {
        return Ok(());
    };
    let mut of_value = Map::new(alloc);
    put_kind_and_word(alloc, value, &mut of_value)?;
    put(members, alloc, "stored", Value::Object(of_value))
}

fn put_kind_and_word(
    alloc: Global,
    value: res_value::Value,
    members: &mut Map<String, Value>,
) -> Result<(), AllocError>
    ensures { OnOk result (members_view members.new.entries ≡ with_kind_and_word value (members_view members.old.entries)) }
{
    put(members, alloc, "kind", Value::from(value.kind))?;
    put(members, alloc, "word", Value::from(value.word))
}

// Puts what it says beside other members.
#[tactic(auto, unfolding(crate::specs::ContentJson::with_value, crate::specs::Unfolded::value_content_text))]
fn put_value(
    alloc: Global,
    packages: &PackageNames<'_>,
    value: &ValueContent<'_>,
    members: &mut Map<String, Value>,
) -> Result<(), AllocError>
    ensures { OnOk result (members_view members.new.entries
        ≡ with_value packages.now (value_content_of value.now) (members_view members.old.entries)) }
{
    match value {
        ValueContent::String(text) => {
            let text = Value::try_from_str(alloc, text.as_str())?;
            put(members, alloc, "string", text)
        }
        ValueContent::Garbled(text) => put(members, alloc, "garbled", text_json(alloc, text)?),
        ValueContent::Broken(_) => {
            let broken = raw_json(alloc, packages, value)?;
            put(members, alloc, "broken", broken)
        }
        ValueContent::Reference(label) => {
            let name = label_json(alloc, packages, label)?;
            put(members, alloc, "reference", name)
        }
        ValueContent::Attribute(label) => {
            let name = label_json(alloc, packages, label)?;
            put(members, alloc, "attribute", name)
        }
        ValueContent::Other { kind, word } => {
            let (kind, word) = (*kind, *word);
            put_kind_and_word(alloc, res_value::Value { kind, word }, members)
        }
    }
}

// What `--raw` prints of it: of a broken string its fault and its index.
fn raw_json(
    alloc: Global,
    packages: &PackageNames<'_>,
    value: &ValueContent<'_>,
) -> Result<Value, AllocError>
    ensures { IfOk result (λ text. view text ≡ text_data (value_content_text packages.now (value_content_of value.now))) }
{
    let mut text = Vec::new(alloc);
    match write_value_content(packages, value, &mut text) {
        Ok(()) => text_json(alloc, &text),
        // To a `Vec` only a want of memory is a fault.
        Err(_) => Err(AllocError),
    }
}

// ---- rows of bags

/// Puts what tells a row from the others of its bag, and what it says, and what it holds, where that is told.
#[tactic(auto, unfolding(crate::specs::ContentJson::with_row))]
pub(crate) fn put_row(
    alloc: Global,
    packages: &PackageNames<'_>,
    stored: Option<res_value::Value>,
    key: &RowKey<'_>,
    value: &ValueContent<'_>,
    members: &mut Map<String, Value>,
) -> Result<(), AllocError>
    ensures { OnOk result (members_view members.new.entries
        ≡ with_row packages.now stored (row_key_of key.now) (value_content_of value.now) (members_view members.old.entries)) }
{
    put_key(alloc, packages, key, members)?;
    put_row_value(alloc, packages, "value", stored, key, value, members)
}

/// Puts what tells a row from the others of its bag.
pub(crate) fn put_key(
    alloc: Global,
    packages: &PackageNames<'_>,
    key: &RowKey<'_>,
    members: &mut Map<String, Value>,
) -> Result<(), AllocError>
    ensures { OnOk result (members_view members.new.entries
        ≡ with_key packages.now (row_key_of key.now) (members_view members.old.entries)) }
{
    let key = key_json(alloc, packages, key)?;
    put(members, alloc, "key", key)
}

// A place by its number, else a quantity or a name.
#[tactic(auto, unfolding(crate::specs::ContentJson::key_data))]
fn key_json(
    alloc: Global,
    packages: &PackageNames<'_>,
    key: &RowKey<'_>,
) -> Result<Value, AllocError>
    ensures { IfOk result (λ json. view json ≡ key_data packages.now (row_key_of key.now)) }
{
    match key {
        RowKey::Place(place) => Ok(Value::from(*place)),
        RowKey::Quantity(_) | RowKey::Called(_) => key_text_json(alloc, packages, key),
    }
}

fn key_text_json(
    alloc: Global,
    packages: &PackageNames<'_>,
    key: &RowKey<'_>,
) -> Result<Value, AllocError>
    ensures { IfOk result (λ text. view text ≡ text_data (key_in Android packages.now (row_key_of key.now))) }
{
    let mut text = Vec::new(alloc);
    match write_key_in(Form::Android, packages, key, &mut text) {
        Ok(()) => text_json(alloc, &text),
        // To a `Vec` only a want of memory is a fault.
        Err(_) => Err(AllocError),
    }
}

/// Puts the value of a row that has this key, at a name.
pub(crate) fn put_row_value(
    alloc: Global,
    packages: &PackageNames<'_>,
    name: &str,
    stored: Option<res_value::Value>,
    key: &RowKey<'_>,
    value: &ValueContent<'_>,
    members: &mut Map<String, Value>,
) -> Result<(), AllocError>
    ensures { OnOk result (members_view members.new.entries
        ≡ with_row_value packages.now name.now stored (row_key_of key.now) (value_content_of value.now) (members_view members.old.entries)) }
{
    let value = row_value_json(alloc, packages, stored, key, value)?;
    put(members, alloc, name, value)
}

fn row_value_json(
    alloc: Global,
    packages: &PackageNames<'_>,
    stored: Option<res_value::Value>,
    key: &RowKey<'_>,
    value: &ValueContent<'_>,
) -> Result<Value, AllocError>
    ensures { IfOk result (λ json. view json ≡ value_data packages.now stored (value_content_of value.now)
        (row_value_in Android packages.now (row_key_of key.now) (value_content_of value.now))) }
{
    let mut xml = Vec::new(alloc);
    match write_row_value_in(Form::Android, packages, key, value, &mut xml) {
        Ok(()) => value_with(alloc, packages, stored, value, &xml),
        // To a `Vec` only a want of memory is a fault.
        Err(_) => Err(AllocError),
    }
}

fn row_json(
    alloc: Global,
    packages: &PackageNames<'_>,
    row: &RowContent<'_>,
) -> Result<Value, AllocError>
    ensures { IfOk result (λ json. view json ≡ row_data packages.now (row_content_of row.now)) }
{
    let mut members = Map::new(alloc);
    put_row(alloc, packages, None, &row.key, &row.value, &mut members)?;
    Ok(Value::Object(members))
}

fn rows_json(
    alloc: Global,
    packages: &PackageNames<'_>,
    rows: &[RowContent<'_>],
) -> Result<Vec<Value>, AllocError>
    ensures { IfOk result (λ values. map view values.items ≡ map (row_data packages.now) (map row_content_of rows.now)) }
{
    let mut values = Vec::with_capacity(alloc, rows.len())?;
    for row in rows {
        let value = row_json(alloc, packages, row)?;
        values.push(value)?;
    }
    Ok(values)
}

// ---- resources

/// What a resource says: a value, the rows of a bag, or why there is neither.
///
/// ```text
/// let said = content_json(alloc, &packages, &content)?; // {"value":{"kind":5,"word":4097,"xml":"16dp"}}
/// ```
pub(crate) fn content_json(
    alloc: Global,
    packages: &PackageNames<'_>,
    content: &Content<'_>,
) -> Result<Value, AllocError>
    ensures { IfOk result (λ json. view json ≡ content_data packages.now (content_of content.now)) }
{
    let mut members = Map::new(alloc);
    put_said(alloc, packages, content, &mut members)?;
    Ok(Value::Object(members))
}

#[tactic(auto, unfolding(crate::specs::ContentJson::with_content))]
fn put_said(
    alloc: Global,
    packages: &PackageNames<'_>,
    content: &Content<'_>,
    members: &mut Map<String, Value>,
) -> Result<(), AllocError>
    ensures { OnOk result (members_view members.new.entries
        ≡ with_content packages.now (content_of content.now) (members_view members.old.entries)) }
{
    let (name, said) = match content {
        Content::Value(value) => ("value", value_json(alloc, packages, None, value)?),
        Content::Bag(rows) => ("bag", Value::Array(rows_json(alloc, packages, rows)?)),
        Content::Absent(label) => ("absent", label_json(alloc, packages, label)?),
        Content::TooManyReferences(label) => {
            ("tooManyReferences", label_json(alloc, packages, label)?)
        }
        Content::TooManyParents(label) => ("tooManyParents", label_json(alloc, packages, label)?),
    };
    put(members, alloc, name, said)
}
