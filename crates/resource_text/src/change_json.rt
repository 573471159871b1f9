//! How two resources differ, as a JSON value.

ghost use Rattle.std.specs.Prelude.{◌≡◌, map, IfOk, OnOk};
ghost use Rattle.serde_json.specs.Data.{put as with_member};
ghost use Rattle.serde_json.specs.View.{view, members_view};
ghost use Rattle.stack_diff.specs.DifferenceSeen.{row_difference_of, difference_of};
ghost use Rattle.answer_text.specs.ContentSeen.{content_of};
ghost use Rattle.resource_text.specs.ContentJson.{content_data};
ghost use Rattle.resource_text.specs.TextJson.{text_data};
ghost use Rattle.resource_text.specs.ChangeJson.{with_row_change, row_change_data, device_words, with_devices, with_difference, change_data};

use crate::content_json::{content_json, put_key, put_row_value};
use crate::devices_json::devices_json;
use crate::devices_text::write_devices_in;
use crate::text_json::text_json;
use answer_text::{Content, Form};
use serde_json::{Map, Value, put};
use stack_diff::{ConfigBox, Difference, PackageNames, RowDifference};
use std::alloc::{AllocError, Global};

/// How a resource differs on the devices of a part of the whole box: what it says before and after, or each row of a bag that
/// differs; from nothing all that it says; and which devices these are.
///
/// ```text
/// // {"after":{"value":..},"before":{"value":..},"devices":{"locale":["de-AT","de-CH"]},"on":"de-rAT,de-rCH"}
/// change_json(alloc, &packages, &difference, &phones, &german)?;
/// ```
pub(crate) fn change_json(
    alloc: Global,
    packages: &PackageNames<'_>,
    difference: &Difference<'_>,
    whole: &ConfigBox,
    part: &ConfigBox,
) -> Result<Value, AllocError>
    ensures { IfOk result (λ change. view change ≡ change_data packages.now (difference_of difference.now) whole.now part.now) }
{
    let mut members = Map::new(alloc);
    put_difference(alloc, packages, difference, &mut members)?;
    put_devices(alloc, whole, part, &mut members)?;
    Ok(Value::Object(members))
}

#[tactic(auto, unfolding(crate::specs::ChangeJson::with_difference))]
fn put_difference(
    alloc: Global,
    packages: &PackageNames<'_>,
    difference: &Difference<'_>,
    members: &mut Map<String, Value>,
) -> Result<(), AllocError>
    ensures { OnOk result (members_view members.new.entries
        ≡ with_difference packages.now (difference_of difference.now) (members_view members.old.entries)) }
{
    match difference {
        Difference::Rows(rows) => {
            let rows = row_changes_json(alloc, packages, rows)?;
            put(members, alloc, "rows", Value::Array(rows))
        }
        Difference::Contents { before, after } => {
            put_content(alloc, packages, "before", before, members)?;
            put_content(alloc, packages, "after", after, members)
        }
        Difference::FromNothing(content) => {
            put_content(alloc, packages, "content", content, members)
        }
    }
}

fn put_content(
    alloc: Global,
    packages: &PackageNames<'_>,
    name: &str,
    content: &Content<'_>,
    members: &mut Map<String, Value>,
) -> Result<(), AllocError>
    ensures { OnOk result (members_view members.new.entries
        ≡ with_member name.now (content_data packages.now (content_of content.now)) (members_view members.old.entries)) }
{
    let content = content_json(alloc, packages, content)?;
    put(members, alloc, name, content)
}

// ---- the devices

/// What stands before the words of devices.
const ON: &str = " on ";

#[tactic(auto, unfolding(crate::specs::ChangeJson::with_devices))]
fn put_devices(
    alloc: Global,
    whole: &ConfigBox,
    part: &ConfigBox,
    members: &mut Map<String, Value>,
) -> Result<(), AllocError>
    ensures { OnOk result (members_view members.new.entries
        ≡ with_devices whole.now part.now (members_view members.old.entries)) }
{
    let devices = devices_json(alloc, whole, part)?;
    put(members, alloc, "devices", devices)?;
    let words = device_words_json(alloc, whole, part)?;
    put(members, alloc, "on", words)
}

// The words of the devices.
fn device_words_json(
    alloc: Global,
    whole: &ConfigBox,
    part: &ConfigBox,
) -> Result<Value, AllocError>
    ensures { IfOk result (λ words. view words ≡ text_data (device_words whole.now part.now)) }
{
    let mut text = Vec::new(alloc);
    match write_devices_in(Form::Android, whole, part, &mut text) {
        Ok(()) => text_json(alloc, text.get(ON.len()..).unwrap_or(&[])),
        // To a `Vec` only a want of memory is a fault.
        Err(_) => Err(AllocError),
    }
}

// ---- rows

fn row_changes_json(
    alloc: Global,
    packages: &PackageNames<'_>,
    rows: &[RowDifference<'_>],
) -> Result<Vec<Value>, AllocError>
    ensures { IfOk result (λ values. map view values.items ≡ map (row_change_data packages.now) (map row_difference_of rows.now)) }
{
    let mut values = Vec::with_capacity(alloc, rows.len())?;
    for row in rows {
        let value = row_change_json(alloc, packages, row)?;
        values.push(value)?;
    }
    Ok(values)
}

fn row_change_json(
    alloc: Global,
    packages: &PackageNames<'_>,
    row: &RowDifference<'_>,
) -> Result<Value, AllocError>
    ensures { IfOk result (λ value. view value ≡ row_change_data packages.now (row_difference_of row.now)) }
{
    let mut members = Map::new(alloc);
    put_row_change(alloc, packages, row, &mut members)?;
    Ok(Value::Object(members))
}

#[tactic(auto, unfolding(crate::specs::ChangeJson::with_row_change))]
fn put_row_change(
    alloc: Global,
    packages: &PackageNames<'_>,
    row: &RowDifference<'_>,
    members: &mut Map<String, Value>,
) -> Result<(), AllocError>
    ensures { OnOk result (members_view members.new.entries
        ≡ with_row_change packages.now (row_difference_of row.now) (members_view members.old.entries)) }
{
    match row {
        RowDifference::Removed(row) => {
            put_key(alloc, packages, &row.key, members)?;
            put_row_value(
                alloc, packages, "before", None, &row.key, &row.value, members,
            )
        }
        RowDifference::Added(row) => {
            put_key(alloc, packages, &row.key, members)?;
            put_row_value(
                alloc, packages, "after", None, &row.key, &row.value, members,
            )
        }
        RowDifference::Changed { key, before, after } => {
            put_key(alloc, packages, key, members)?;
            put_row_value(alloc, packages, "before", None, key, before, members)?;
            put_row_value(alloc, packages, "after", None, key, after, members)
        }
    }
}
