//! The devices of a part of a box, as a JSON value.

ghost use Rattle.std.specs.Prelude.{◌≡◌, map, fold, IfOk, OnOk};
ghost use Rattle.serde_json.specs.View.{view, members_view};
ghost use Rattle.config_box.specs.BoxSeen.{values_seen};
ghost use Rattle.config_box.specs.box_answers.NumberSet.{RangeOf, locale_numbers};
ghost use Rattle.config_box.specs.config_record.locales.Text.{locale_text};
ghost use Rattle.resource_text.specs.TextJson.{text_data, number_data};
ghost use Rattle.resource_text.specs.DevicesJson.{locale_data, set_data, with_narrower, devices_data};

use crate::text_json::text_json;
use config_box::{ConfigBox, Coord, Locale, Values};
use locales::write_locale;
use notation::is_narrower;
use serde_json::{Map, Value, put};
use std::alloc::{AllocError, Global};

/// Which devices a part of a box has: an object with what it has at the coordinates at which it has fewer numbers than the whole,
/// each as a box has it.
///
/// ```text
/// let devices = devices_json(alloc, &phones, &some)?; // {"density":{"from":120,"to":197},"locale":["de-AT"]}
/// ```
#[tactic(auto, unfolding(crate::specs::DevicesJson::devices_data, crate::specs::Unfolded::all_coords))]
pub(crate) fn devices_json(
    alloc: Global,
    whole: &ConfigBox,
    part: &ConfigBox,
) -> Result<Value, AllocError>
    ensures { IfOk result (λ devices. view devices ≡ devices_data whole.now part.now) }
{
    let mut narrower = Map::new(alloc);
    put_narrower(alloc, whole, part, &Coord::ALL, &mut narrower)?;
    Ok(Value::Object(narrower))
}

fn put_narrower(
    alloc: Global,
    whole: &ConfigBox,
    part: &ConfigBox,
    coords: &[Coord],
    narrower: &mut Map<String, Value>,
) -> Result<(), AllocError>
    ensures { OnOk result (members_view narrower.new.entries
        ≡ fold (with_narrower whole.now part.now) (members_view narrower.old.entries) coords.now) }
{
    for coord in coords {
        put_if_narrower(alloc, whole, part, *coord, narrower)?;
    }
    Ok(())
}

#[tactic(auto, unfolding(crate::specs::DevicesJson::with_narrower))]
fn put_if_narrower(
    alloc: Global,
    whole: &ConfigBox,
    part: &ConfigBox,
    coord: Coord,
    narrower: &mut Map<String, Value>,
) -> Result<(), AllocError>
    ensures { OnOk result (members_view narrower.new.entries
        ≡ with_narrower whole.now part.now (members_view narrower.old.entries) coord) }
{
    if !is_narrower(whole, part, coord) {
        return Ok(());
    }
    let values = values_json(alloc, part.values(coord))?;
    put(narrower, alloc, coord.name(), values)
}

// ---- the values of a coordinate

#[tactic(auto, unfolding(crate::specs::DevicesJson::set_data))]
fn values_json(alloc: Global, values: Values<'_>) -> Result<Value, AllocError>
    ensures { IfOk result (λ value. view value ≡ set_data (values_seen values.entry)) }
{
    match values {
        Values::Range(low, high) => range_json(alloc, low, high),
        Values::Numbers(numbers) => Ok(Value::Array(numbers_json(alloc, numbers)?)),
        Values::Locales(locales) => Ok(Value::Array(locales_json(alloc, locales)?)),
    }
}

#[tactic(auto, unfolding(crate::specs::DevicesJson::set_data))]
fn range_json(alloc: Global, low: u32, high: u32) -> Result<Value, AllocError>
    ensures { IfOk result (λ value. view value ≡ set_data (RangeOf low high)) }
{
    let mut members = Map::new(alloc);
    put(&mut members, alloc, "from", Value::from(low))?;
    put(&mut members, alloc, "to", Value::from(high))?;
    Ok(Value::Object(members))
}

fn numbers_json(alloc: Global, numbers: &[u32]) -> Result<Vec<Value>, AllocError>
    ensures { IfOk result (λ values. map view values.items ≡ map number_data numbers.now) }
{
    let mut values = Vec::with_capacity(alloc, numbers.len())?;
    for number in numbers {
        values.push(Value::from(*number))?;
    }
    Ok(values)
}

fn locales_json(alloc: Global, locales: &[Locale]) -> Result<Vec<Value>, AllocError>
    ensures { IfOk result (λ values. map view values.items ≡ map locale_data (locale_numbers locales.now)) }
{
    let mut values = Vec::with_capacity(alloc, locales.len())?;
    for locale in locales {
        let value = locale_json(alloc, Locale::of_number(locale.number()))?;
        values.push(value)?;
    }
    Ok(values)
}

/// The text of a locale; that of a device without one is empty.
pub fn locale_json(alloc: Global, locale: Locale) -> Result<Value, AllocError>
    ensures { IfOk result (λ value. view value ≡ text_data (locale_text locale)) }
{
    let mut text = Vec::new(alloc);
    match write_locale(locale, &mut text) {
        Ok(()) => text_json(alloc, &text),
        // To a `Vec` only a want of memory is a fault.
        Err(_) => Err(AllocError),
    }
}
