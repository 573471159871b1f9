//! Stored configurations, as JSON values.

ghost use Rattle.std.specs.Prelude.{◌≡◌, ◌≤◌, length, fold, IfOk, OnOk};
ghost use Rattle.serde_json.specs.View.{view, members_view};
ghost use Rattle.config_box.specs.config_record.Record.{coordinate, record_bytes};
ghost use Rattle.resource_text.specs.ConfigJson.{with_number, with_number_of, with_locale, with_bytes, qualifiers_data, config_data};

use crate::devices_json::locale_json;
use crate::text_json::text_json;
use bags_themes::{Coord, Record};
use locales::{Locale, is_zero, write_hex};
use notation::write_config;
use serde_json::{Map, Value, put};
use std::alloc::{AllocError, Global};

/// A configuration: an object with its qualifiers that are not zero, and Android's words for it.
///
/// ```text
/// let config = config_json(alloc, &row.config)?; // {"qualifiers":{"density":320,"sdk":4},"words":"xhdpi-v4"}
/// ```
#[tactic(auto, unfolding(crate::specs::ConfigJson::config_data))]
pub(crate) fn config_json(alloc: Global, config: &Record<'_>) -> Result<Value, AllocError>
    ensures { IfOk result (λ json. view json ≡ config_data (record_bytes config.now)) }
{
    let mut words = Vec::new(alloc);
    let Ok(()) = write_config(config, &mut words) else {
        // To a `Vec` only a want of memory is a fault.
        return Err(AllocError);
    };
    let mut members = Map::new(alloc);
    let qualifiers = qualifiers_json(alloc, config)?;
    put(&mut members, alloc, "qualifiers", qualifiers)?;
    put(&mut members, alloc, "words", text_json(alloc, &words)?)?;
    Ok(Value::Object(members))
}

#[tactic(auto, unfolding(crate::specs::ConfigJson::qualifiers_data, crate::specs::Unfolded::all_coords))]
fn qualifiers_json(alloc: Global, config: &Record<'_>) -> Result<Value, AllocError>
    ensures { IfOk result (λ json. view json ≡ qualifiers_data (record_bytes config.now)) }
{
    let mut members = Map::new(alloc);
    put_numbers(alloc, config, &Coord::ALL, &mut members)?;
    put_locale(alloc, config.locale(), &mut members)?;
    put_bytes(alloc, "script", &config.script(), &mut members)?;
    put_bytes(alloc, "variant", &config.variant(), &mut members)?;
    Ok(Value::Object(members))
}

fn put_numbers(
    alloc: Global,
    config: &Record<'_>,
    coords: &[Coord],
    members: &mut Map<String, Value>,
) -> Result<(), AllocError>
    ensures { OnOk result (members_view members.new.entries
        ≡ fold (with_number_of (coordinate (record_bytes config.now))) (members_view members.old.entries) coords.now) }
{
    for coord in coords {
        put_number(alloc, *coord, config.get(*coord), members)?;
    }
    Ok(())
}

/// Puts the number at a coordinate, unless it is 0.
#[tactic(auto, unfolding(crate::specs::ConfigJson::with_number))]
pub(crate) fn put_number(
    alloc: Global,
    coord: Coord,
    number: u32,
    members: &mut Map<String, Value>,
) -> Result<(), AllocError>
    ensures { OnOk result (members_view members.new.entries ≡ with_number coord number (members_view members.old.entries)) }
{
    if number == 0 {
        return Ok(());
    }
    put(members, alloc, coord.name(), Value::from(number))
}

/// Puts a locale, unless it has neither a language nor a region.
#[tactic(auto, unfolding(crate::specs::ConfigJson::with_locale))]
pub(crate) fn put_locale(
    alloc: Global,
    locale: Locale,
    members: &mut Map<String, Value>,
) -> Result<(), AllocError>
    ensures { OnOk result (members_view members.new.entries ≡ with_locale locale (members_view members.old.entries)) }
{
    if is_zero(&locale.language) && is_zero(&locale.region) {
        return Ok(());
    }
    let text = locale_json(alloc, locale)?;
    put(members, alloc, Coord::Locale.name(), text)
}

// Puts bytes in hexadecimal digits, unless they are zero.
#[tactic(auto, unfolding(crate::specs::ConfigJson::with_bytes))]
fn put_bytes(
    alloc: Global,
    name: &str,
    bytes: &[u8],
    members: &mut Map<String, Value>,
) -> Result<(), AllocError>
    requires { length bytes.now ≤ 8 }
    ensures { OnOk result (members_view members.new.entries ≡ with_bytes name.now bytes.now (members_view members.old.entries)) }
{
    if is_zero(bytes) {
        return Ok(());
    }
    let mut digits = Vec::new(alloc);
    let Ok(()) = write_hex(bytes, &mut digits) else {
        // To a `Vec` only a want of memory is a fault.
        return Err(AllocError);
    };
    put(members, alloc, name, text_json(alloc, &digits)?)
}
