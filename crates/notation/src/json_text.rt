//! Devices as JSON texts.

ghost use Rattle.std.specs.Prelude.{◌≡◌, ℕ, List, Ok, OnOk};
ghost use Rattle.std.specs.List.{flat_map, join_with_byte};
ghost use Rattle.contract_words.specs.Writes.{Writes};
ghost use Rattle.config_record.specs.locales.LocaleRule.{rule_of};
ghost use Rattle.config_record.specs.locales.declared.locale_rule.LocaleRule.{LocaleRule};
ghost use Rattle.config_record.specs.Device.{device_locale};
ghost use Rattle.config_record.specs.DeviceJson.{device_in_json_by};
ghost use Rattle.config_record.specs.DeviceSeen.{device_numbers};
ghost use Rattle.notation.specs.LineLocale.{comma};
ghost use Rattle.notation.specs.Config.{device_of_config_by};
ghost use Rattle.notation.specs.Dashes.{WritesBetween};
ghost use Rattle.notation.specs.JsonText.{number_member, locale_member, members_at, device_members, device_json};

use crate::separator::write_separator;
use config_record::{Coord, Device, Locale, write_locale};
use locales::is_zero;
use std::io::{self, Write};

/// Writes a device as a JSON object, in one line, in the order of the coordinates, and without what is 0.
///
/// ```text
/// write_device_json(&device, &mut out)?; // {"locale":"fr-CA","density":420,"sdk":27}
/// ```
pub fn write_device_json<W: Write + Drop>(device: &Device, out: &mut W) -> io::Result<()>
    ensures text { Writes W.contents out.old out.new result (device_json (device_numbers device.now)) }

    // It reads as that device, by the rule of its locale.
    ensures reads_back { device_in_json_by (rule_of (device_locale (device_numbers device.now))) (device_json (device_numbers device.now)) ≡ Ok (device_numbers device.now) }

    // That is the rule by which it was read, of a JSON text or of a line.
    ensures as_json { (rule : LocaleRule) → (json : List ℕ) → device_in_json_by rule json ≡ Ok (device_numbers device.now)
        → device_in_json_by rule (device_json (device_numbers device.now)) ≡ Ok (device_numbers device.now) }
    ensures as_line { (rule : LocaleRule) → (line : List ℕ) → device_of_config_by rule line ≡ Ok (device_numbers device.now)
        → device_in_json_by rule (device_json (device_numbers device.now)) ≡ Ok (device_numbers device.now) }
{
    write_known(*device, out)
}

// It is passed by value, and read, so that what its type says of its numbers is known.
fn write_known<W: Write + Drop>(device: Device, out: &mut W) -> io::Result<()>
    ensures text { Writes W.contents out.old out.new result (device_json (device_numbers device)) }
    ensures reads_back { device_in_json_by (rule_of (device_locale (device_numbers device))) (device_json (device_numbers device)) ≡ Ok (device_numbers device) }
{
    let _ = device.compared_number(Coord::Locale);
    write_object(&device, out)
}

#[tactic(auto, unfolding(crate::specs::JsonText::device_json))]
fn write_object<W: Write + Drop>(device: &Device, out: &mut W) -> io::Result<()>
    ensures { Writes W.contents out.old out.new result (device_json (device_numbers device.now)) }
{
    out.write_all(b"{")?;
    write_members(device, out)?;
    out.write_all(b"}\n")
}

#[tactic(auto, unfolding(crate::specs::JsonText::device_members, config_record::specs::Coord::all_coords))]
fn write_members<W: Write + Drop>(device: &Device, out: &mut W) -> io::Result<()>
    ensures { Writes W.contents out.old out.new result (join_with_byte comma (device_members (device_numbers device.now))) }
{
    let mut due = false;
    write_each(device, &Coord::ALL, &mut due, out)?;
    Ok(())
}

fn write_each<W: Write + Drop>(
    device: &Device,
    coords: &[Coord],
    due: &mut bool,
    out: &mut W,
) -> io::Result<()>
    ensures { OnOk result (WritesBetween comma due.old due.new (W.contents out.old) (W.contents out.new)
        (flat_map (members_at (device_numbers device.now)) coords.now)) }
{
    for coord in coords {
        write_member(device, *coord, due, out)?;
    }
    Ok(())
}

#[tactic(auto, unfolding(crate::specs::JsonText::members_at))]
fn write_member<W: Write + Drop>(
    device: &Device,
    coord: Coord,
    due: &mut bool,
    out: &mut W,
) -> io::Result<()>
    ensures { OnOk result (WritesBetween comma due.old due.new (W.contents out.old) (W.contents out.new)
        (members_at (device_numbers device.now) coord)) }
{
    match coord {
        Coord::Locale => write_its_locale(device.locale(), due, out),
        _ => write_number(coord, device.get(coord), due, out),
    }
}

#[tactic(auto, unfolding(crate::specs::JsonText::number_member, config_record::specs::Separator::continued))]
fn write_number<W: Write + Drop>(
    coord: Coord,
    number: u32,
    due: &mut bool,
    out: &mut W,
) -> io::Result<()>
    ensures { OnOk result (WritesBetween comma due.old due.new (W.contents out.old) (W.contents out.new)
        (number_member coord number)) }
{
    if number == 0 {
        return Ok(());
    }
    let name = coord.name();
    write_separator(b',', due, out)?;
    write!(out, "\"{name}\":{number}")
}

#[tactic(auto, unfolding(crate::specs::JsonText::locale_member, config_record::specs::Separator::continued))]
fn write_its_locale<W: Write + Drop>(locale: Locale, due: &mut bool, out: &mut W) -> io::Result<()>
    ensures { OnOk result (WritesBetween comma due.old due.new (W.contents out.old) (W.contents out.new)
        (locale_member locale)) }
{
    if is_zero(&locale.language) && is_zero(&locale.region) {
        return Ok(());
    }
    let name = Coord::Locale.name();
    write_separator(b',', due, out)?;
    write!(out, "\"{name}\":\"")?;
    write_locale(locale, out)?;
    out.write_all(b"\"")
}
