//! The device that the members of a JSON object mean.

ghost use Rattle.std.specs.Prelude.{◌≡◌, length, option_map};
ghost use Rattle.json_input.specs.Each.{each};
ghost use Rattle.json_tokens.specs.Kind.{kind_seen};
ghost use Rattle.json_tokens.specs.Fields.{fields_seen, slots_seen};
ghost use Rattle.config_record.specs.DeviceKinds.{kind_at, number_asked, number_asked_at, text_asked, device_of_kinds};
ghost use Rattle.config_record.specs.DeviceSeen.{filled, seen, text_seen};

use crate::coord::{COORD_COUNT, Coord};
use crate::device::Device;
use crate::fields::DeviceFault;
use json_tokens::Kind;
use locales::{LocaleRule, read_locale};

/// What stands at each coordinate, in their order.
pub(crate) type Slots<'a> = [Option<Kind<'a>>; COORD_COUNT];

/// The device of these members, where there are no others.
#[tactic(auto, unfolding(crate::specs::DeviceKinds::device_of_kinds, crate::specs::Coord::all_coords))]
pub(crate) fn device_of_members(
    slots: &Slots<'_>,
    no_others: bool,
    rule: LocaleRule,
) -> Result<Device, DeviceFault>
    ensures { seen result ≡ device_of_kinds rule (fields_seen slots.now no_others) }
{
    if !no_others {
        return Err(DeviceFault::Shape);
    }
    let mut numbers = [0; COORD_COUNT];
    fill_asked(slots, &Coord::ALL, &mut numbers)?;
    let text = text_asked(slot_at(slots, Coord::Locale))?;
    Device::with(&numbers, read_locale(text, rule))
}

#[tactic(auto, using(crate::proofs::FillSteps::fill_steps))]
fn fill_asked(slots: &Slots<'_>, coords: &[Coord], numbers: &mut [u64]) -> Result<(), DeviceFault>
    requires { length numbers.old ≡ length coords.now }
    ensures { filled result numbers.new ≡ each (number_asked_at (slots_seen slots.now)) coords.now }
{
    for (place, coord) in coords.iter().enumerate() {
        numbers[place] = number_asked(*coord, slot_at(slots, *coord))?;
    }
    Ok(())
}

// What stands at a coordinate.
fn slot_at<'a>(slots: &Slots<'a>, coord: Coord) -> Option<Kind<'a>>
    ensures { option_map kind_seen result ≡ kind_at (slots_seen slots.now) coord }
{
    slots[coord.place()]
}

// The number at a coordinate, 0 where there is none.
#[tactic(auto, unfolding(crate::specs::DeviceKinds::number_asked))]
fn number_asked(coord: Coord, slot: Option<Kind<'_>>) -> Result<u64, DeviceFault>
    ensures { result ≡ number_asked coord (option_map kind_seen slot.entry) }
{
    match (coord, slot) {
        (Coord::Locale, _) | (_, None) => Ok(0),
        (_, Some(Kind::Number(number))) => Ok(number),
        _ => Err(DeviceFault::Shape),
    }
}

// The text at the locale, empty where there is none.
#[tactic(auto, unfolding(crate::specs::DeviceKinds::text_asked))]
fn text_asked(slot: Option<Kind<'_>>) -> Result<&str, DeviceFault>
    ensures { text_seen result ≡ text_asked (option_map kind_seen slot.entry) }
{
    match slot {
        None => Ok(""),
        Some(Kind::Text(text)) => Ok(text),
        Some(_) => Err(DeviceFault::Shape),
    }
}
