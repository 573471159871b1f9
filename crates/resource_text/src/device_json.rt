//! A device as a JSON value.

ghost use Rattle.std.specs.Prelude.{◌≡◌, fold, IfOk, OnOk};
ghost use Rattle.serde_json.specs.View.{view, members_view};
ghost use Rattle.config_box.specs.config_record.Device.{device_coordinate};
ghost use Rattle.reference_resolver.specs.config_precedence.config_record.DeviceSeen.{device_numbers};
ghost use Rattle.resource_text.specs.ConfigJson.{with_number_of};
ghost use Rattle.resource_text.specs.DeviceJson.{device_data};

use crate::config_json::{put_locale, put_number};
use bags_themes::{Coord, Device};
use serde_json::{Map, Value};
use std::alloc::{AllocError, Global};

/// A device, as a device file has it.
///
/// ```text
/// let phone = device_json(alloc, &device)?; // {"density":420,"locale":"fr-CA","sdk":27}
/// ```
#[tactic(auto, unfolding(crate::specs::DeviceJson::device_data, crate::specs::Unfolded::all_coords))]
pub(crate) fn device_json(alloc: Global, device: &Device) -> Result<Value, AllocError>
    ensures { IfOk result (λ json. view json ≡ device_data (device_numbers device.now)) }
{
    let mut members = Map::new(alloc);
    put_numbers(alloc, device, &Coord::ALL, &mut members)?;
    put_locale(alloc, device.locale(), &mut members)?;
    Ok(Value::Object(members))
}

fn put_numbers(
    alloc: Global,
    device: &Device,
    coords: &[Coord],
    members: &mut Map<String, Value>,
) -> Result<(), AllocError>
    ensures { OnOk result (members_view members.new.entries
        ≡ fold (with_number_of (device_coordinate (device_numbers device.now))) (members_view members.old.entries) coords.now) }
{
    for coord in coords {
        put_number(alloc, *coord, device.get(*coord), members)?;
    }
    Ok(())
}
