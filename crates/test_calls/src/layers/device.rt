//! The device of a text of qualifiers.

use config_record::{Coord, Device, Fields, Locale};

/// The density of a device whose text names none.
const MEDIUM: u64 = 160;

/// The device of these qualifiers, as `locale=fr,sdk=26`; its density is 160 where none is named. None where
/// one is not known.
pub(crate) fn device_of(qualifiers: &str) -> Option<Device> {
    let mut fields = Fields {
        numbers: [0; 25],
        locale: Locale::NONE,
    };
    fields.numbers[Coord::Density.place()] = MEDIUM;
    if qualifiers.is_empty() {
        return Device::check(&fields).ok();
    }
    for qualifier in qualifiers.split(',') {
        let (name, value) = qualifier.split_once('=')?;
        put(&mut fields, name, value)?;
    }
    Device::check(&fields).ok()
}

fn put(fields: &mut Fields, name: &str, value: &str) -> Option<()> {
    if name == "locale" {
        fields.locale = Locale::read(value).ok()?;
        return Some(());
    }
    for coord in &Coord::ALL {
        if coord.name() == name {
            fields.numbers[coord.place()] = value.parse::<u64>().ok()?;
            return Some(());
        }
    }
    None
}
