//! The configurations that stand in a resource table, those that are asked for, and what both consist
//! of: 25 coordinates, of which one is a locale and the others are numbers. A record is stored and lends
//! its bytes; a device is asked for and is checked.
//!
//! For the crates above: the coordinates of a record are the ones that its bytes spell, a locale is
//! the one that its text spells, a device is the one that its fields or its JSON text mean, with each
//! number in its range, and each is printed as the definition of its text says. What is compared of a
//! record and a device is one number at each coordinate, `compared_number` of both.
//!
//! ```text
//! let device = Device::read(alloc, b"{\"locale\":\"fr\",\"density\":160}")?;
//! let record = Record::read(bytes)?;
//! if !record.set_aside() && record.get(Coord::Density) <= device.get(Coord::Density) {
//!     record.write_qualifiers(&mut out)?; // [locale=fr,density=160]
//! }
//! ```
#![tactic(auto)]

mod coord;
mod device;
mod fields;
mod json;
mod qualifiers;
mod record;
mod separator;

pub use coord::{COORD_COUNT, Coord};
pub use device::Device;
pub use fields::{DeviceFault, Fields};
pub use locales::{
    DeviceLocale, Locale, LocaleFault, LocaleRule, RecordLocale, read_locale, write_locale,
};
pub use record::{Record, RecordFault};
