//! What no part of a line says of its device.

ghost use Rattle.std.specs.Prelude.{◌≡◌, None, Ok};
ghost use Rattle.config_record.specs.DeviceSeen.{device_numbers};
ghost use Rattle.notation.specs.Config.{device_of_config_by};
ghost use Rattle.notation.specs.Line.{first_unlike, unsaid};

use crate::read::read_line;
use config_record::{Coord, Device, LocaleRule};
use std::fmt::{self, Debug, Display, Formatter};
use thiserror::Error;

/// Why there is no line of a device.
#[derive(Clone, Copy, Error)]
pub enum NoLine {
    /// What the device has at this coordinate no part can say. It is the first such one.
    #[error("NoWord {0}")]
    NoWord(Coord),
    #[error("OutOfMemory")]
    OutOfMemory,
}

/// By its text.
impl Debug for NoLine {
    fn fmt<W: fmt::Write>(&self, f: &mut Formatter<W>) -> fmt::Result {
        Display::fmt(self, f)
    }
}

/// The first coordinate at which a line reads otherwise than a device. Where it does not read at all, that is the locale.
pub(crate) fn unsaid(line: &[u8], device: Device, rule: LocaleRule) -> Option<Coord>
    ensures value { result ≡ unsaid (device_of_config_by rule line.now) (device_numbers device) }
    ensures all_said { result ≡ None → device_of_config_by rule line.now ≡ Ok (device_numbers device) }
{
    match read_line(line, rule) {
        Ok(read) => first_unlike(&Coord::ALL, &read, &device),
        Err(_) => Some(Coord::Locale),
    }
}

#[tactic(auto, unfolding(crate::specs::Line::first_unlike))]
fn first_unlike(coords: &[Coord], read: &Device, device: &Device) -> Option<Coord>
    ensures { result ≡ first_unlike coords.now (device_numbers read.now) (device_numbers device.now) }
{
    'coords: for coord in coords {
        if read.compared_number(*coord) != device.compared_number(*coord) {
            return Some(*coord);
        }
    }
    None
}
