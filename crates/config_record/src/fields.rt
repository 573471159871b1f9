//! What a device is asked to be, and the check of it, coordinate by coordinate.

ghost use Rattle.std.specs.Prelude.{◌≡◌, length, IfOk};
ghost use Rattle.json_input.specs.Each.{each};
ghost use Rattle.json_input.specs.Fault.{fault_of_text};
ghost use Rattle.config_record.specs.DeviceSeen.{filled};
ghost use Rattle.config_record.specs.Device.{density_in, locale_number_in, field_in, number_in};
ghost use Rattle.locales.specs.LocaleNumber.{locale_of_number};
ghost use Rattle.locales.specs.Text.{IsGiven};
ghost use Rattle.config_record.specs.declared.fields.DeviceFault.TheVariants.{Syntax, OutOfMemory};

use crate::coord::{COORD_COUNT, Coord};
use json_input::JsonFault;
use json_tokens::Malformed;
use locales::{Locale, LocaleFault};
use std::fmt::{self, Debug, Display, Formatter};
use thiserror::Error;

/// A number for each coordinate, in their order, and a locale, for `Device::check`. The number at the
/// place of the locale is not used.
#[derive(Clone, Copy)]
pub struct Fields {
    pub numbers: [u64; COORD_COUNT],
    pub locale: Locale,
}

/// Why no device was made. A text is first read, then its shape is looked at; then the coordinates are
/// checked in their order, and the first fault is named.
#[derive(Clone, Copy, Error)]
pub enum DeviceFault {
    /// The bytes are no JSON text that `serde_json` reads.
    #[error("Syntax")]
    Syntax,
    /// The value is no object, has a member that is no coordinate, or one that is no whole number of 64
    /// bits without a sign, or no text at the locale.
    #[error("Shape")]
    Shape,
    /// A number is above the greatest of its coordinate, or no text gives the locale.
    #[error("FieldRange {0}")]
    FieldRange(Coord),
    /// The locale is a region without a language.
    #[error("RegionAlone")]
    RegionAlone,
    /// The density is missing or not one of 1 to 32767.
    #[error("Density")]
    Density,
    #[error("OutOfMemory")]
    OutOfMemory,
}

/// By its text.
impl Debug for DeviceFault {
    fn fmt<W: fmt::Write>(&self, f: &mut Formatter<W>) -> fmt::Result {
        Display::fmt(self, f)
    }
}

impl From<JsonFault> for DeviceFault {
    ghost from_gives = { λ fault e. e ≡ fault_of_text Syntax OutOfMemory fault };

    fn from(fault: JsonFault) -> DeviceFault {
        match fault {
            JsonFault::Syntax => DeviceFault::Syntax,
            JsonFault::OutOfMemory => DeviceFault::OutOfMemory,
        }
    }
}

impl From<Malformed> for DeviceFault {
    ghost from_gives = { λ _ e. e ≡ Syntax };

    fn from(_malformed: Malformed) -> DeviceFault {
        DeviceFault::Syntax
    }
}

/// The numbers of a device at these coordinates, or the first fault; `locale` is the number at the locale, or
/// its fault.
#[tactic(auto, using(crate::proofs::FillSteps::fill_steps))]
pub(crate) fn fill_numbers(
    asked: &[u64; COORD_COUNT],
    locale: Result<u64, DeviceFault>,
    coords: &[Coord],
    numbers: &mut [u64],
) -> Result<(), DeviceFault>
    requires { length numbers.old ≡ length coords.now }
    ensures { filled result numbers.new ≡ each (number_in asked.now locale) coords.now }
{
    for (place, coord) in coords.iter().enumerate() {
        numbers[place] = number_in(asked, locale, *coord)?;
    }
    Ok(())
}

#[tactic(auto, unfolding(crate::specs::Device::number_in))]
fn number_in(
    asked: &[u64; COORD_COUNT],
    locale: Result<u64, DeviceFault>,
    coord: Coord,
) -> Result<u64, DeviceFault>
    ensures { result ≡ number_in asked.now locale coord }
{
    match coord {
        Coord::Locale => locale,
        Coord::Density => density_in(asked[coord.place()]),
        _ => field_in(coord, asked[coord.place()]),
    }
}

/// The number of a locale, or why there is none.
pub(crate) fn locale_number_in(locale: Result<Locale, LocaleFault>) -> Result<u64, DeviceFault>
    ensures value { result ≡ locale_number_in locale }
    ensures given { IfOk locale (λ locale. IsGiven locale) → IfOk result (λ number. IsGiven (locale_of_number number)) }
{
    match locale {
        Ok(locale) => Ok(locale.number()),
        Err(LocaleFault::RegionAlone) => Err(DeviceFault::RegionAlone),
        Err(LocaleFault::Malformed) => Err(DeviceFault::FieldRange(Coord::Locale)),
    }
}

fn density_in(density: u64) -> Result<u64, DeviceFault>
    ensures { result ≡ density_in density }
{
    if Coord::Density.is_outside(density) {
        return Err(DeviceFault::Density);
    }
    Ok(density)
}

fn field_in(coord: Coord, number: u64) -> Result<u64, DeviceFault>
    ensures { result ≡ field_in coord number }
{
    if coord.is_outside(number) {
        return Err(DeviceFault::FieldRange(coord));
    }
    Ok(number)
}
