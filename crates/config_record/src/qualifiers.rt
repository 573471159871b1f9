//! The qualifiers of a configuration, written as text. Records and devices have one writer, so this
//! method of both stands here, and not with its struct.

ghost use Rattle.std.specs.Prelude.{◌≤◌, length, OnOk};
ghost use Rattle.std.specs.List.{flat_map};
ghost use Rattle.locales.specs.contract_words.Writes.{Writes};
ghost use Rattle.config_record.specs.Record.{record_bytes, coordinate, locale_in};
ghost use Rattle.config_record.specs.Device.{device_coordinate, device_locale};
ghost use Rattle.config_record.specs.DeviceSeen.{device_numbers};
ghost use Rattle.config_record.specs.Separator.{Continues};
ghost use Rattle.config_record.specs.Qualifiers.{number_qualifier, locale_qualifier, bytes_qualifier, coordinate_qualifier, coordinate_qualifiers, record_text, device_text};

use crate::coord::Coord;
use crate::device::Device;
use crate::record::Record;
use crate::separator::Separator;
use locales::{Locale, is_zero, write_hex, write_locale};
use std::io::{self, Write};

impl Record<'_> {
    /// Writes what is not zero, between brackets: `[locale=fr,density=160]`.
    pub fn write_qualifiers<W: Write + Drop>(&self, out: &mut W) -> io::Result<()>
        ensures { Writes W.contents out.old out.new result (record_text (record_bytes self.now)) }
    {
        let mut comma = Separator::new(b',');
        out.write_all(b"[")?;
        write_coordinates(self, &mut comma, out)?;
        write_bytes("script", &self.script(), &mut comma, out)?;
        write_bytes("variant", &self.variant(), &mut comma, out)?;
        out.write_all(b"]")?;
        Ok(())
    }
}

impl Device {
    /// Writes what is not zero: `locale=fr density=160`.
    pub fn write_qualifiers<W: Write + Drop>(&self, out: &mut W) -> io::Result<()>
        ensures { Writes W.contents out.old out.new result (device_text (device_numbers self.now)) }
    {
        let mut space = Separator::new(b' ');
        write_coordinates(self, &mut space, out)?;
        Ok(())
    }
}

/// What has a number at each coordinate, and a locale.
pub(crate) trait Configuration {
    ghost use Rattle.std.specs.Prelude.{◌≡◌, ℕ};
    ghost use Rattle.config_record.specs.declared.coord.Coord.{Coord};
    ghost use Rattle.locales.specs.declared.locale.Locale.{Locale};

    ghost numbers: { Self → Coord → ℕ };

    ghost its_locale: { Self → Locale };

    fn number(&self, coord: Coord) -> u32
        ensures { result ≡ numbers self.now coord };

    fn locale(&self) -> Locale
        ensures { result ≡ its_locale self.now };
}

impl Configuration for Record<'_> {
    ghost numbers = { λ r. coordinate (record_bytes r) };

    ghost its_locale = { λ r. locale_in (record_bytes r) };

    fn number(&self, coord: Coord) -> u32 {
        self.get(coord)
    }

    fn locale(&self) -> Locale {
        Record::locale(self)
    }
}

impl Configuration for Device {
    ghost numbers = { λ d. device_coordinate (device_numbers d) };

    ghost its_locale = { λ d. device_locale (device_numbers d) };

    fn number(&self, coord: Coord) -> u32 {
        self.get(coord)
    }

    fn locale(&self) -> Locale {
        Device::locale(self)
    }
}

/// Writes `name=value` for each coordinate that is not zero, in their order.
#[tactic(auto, unfolding(crate::specs::Qualifiers::coordinate_qualifiers, crate::specs::Coord::all_coords))]
pub(crate) fn write_coordinates<C: Configuration, W: Write + Drop>(
    config: &C,
    separator: &mut Separator,
    out: &mut W,
) -> io::Result<()>
    ensures { OnOk result (Continues separator.old separator.new (W.contents out.old) (W.contents out.new)
        (coordinate_qualifiers (C.numbers config.now) (C.its_locale config.now))) }
{
    write_each(config, &Coord::ALL, separator, out)
}

#[tactic(auto, using(crate::proofs::SeparatorSteps::continues))]
fn write_each<C: Configuration, W: Write + Drop>(
    config: &C,
    coords: &[Coord],
    separator: &mut Separator,
    out: &mut W,
) -> io::Result<()>
    ensures { OnOk result (Continues separator.old separator.new (W.contents out.old) (W.contents out.new)
        (flat_map (coordinate_qualifier (C.numbers config.now) (C.its_locale config.now)) coords.now)) }
{
    for coord in coords {
        write_coordinate(config, *coord, separator, out)?;
    }
    Ok(())
}

#[tactic(auto, using(crate::proofs::QualifierLemmas::qualifier_lemmas), unfolding(crate::specs::Qualifiers::coordinate_qualifier))]
fn write_coordinate<C: Configuration, W: Write + Drop>(
    config: &C,
    coord: Coord,
    separator: &mut Separator,
    out: &mut W,
) -> io::Result<()>
    ensures { OnOk result (Continues separator.old separator.new (W.contents out.old) (W.contents out.new)
        (coordinate_qualifier (C.numbers config.now) (C.its_locale config.now) coord)) }
{
    match coord {
        Coord::Locale => write_its_locale(config.locale(), separator, out),
        _ => write_number(coord, config.number(coord), separator, out),
    }
}

#[tactic(auto, unfolding(crate::specs::Qualifiers::number_qualifier, crate::specs::Separator::continued))]
fn write_number<W: Write + Drop>(
    coord: Coord,
    number: u32,
    separator: &mut Separator,
    out: &mut W,
) -> io::Result<()>
    ensures { OnOk result (Continues separator.old separator.new (W.contents out.old) (W.contents out.new)
        (number_qualifier coord number)) }
{
    if number == 0 {
        return Ok(());
    }
    let name = coord.name();
    separator.write(out)?;
    write!(out, "{name}={number}")
}

#[tactic(auto, unfolding(crate::specs::Qualifiers::locale_qualifier, crate::specs::Separator::continued))]
fn write_its_locale<W: Write + Drop>(
    locale: Locale,
    separator: &mut Separator,
    out: &mut W,
) -> io::Result<()>
    ensures { OnOk result (Continues separator.old separator.new (W.contents out.old) (W.contents out.new)
        (locale_qualifier locale)) }
{
    if is_zero(&locale.language) && is_zero(&locale.region) {
        return Ok(());
    }
    let name = Coord::Locale.name();
    separator.write(out)?;
    write!(out, "{name}=")?;
    write_locale(locale, out)
}

#[tactic(auto, unfolding(crate::specs::Qualifiers::bytes_qualifier, crate::specs::Separator::continued))]
fn write_bytes<W: Write + Drop>(
    name: &str,
    bytes: &[u8],
    separator: &mut Separator,
    out: &mut W,
) -> io::Result<()>
    requires { length bytes.now ≤ 8 }
    ensures { OnOk result (Continues separator.old separator.new (W.contents out.old) (W.contents out.new)
        (bytes_qualifier name.now bytes.now)) }
{
    if is_zero(bytes) {
        return Ok(());
    }
    separator.write(out)?;
    write!(out, "{name}=")?;
    write_hex(bytes, out)
}
