//! The parts of the line of a device, in the order of Android, with dashes between them.

ghost use Rattle.std.specs.Prelude.{◌≡◌, option_map, OnOk};
ghost use Rattle.std.specs.List.{flat_map};
ghost use Rattle.std.specs.Option.{option_to_list};
ghost use Rattle.contract_words.specs.Writes.{Writes};
ghost use Rattle.config_record.specs.DeviceSeen.{device_numbers};
ghost use Rattle.config_record.specs.locales.Locale.{dash};
ghost use Rattle.config_record.specs.locales.Text.{locale_text};
ghost use Rattle.notation.specs.Cut.{cut_at};
ghost use Rattle.notation.specs.Dashes.{WritesParts};
ghost use Rattle.notation.specs.LineParts.{is_said, number_part, is_short, locale_by, locale_part, size_part, version_part, line_parts_at, line_order, line_text};

use crate::cut::cut_at;
use crate::forms::form_for;
use crate::locale_parts::write_behind;
use crate::locale_word::{LONGEST, write_with_pluses};
use crate::number_word::write_number_word;
use crate::separator::write_separator;
use crate::words::word_for;
use arrayvec::ArrayVec;
use config_record::{Coord, Device, Locale, write_locale};
use std::io::{self, Write};

/// The order of the parts. With the width stands the height, with the version its minor part.
pub(crate) const PART_ORDER: [Coord; 23] = [
    Coord::Mcc,
    Coord::Mnc,
    Coord::Locale,
    Coord::LayoutDirection,
    Coord::SmallestWidthDp,
    Coord::WidthDp,
    Coord::HeightDp,
    Coord::ScreenSize,
    Coord::Long,
    Coord::Round,
    Coord::WideColor,
    Coord::Hdr,
    Coord::Orientation,
    Coord::UiType,
    Coord::Night,
    Coord::Density,
    Coord::Touchscreen,
    Coord::KeysHidden,
    Coord::Keyboard,
    Coord::NavHidden,
    Coord::Navigation,
    Coord::Width,
    Coord::Sdk,
];

/// Writes all that words say of a device.
#[tactic(auto, unfolding(crate::specs::LineParts::line_text, crate::specs::LineParts::line_order))]
pub(crate) fn write_line<W: Write + Drop>(device: &Device, out: &mut W) -> io::Result<()>
    ensures { Writes W.contents out.old out.new result (line_text (device_numbers device.now)) }
{
    let mut due = false;
    write_line_parts(device, &PART_ORDER, &mut due, out)
}

fn write_line_parts<W: Write + Drop>(
    device: &Device,
    coords: &[Coord],
    due: &mut bool,
    out: &mut W,
) -> io::Result<()>
    ensures { OnOk result (WritesParts due.old due.new (W.contents out.old) (W.contents out.new)
        (flat_map (line_parts_at (device_numbers device.now)) coords.now)) }
{
    for coord in coords {
        write_line_part(device, *coord, due, out)?;
    }
    Ok(())
}

#[tactic(auto, unfolding(crate::specs::LineParts::line_parts_at))]
fn write_line_part<W: Write + Drop>(
    device: &Device,
    coord: Coord,
    due: &mut bool,
    out: &mut W,
) -> io::Result<()>
    ensures { OnOk result (WritesParts due.old due.new (W.contents out.old) (W.contents out.new)
        (line_parts_at (device_numbers device.now) coord)) }
{
    match coord {
        Coord::Locale => write_locale_part(device.locale(), due, out),
        Coord::Width => write_size(
            device.get(Coord::Width),
            device.get(Coord::Height),
            due,
            out,
        ),
        Coord::Sdk => write_version(device.get(Coord::Sdk), device.get(Coord::Minor), due, out),
        _ => write_number_part(coord, device.get(coord), due, out),
    }
}

#[tactic(auto, unfolding(crate::specs::LineParts::number_part, config_record::specs::Separator::continued))]
fn write_number_part<W: Write + Drop>(
    coord: Coord,
    number: u32,
    due: &mut bool,
    out: &mut W,
) -> io::Result<()>
    ensures { OnOk result (WritesParts due.old due.new (W.contents out.old) (W.contents out.new)
        (number_part coord number)) }
{
    if number == 0 || !is_said(coord, number) {
        return Ok(());
    }
    write_separator(b'-', due, out)?;
    write_number_word(coord, number, out)
}

fn is_said(coord: Coord, number: u32) -> bool
    ensures { result ≡ is_said coord number }
{
    word_for(coord, number).is_some() || form_for(coord).is_some()
}

#[tactic(auto, unfolding(crate::specs::LineParts::locale_part, config_record::specs::Separator::continued))]
fn write_locale_part<W: Write + Drop>(locale: Locale, due: &mut bool, out: &mut W) -> io::Result<()>
    ensures { OnOk result (WritesParts due.old due.new (W.contents out.old) (W.contents out.new)
        (locale_part (locale_text locale))) }
{
    let mut text = ArrayVec::<u8, LONGEST>::new();
    write_locale(locale, &mut text)?;
    if text.is_empty() {
        return Ok(());
    }
    write_separator(b'-', due, out)?;
    write_locale_by(&text, out)
}

fn write_locale_by<W: Write + Drop>(text: &[u8], out: &mut W) -> io::Result<()>
    ensures { Writes W.contents out.old out.new result (locale_by text.now (cut_at dash text.now)) }
{
    let (language, others) = cut_at(b'-', text);
    if language.len() == 2 && is_short(others) {
        out.write_all(language)?;
        return write_behind(b"-r", others, out);
    }
    out.write_all(b"b+")?;
    write_with_pluses(text, out)
}

fn is_short(others: Option<&[u8]>) -> bool
    ensures { result ≡ is_short (option_map (λ others. others.now) others.entry) }
{
    match others {
        Some(others) => others.len() == 2,
        None => true,
    }
}

/// Writes `480x320`.
#[tactic(auto, unfolding(crate::specs::LineParts::size_part, config_record::specs::Separator::continued))]
pub(crate) fn write_size<W: Write + Drop>(
    width: u32,
    height: u32,
    due: &mut bool,
    out: &mut W,
) -> io::Result<()>
    ensures { OnOk result (WritesParts due.old due.new (W.contents out.old) (W.contents out.new)
        (option_to_list (size_part width height))) }
{
    if width == 0 && height == 0 {
        return Ok(());
    }
    write_separator(b'-', due, out)?;
    write!(out, "{width}x{height}")
}

/// Writes `v27`, or `v27.1`.
#[tactic(auto, unfolding(crate::specs::LineParts::version_part, config_record::specs::Separator::continued))]
pub(crate) fn write_version<W: Write + Drop>(
    sdk: u32,
    minor: u32,
    due: &mut bool,
    out: &mut W,
) -> io::Result<()>
    ensures { OnOk result (WritesParts due.old due.new (W.contents out.old) (W.contents out.new)
        (option_to_list (version_part sdk minor))) }
{
    if sdk == 0 && minor == 0 {
        return Ok(());
    }
    write_separator(b'-', due, out)?;
    if minor == 0 {
        write!(out, "v{sdk}")
    } else {
        write!(out, "v{sdk}.{minor}")
    }
}
