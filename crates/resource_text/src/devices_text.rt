//! The devices of a part of a box, written.

ghost use Rattle.std.specs.Prelude.{◌≡◌};
ghost use Rattle.std.specs.List.{flat_map};
ghost use Rattle.std.specs.Fmt.{decimal};
ghost use Rattle.contract_words.specs.Writes.{Writes};
ghost use Rattle.stack_diff.specs.config_box.BoxSeen.{values_seen};
ghost use Rattle.stack_diff.specs.config_box.box_answers.NumberSet.{locale_numbers};
ghost use Rattle.stack_diff.specs.config_box.box_answers.Members.{set_at};
ghost use Rattle.stack_diff.specs.config_box.config_record.locales.LocaleNumber.{locale_number};
ghost use Rattle.resource_text.specs.DevicesText.{range_text, locale_value, next_value, listed, values_text, coord_text, narrower_text, devices_text, devices_in};

use answer_text::Form;
use locales::write_locale;
use notation::{is_narrower, is_narrower_at_one};
use stack_diff::{ConfigBox, Coord, Locale, Values};
use std::io::{self, Write};

/// Writes which devices a part of a box has, behind ` on`: what it has at the coordinates at which it has fewer numbers than the
/// whole. Where there is no such coordinate it writes nothing.
#[tactic(auto, unfolding(crate::specs::DevicesText::devices_in))]
pub(crate) fn write_devices_in<W: Write + Drop>(
    form: Form,
    whole: &ConfigBox,
    part: &ConfigBox,
    out: &mut W,
) -> io::Result<()>
    ensures { Writes W.contents out.old out.new result (devices_in form whole.now part.now) }
{
    match form {
        Form::Android => notation::write_devices(whole, part, out),
        Form::Raw => write_devices(whole, part, out),
    }
}

// ` on smallestWidthDp=320..599 orientation=2`
#[tactic(auto, unfolding(crate::specs::DevicesText::devices_text, crate::specs::Unfolded::all_coords))]
fn write_devices<W: Write + Drop>(
    whole: &ConfigBox,
    part: &ConfigBox,
    out: &mut W,
) -> io::Result<()>
    ensures { Writes W.contents out.old out.new result (devices_text whole.now part.now) }
{
    if !is_narrower_at_one(whole, part) {
        return Ok(());
    }
    out.write_all(b" on")?;
    write_narrower(whole, part, &Coord::ALL, out)
}

#[tactic(auto, using(contract_words::proofs::TextSteps::puts))]
fn write_narrower<W: Write + Drop>(
    whole: &ConfigBox,
    part: &ConfigBox,
    coords: &[Coord],
    out: &mut W,
) -> io::Result<()>
    ensures { Writes W.contents out.old out.new result (flat_map (narrower_text whole.now part.now) coords.now) }
{
    for coord in coords {
        write_if_narrower(whole, part, *coord, out)?;
    }
    Ok(())
}

#[tactic(auto, unfolding(crate::specs::DevicesText::narrower_text))]
fn write_if_narrower<W: Write + Drop>(
    whole: &ConfigBox,
    part: &ConfigBox,
    coord: Coord,
    out: &mut W,
) -> io::Result<()>
    ensures { Writes W.contents out.old out.new result (narrower_text whole.now part.now coord) }
{
    if is_narrower(whole, part, coord) {
        write_coord(part, coord, out)
    } else {
        Ok(())
    }
}

#[tactic(auto, unfolding(crate::specs::DevicesText::coord_text))]
fn write_coord<W: Write + Drop>(part: &ConfigBox, coord: Coord, out: &mut W) -> io::Result<()>
    ensures { Writes W.contents out.old out.new result (coord_text part.now coord) }
{
    out.write_all(b" ")?;
    out.write_all(coord.name().as_bytes())?;
    out.write_all(b"=")?;
    write_values(part.values(coord), out)
}

// ---- the values of a coordinate

#[tactic(auto, unfolding(crate::specs::DevicesText::values_text))]
fn write_values<W: Write + Drop>(values: Values<'_>, out: &mut W) -> io::Result<()>
    ensures { Writes W.contents out.old out.new result (values_text (values_seen values.entry)) }
{
    match values {
        Values::Range(low, high) => write_range(low, high, out),
        Values::Numbers(numbers) => write_numbers(numbers, out),
        Values::Locales(locales) => write_locales(locales, out),
    }
}

#[tactic(auto, unfolding(crate::specs::DevicesText::range_text))]
fn write_range<W: Write + Drop>(low: u32, high: u32, out: &mut W) -> io::Result<()>
    ensures { Writes W.contents out.old out.new result (range_text low high) }
{
    if low == high {
        write!(out, "{low}")
    } else {
        write!(out, "{low}..{high}")
    }
}

#[tactic(auto, unfolding(crate::specs::DevicesText::listed))]
fn write_numbers<W: Write + Drop>(numbers: &[u32], out: &mut W) -> io::Result<()>
    ensures { Writes W.contents out.old out.new result (listed decimal numbers.now) }
{
    let Some((first, others)) = numbers.split_first() else {
        return Ok(());
    };
    write!(out, "{first}")?;
    write_next_numbers(others, out)
}

#[tactic(auto, using(contract_words::proofs::TextSteps::puts))]
fn write_next_numbers<W: Write + Drop>(numbers: &[u32], out: &mut W) -> io::Result<()>
    ensures { Writes W.contents out.old out.new result (flat_map (next_value decimal) numbers.now) }
{
    for number in numbers {
        write_next_number(*number, out)?;
    }
    Ok(())
}

#[tactic(auto, unfolding(crate::specs::DevicesText::next_value))]
fn write_next_number<W: Write + Drop>(number: u32, out: &mut W) -> io::Result<()>
    ensures { Writes W.contents out.old out.new result (next_value decimal number) }
{
    write!(out, ",{number}")
}

#[tactic(auto, unfolding(crate::specs::DevicesText::listed))]
fn write_locales<W: Write + Drop>(locales: &[Locale], out: &mut W) -> io::Result<()>
    ensures { Writes W.contents out.old out.new result (listed locale_value (locale_numbers locales.now)) }
{
    let Some((first, others)) = locales.split_first() else {
        return Ok(());
    };
    write_locale_value(*first, out)?;
    write_next_locales(others, out)
}

#[tactic(auto, using(contract_words::proofs::TextSteps::puts_slice))]
fn write_next_locales<W: Write + Drop>(locales: &[Locale], out: &mut W) -> io::Result<()>
    ensures { Writes W.contents out.old out.new result (flat_map (next_value locale_value) (locale_numbers locales.now)) }
{
    for locale in locales {
        write_next_locale(*locale, out)?;
    }
    Ok(())
}

#[tactic(auto, unfolding(crate::specs::DevicesText::next_value))]
fn write_next_locale<W: Write + Drop>(locale: Locale, out: &mut W) -> io::Result<()>
    ensures { Writes W.contents out.old out.new result (next_value locale_value (locale_number locale)) }
{
    out.write_all(b",")?;
    write_locale_value(locale, out)
}

/// How many scripts there are to a language and a region.
const SCRIPTS: u64 = 0x1_0000_0000;

#[tactic(auto, unfolding(crate::specs::DevicesText::locale_value))]
fn write_locale_value<W: Write + Drop>(locale: Locale, out: &mut W) -> io::Result<()>
    ensures { Writes W.contents out.old out.new result (locale_value (locale_number locale)) }
{
    if locale.number() / SCRIPTS == 0 {
        out.write_all(b"none")
    } else {
        write_locale(locale, out)
    }
}
