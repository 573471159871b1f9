//! Stored configurations, as the folders of their resources are called.

ghost use Rattle.std.specs.Prelude.{◌≡◌, ◌≢◌, ℕ, List, ◌∷◌, ◌++◌, [], true, if◌then◌else◌, codes, OnOk};
ghost use Rattle.std.specs.List.{flat_map};
ghost use Rattle.hex.specs.Hex.{IsBytes};
ghost use Rattle.contract_words.specs.Writes.{Writes};
ghost use Rattle.config_record.specs.locales.Locale.{dash};
ghost use Rattle.config_record.specs.Coord.{name_of};
ghost use Rattle.config_record.specs.Qualifiers.{qualifier};
ghost use Rattle.config_record.specs.Record.{record_bytes};
ghost use Rattle.notation.specs.Dashes.{WritesParts};
ghost use Rattle.notation.specs.SameConfig.{IsSameConfig};
ghost use Rattle.notation.specs.ConfigText.{number_parts, parts_at, config_parts, config_text};

use crate::line_parts::{PART_ORDER, write_size, write_version};
use crate::locale_parts::write_locale_parts;
use crate::number_word::write_number_word;
use crate::separator::write_separator;
use config_record::{Coord, Record};
use std::io::{self, Write};

/// Writes what is not zero, in the words of Android and in its order, with dashes between them; `(default)` where all is.
///
/// ```text
/// write_config(&record, &mut out)?; // fr-rCA-sw600dp-land-night-xhdpi-v13
/// ```
pub fn write_config<W: Write + Drop>(config: &Record<'_>, out: &mut W) -> io::Result<()>
    ensures text { Writes W.contents out.old out.new result (config_text (record_bytes config.now)) }

    // Two records with one text say the same.
    ensures tells { (one other : List ℕ) → IsBytes one → IsBytes other → config_text one ≡ config_text other → IsSameConfig one other }
{
    write_text(config, out)
}

#[tactic(auto, unfolding(crate::specs::ConfigText::config_text, crate::specs::ConfigText::config_parts, crate::specs::LineParts::line_order))]
fn write_text<W: Write + Drop>(config: &Record<'_>, out: &mut W) -> io::Result<()>
    ensures { Writes W.contents out.old out.new result (config_text (record_bytes config.now)) }
{
    let mut due = false;
    write_each(config, &PART_ORDER, &mut due, out)?;
    if due {
        return Ok(());
    }
    out.write_all(b"(default)")
}

fn write_each<W: Write + Drop>(
    config: &Record<'_>,
    coords: &[Coord],
    due: &mut bool,
    out: &mut W,
) -> io::Result<()>
    ensures { OnOk result (WritesParts due.old due.new (W.contents out.old) (W.contents out.new)
        (flat_map (parts_at (record_bytes config.now)) coords.now)) }
{
    for coord in coords {
        write_part(config, *coord, due, out)?;
    }
    Ok(())
}

#[tactic(auto, unfolding(crate::specs::ConfigText::parts_at))]
fn write_part<W: Write + Drop>(
    config: &Record<'_>,
    coord: Coord,
    due: &mut bool,
    out: &mut W,
) -> io::Result<()>
    ensures { OnOk result (WritesParts due.old due.new (W.contents out.old) (W.contents out.new)
        (parts_at (record_bytes config.now) coord)) }
{
    match coord {
        Coord::Locale => write_locale_parts(config, due, out),
        Coord::Width => write_size(
            config.get(Coord::Width),
            config.get(Coord::Height),
            due,
            out,
        ),
        Coord::Sdk => write_version(config.get(Coord::Sdk), config.get(Coord::Minor), due, out),
        _ => write_number(coord, config.get(coord), due, out),
    }
}

#[tactic(auto, unfolding(crate::specs::ConfigText::number_parts, config_record::specs::Separator::continued))]
fn write_number<W: Write + Drop>(
    coord: Coord,
    number: u32,
    due: &mut bool,
    out: &mut W,
) -> io::Result<()>
    ensures { OnOk result (WritesParts due.old due.new (W.contents out.old) (W.contents out.new)
        (number_parts coord number)) }
{
    if number == 0 {
        return Ok(());
    }
    write_separator(b'-', due, out)?;
    write_number_word(coord, number, out)
}
