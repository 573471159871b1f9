//! The devices of a part of a box.

ghost use Rattle.std.specs.Prelude.{◌≡◌};
ghost use Rattle.std.specs.List.{flat_map};
ghost use Rattle.contract_words.specs.Writes.{Writes};
ghost use Rattle.notation.specs.DevicesLaw.{DevicesAreNamed, SetsAreTold};
ghost use Rattle.notation.specs.DevicesNotation.{narrower_text, both_text, devices_text};

use crate::line_parts::PART_ORDER;
use crate::narrower::{is_narrower, is_narrower_at_one};
use crate::set_text::write_set;
use config_box::{ConfigBox, Coord};
use std::io::{self, Write};

/// Writes which devices a part of a box has: at each coordinate at which it has fewer numbers than the whole, in Android's
/// words, which, behind ` on`. Where there is no such coordinate it writes nothing.
///
/// ```text
/// write_devices(&phones, &small, &mut out)?; //  on es-rMX,es-rUS sw<600dp land
/// ```
pub fn write_devices<W: Write + Drop>(
    whole: &ConfigBox,
    part: &ConfigBox,
    out: &mut W,
) -> io::Result<()>
    ensures text { Writes W.contents out.old out.new result (devices_text whole.now part.now) }

    // The devices of a part are those of the whole that have its numbers at these coordinates: what is left out is no less in the
    // part than in the whole.
    ensures named { DevicesAreNamed }

    // And what is written of each of them tells its numbers.
    ensures told { SetsAreTold }
{
    write_text(whole, part, out)
}

#[tactic(auto, unfolding(crate::specs::DevicesNotation::devices_text, crate::specs::LineParts::line_order))]
fn write_text<W: Write + Drop>(whole: &ConfigBox, part: &ConfigBox, out: &mut W) -> io::Result<()>
    ensures { Writes W.contents out.old out.new result (devices_text whole.now part.now) }
{
    if !is_narrower_at_one(whole, part) {
        return Ok(());
    }
    out.write_all(b" on")?;
    write_each(whole, part, &PART_ORDER, out)
}

#[tactic(auto, using(contract_words::proofs::TextSteps::puts))]
fn write_each<W: Write + Drop>(
    whole: &ConfigBox,
    part: &ConfigBox,
    coords: &[Coord],
    out: &mut W,
) -> io::Result<()>
    ensures { Writes W.contents out.old out.new result (flat_map (both_text whole.now part.now) coords.now) }
{
    for coord in coords {
        write_both(whole, part, *coord, out)?;
    }
    Ok(())
}

// Of a coordinate, and of the one that stands with it.
#[tactic(auto, unfolding(crate::specs::DevicesNotation::both_text))]
fn write_both<W: Write + Drop>(
    whole: &ConfigBox,
    part: &ConfigBox,
    coord: Coord,
    out: &mut W,
) -> io::Result<()>
    ensures { Writes W.contents out.old out.new result (both_text whole.now part.now coord) }
{
    write_if_narrower(whole, part, coord, out)?;
    match coord {
        Coord::Width => write_if_narrower(whole, part, Coord::Height, out),
        Coord::Sdk => write_if_narrower(whole, part, Coord::Minor, out),
        _ => Ok(()),
    }
}

#[tactic(auto, unfolding(crate::specs::DevicesNotation::narrower_text))]
fn write_if_narrower<W: Write + Drop>(
    whole: &ConfigBox,
    part: &ConfigBox,
    coord: Coord,
    out: &mut W,
) -> io::Result<()>
    ensures { Writes W.contents out.old out.new result (narrower_text whole.now part.now coord) }
{
    if !is_narrower(whole, part, coord) {
        return Ok(());
    }
    out.write_all(b" ")?;
    write_set(coord, whole.values(coord), part.values(coord), out)
}
