//! What a survey found, as text.

ghost use Rattle.contract_words.specs.Writes.{Writes};
ghost use Rattle.resource_tool.specs.SurveyText.{site_text, weight_text, tally_text, found_line, shared_line, range_text, number_text, qualifier_line, lacks_line};

use crate::survey::finding::Finding;
use crate::survey::findings::Tally;
use crate::survey::qualifiers::Spread;
use crate::survey::site::Site;
use answer_text::{write_id, write_layer, write_named_coord, write_named_number};
use command_base::{Coord, Locale, SharedNames};
use locales::write_locale;
use std::io::{self, Write};

/// Writes the line of a finding of a layer.
#[tactic(auto, unfolding(crate::specs::SurveyText::found_line))]
pub(crate) fn write_found<W: Write + Drop>(
    layer: usize,
    finding: Finding,
    tally: Tally,
    out: &mut W,
) -> io::Result<()>
    ensures { Writes W.contents out.old out.new result (found_line layer finding tally) }
{
    write_weight(finding, out)?;
    write_layer(layer, out)?;
    out.write_all(b" ")?;
    write_tally(finding, tally, out)?;
    out.write_all(b"\n")
}

#[tactic(auto, unfolding(crate::specs::SurveyText::weight_text))]
fn write_weight<W: Write + Drop>(finding: Finding, out: &mut W) -> io::Result<()>
    ensures { Writes W.contents out.old out.new result (weight_text finding) }
{
    if finding.differs() {
        out.write_all(b"warning ")
    } else {
        out.write_all(b"note ")
    }
}

#[tactic(auto, unfolding(crate::specs::SurveyText::tally_text))]
fn write_tally<W: Write + Drop>(finding: Finding, tally: Tally, out: &mut W) -> io::Result<()>
    ensures { Writes W.contents out.old out.new result (tally_text finding tally) }
{
    write_named_number(finding.name(), u128::from(tally.count), out)?;
    out.write_all(b" first ")?;
    write_site(tally.first, out)
}

#[tactic(auto, unfolding(crate::specs::SurveyText::site_text))]
fn write_site<W: Write + Drop>(site: Site, out: &mut W) -> io::Result<()>
    ensures { Writes W.contents out.old out.new result (site_text site) }
{
    match site {
        Site::Chunk(place) => write!(out, "{place}"),
        Site::Row(id) => write_id(id, out),
    }
}

/// Writes the line of the ids whose names stand for others.
#[tactic(auto, unfolding(crate::specs::SurveyText::shared_line))]
pub(crate) fn write_shared<W: Write + Drop>(shared: SharedNames, out: &mut W) -> io::Result<()>
    ensures { Writes W.contents out.old out.new result (shared_line shared) }
{
    write_named_number("warning shared-names", shared.count as u128, out)?;
    out.write_all(b" first ")?;
    write_id(shared.first, out)?;
    out.write_all(b"\n")
}

/// Writes the line of a qualifier that rows have.
#[tactic(auto, unfolding(crate::specs::SurveyText::qualifier_line))]
pub(crate) fn write_qualifier<W: Write + Drop>(
    coord: Coord,
    spread: Spread,
    out: &mut W,
) -> io::Result<()>
    ensures { Writes W.contents out.old out.new result (qualifier_line coord spread) }
{
    write_named_coord("qualifier", coord, out)?;
    write_named_number(" rows", u128::from(spread.count), out)?;
    write_range(coord, spread, out)?;
    out.write_all(b"\n")
}

#[tactic(auto, unfolding(crate::specs::SurveyText::range_text))]
fn write_range<W: Write + Drop>(coord: Coord, spread: Spread, out: &mut W) -> io::Result<()>
    ensures { Writes W.contents out.old out.new result (range_text coord spread) }
{
    out.write_all(b" from ")?;
    write_number(coord, spread.least, out)?;
    out.write_all(b" to ")?;
    write_number(coord, spread.greatest, out)
}

#[tactic(auto, unfolding(crate::specs::SurveyText::number_text))]
fn write_number<W: Write + Drop>(coord: Coord, number: u64, out: &mut W) -> io::Result<()>
    ensures { Writes W.contents out.old out.new result (number_text coord number) }
{
    match coord {
        Coord::Locale => write_locale(Locale::of_number(number), out),
        _ => write!(out, "{number}"),
    }
}

/// Writes the line of a qualifier that the box lacks.
#[tactic(auto, unfolding(crate::specs::SurveyText::lacks_line))]
pub(crate) fn write_lacks<W: Write + Drop>(coord: Coord, out: &mut W) -> io::Result<()>
    ensures { Writes W.contents out.old out.new result (lacks_line coord) }
{
    writeln!(out, "warning box lacks {coord}")
}
