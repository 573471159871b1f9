//! What a survey found, as lines of JSON.

ghost use Rattle.std.specs.Prelude.{◌≡◌, codes, map, string_bytes, IfOk, OnOk};
ghost use Rattle.contract_words.specs.Writes.{Writes};
ghost use Rattle.serde_json.specs.Data.{put as with_member};
ghost use Rattle.serde_json.specs.View.{view, members_view};
ghost use Rattle.resource_tool.specs.SurveyJson.{found_json, from_data, lacks_json, qualifier_json, refused_json, said_data, shared_json, site_data, with_site};

use crate::survey::finding::Finding;
use crate::survey::findings::Tally;
use crate::survey::qualifiers::Spread;
use crate::survey::site::Site;
use command_base::{Coord, Locale, SharedNames, ToolFault, write_table_fault};
use resource_text::{id_json, line_members, locale_json, put_layer, text_value, write_line};
use serde_json::{Map, Value, put};
use std::alloc::{AllocError, Global};
use std::io::{self, Write};

/// Writes the line of a finding of a layer.
#[tactic(auto, unfolding(crate::specs::SurveyJson::found_json))]
pub(crate) fn write_found_json<W: Write + Drop>(
    alloc: Global,
    paths: &[String],
    layer: usize,
    finding: Finding,
    tally: Tally,
    out: &mut W,
) -> io::Result<()>
    ensures { Writes W.contents out.old out.new result (found_json (map string_bytes paths.now) layer finding tally) }
{
    let mut members = line_members(alloc, "finding")?;
    put(&mut members, alloc, "count", Value::from(tally.count))?;
    let name = Value::try_from_str(alloc, finding.name())?;
    put(&mut members, alloc, "finding", name)?;
    put_site(alloc, tally.first, &mut members)?;
    put_from(alloc, paths, layer, &mut members)?;
    put(
        &mut members,
        alloc,
        "warning",
        Value::from(finding.differs()),
    )?;
    write_line(alloc, members, out)
}

// Puts where the first is.
fn put_site(alloc: Global, site: Site, members: &mut Map<String, Value>) -> Result<(), AllocError>
    ensures { OnOk result (members_view members.new.entries ≡ with_member (codes "first") (site_data site) (members_view members.old.entries)) }
{
    let mut first = Map::new(alloc);
    put_place(alloc, site, &mut first)?;
    put(members, alloc, "first", Value::Object(first))
}

// Puts the place of a chunk, or the id of a row.
#[tactic(auto, unfolding(crate::specs::SurveyJson::with_site))]
fn put_place(alloc: Global, site: Site, members: &mut Map<String, Value>) -> Result<(), AllocError>
    ensures { OnOk result (members_view members.new.entries ≡ with_site site (members_view members.old.entries)) }
{
    match site {
        Site::Chunk(place) => put(members, alloc, "place", Value::from(place)),
        Site::Row(id) => put(members, alloc, "id", id_json(alloc, id)?),
    }
}

// Puts the layer at a place, with the path of its table.
fn put_from(
    alloc: Global,
    paths: &[String],
    layer: usize,
    members: &mut Map<String, Value>,
) -> Result<(), AllocError>
    ensures { OnOk result (members_view members.new.entries
        ≡ with_member (codes "from") (from_data (map string_bytes paths.now) layer) (members_view members.old.entries)) }
{
    let mut from = Map::new(alloc);
    put_layer(alloc, paths, layer, &mut from)?;
    put(members, alloc, "from", Value::Object(from))
}

/// Writes the line of the ids whose names stand for others.
#[tactic(auto, unfolding(crate::specs::SurveyJson::shared_json))]
pub(crate) fn write_shared_json<W: Write + Drop>(
    alloc: Global,
    shared: SharedNames,
    out: &mut W,
) -> io::Result<()>
    ensures { Writes W.contents out.old out.new result (shared_json shared) }
{
    let mut members = line_members(alloc, "shared-names")?;
    put(&mut members, alloc, "count", Value::from(shared.count))?;
    put_site(alloc, Site::Row(shared.first), &mut members)?;
    put(&mut members, alloc, "warning", Value::from(true))?;
    write_line(alloc, members, out)
}

/// Writes the line of a qualifier that rows have.
#[tactic(auto, unfolding(crate::specs::SurveyJson::qualifier_json))]
pub(crate) fn write_qualifier_json<W: Write + Drop>(
    alloc: Global,
    coord: Coord,
    spread: Spread,
    out: &mut W,
) -> io::Result<()>
    ensures { Writes W.contents out.old out.new result (qualifier_json coord spread) }
{
    let mut members = line_members(alloc, "qualifier")?;
    let name = Value::try_from_str(alloc, coord.name())?;
    put(&mut members, alloc, "qualifier", name)?;
    put(&mut members, alloc, "rows", Value::from(spread.count))?;
    let least = said_json(alloc, coord, spread.least)?;
    put(&mut members, alloc, "least", least)?;
    let greatest = said_json(alloc, coord, spread.greatest)?;
    put(&mut members, alloc, "greatest", greatest)?;
    write_line(alloc, members, out)
}

// A number of a coordinate; that of a locale is its text.
#[tactic(auto, unfolding(crate::specs::SurveyJson::said_data))]
fn said_json(alloc: Global, coord: Coord, number: u64) -> Result<Value, AllocError>
    ensures { IfOk result (λ json. view json ≡ said_data coord number) }
{
    match coord {
        Coord::Locale => locale_json(alloc, Locale::of_number(number)),
        _ => Ok(Value::from(number)),
    }
}

/// Writes the line of a qualifier that the box lacks.
#[tactic(auto, unfolding(crate::specs::SurveyJson::lacks_json))]
pub(crate) fn write_lacks_json<W: Write + Drop>(
    alloc: Global,
    coord: Coord,
    out: &mut W,
) -> io::Result<()>
    ensures { Writes W.contents out.old out.new result (lacks_json coord) }
{
    let mut members = line_members(alloc, "lacks")?;
    let name = Value::try_from_str(alloc, coord.name())?;
    put(&mut members, alloc, "qualifier", name)?;
    put(&mut members, alloc, "warning", Value::from(true))?;
    write_line(alloc, members, out)
}

/// Writes the line of the table of a layer that is refused; of another fault there is none.
#[tactic(auto, unfolding(crate::specs::SurveyJson::refused_json))]
pub(crate) fn write_refused_json<W: Write + Drop>(
    alloc: Global,
    paths: &[String],
    fault: &ToolFault,
    out: &mut W,
) -> io::Result<()>
    ensures { Writes W.contents out.old out.new result (refused_json (map string_bytes paths.now) fault.now) }
{
    let ToolFault::LayerTable(layer, fault) = fault else {
        return Ok(());
    };
    let mut text = Vec::new(alloc);
    write_table_fault(*fault, &mut text)?;
    let mut members = line_members(alloc, "refused")?;
    put(&mut members, alloc, "fault", text_value(alloc, &text)?)?;
    put_from(alloc, paths, *layer, &mut members)?;
    write_line(alloc, members, out)
}
