//! The id map of an overlay, and what it leaves out, as lines of JSON.

ghost use Rattle.std.specs.Prelude.{◌≡◌, ◌++◌, map, codes, IfOk, OnOk};
ghost use Rattle.std.specs.List.{flat_map};
ghost use Rattle.contract_words.specs.Writes.{Writes};
ghost use Rattle.serde_json.specs.Data.{put as with_member, object, no_members};
ghost use Rattle.serde_json.specs.View.{members_view};
ghost use Rattle.command_base.specs.overlay_map.IdMap.{pairs_of};
ghost use Rattle.command_base.specs.answer_text.type_chunks.Row.{row_of};
ghost use Rattle.command_base.specs.FirstRows.{first_row};
ghost use Rattle.command_base.specs.answer_text.overlay_map.Table.{rows_of};
ghost use Rattle.command_base.specs.AstraySeen.{astray_of};
ghost use Rattle.command_base.specs.MadeMap.{made_map};
ghost use Rattle.command_base.specs.MapText.{is_whole};
ghost use Rattle.command_base.specs.PairSeen.{pair_seen};
ghost use Rattle.resource_tool.specs.MapJson.{astray_json, map_json, pair_json, unmapped_json, with_first, with_name, with_row};

use command_base::{Astray, FirstRows, LeftRows, ResId, Row, Table, made_pairs};
use names::name_text;
use resource_text::{id_json, line_members, text_value, write_line};
use serde_json::{Map, Value, put};
use std::alloc::{AllocError, Global};
use std::io::{self, Write};

/// The lines of a map.
#[derive(Drop)]
pub(crate) struct MapLines {
    pub text: Vec<u8>,
    /// Whether it leaves out nothing.
    pub is_whole: bool,
}

/// A line for each pair of the map of an overlay, for each id that it leaves out, and for each reference that goes astray.
#[tactic(auto, unfolding(crate::specs::MapJson::map_json))]
pub(crate) fn map_json(
    alloc: Global,
    target: &Table<'_>,
    overlay: &Table<'_>,
) -> Result<MapLines, AllocError>
    ensures text { IfOk result (λ lines. lines.text.items ≡ map_json overlay.now (made_map target.now overlay.now)) }
    ensures whole { IfOk result (λ lines. lines.is_whole ≡ is_whole overlay.now (made_map target.now overlay.now)) }
{
    let pairs = made_pairs(alloc, target, overlay)?;
    let first = FirstRows::new(alloc, overlay)?;
    let left = LeftRows::of(alloc, &first, &pairs)?;
    let mut text = Vec::new(alloc);
    match write_lines(
        alloc,
        &first,
        &pairs,
        &left.unmapped,
        &left.astray,
        &mut text,
    ) {
        Ok(()) => Ok(MapLines {
            text,
            is_whole: left.is_none,
        }),
        // To a `Vec` only a want of memory is a fault.
        Err(_) => Err(AllocError),
    }
}

#[tactic(auto, using(contract_words::proofs::TextSteps::puts_slice))]
fn write_lines<W: Write + Drop>(
    alloc: Global,
    first: &FirstRows<'_, '_>,
    pairs: &[(ResId, ResId)],
    unmapped: &[Row<'_>],
    astray: &[Astray<'_>],
    out: &mut W,
) -> io::Result<()>
    ensures { Writes W.contents out.old out.new result (flat_map (pair_json first.now.table.now) (pairs_of pairs.now)
        ++ (flat_map (unmapped_json first.now.table.now) (map row_of unmapped.now)
        ++ flat_map (astray_json first.now.table.now) (map astray_of astray.now))) }
{
    for pair in pairs {
        write_pair(alloc, first, *pair, out)?;
    }
    for row in unmapped {
        write_unmapped(alloc, first.table, row, out)?;
    }
    for found in astray {
        write_astray(alloc, first.table, found, out)?;
    }
    Ok(())
}

#[tactic(auto, unfolding(crate::specs::MapJson::pair_json))]
fn write_pair<W: Write + Drop>(
    alloc: Global,
    first: &FirstRows<'_, '_>,
    pair: (ResId, ResId),
    out: &mut W,
) -> io::Result<()>
    ensures { Writes W.contents out.old out.new result (pair_json first.now.table.now (pair_seen pair)) }
{
    let (target, own) = pair;
    let mut members = line_members(alloc, "pair")?;
    put(&mut members, alloc, "target", id_json(alloc, target)?)?;
    put(&mut members, alloc, "own", id_json(alloc, own)?)?;
    put_first(alloc, first, own, &mut members)?;
    write_line(alloc, members, out)
}

// Puts the name of the first row of an id.
fn put_first(
    alloc: Global,
    first: &FirstRows<'_, '_>,
    id: ResId,
    members: &mut Map<String, Value>,
) -> Result<(), AllocError>
    ensures { OnOk result (members_view members.new.entries
        ≡ with_first first.now.table.now (first_row (rows_of first.now.table.now) id.0) (members_view members.old.entries)) }
{
    match first.get(id) {
        Some(row) => put_name(alloc, first.table, &row, members),
        None => Ok(()),
    }
}

#[tactic(auto, unfolding(crate::specs::MapJson::unmapped_json))]
fn write_unmapped<W: Write + Drop>(
    alloc: Global,
    overlay: &Table<'_>,
    row: &Row<'_>,
    out: &mut W,
) -> io::Result<()>
    ensures { Writes W.contents out.old out.new result (unmapped_json overlay.now (row_of row.now)) }
{
    let mut members = line_members(alloc, "unmapped")?;
    put_row(alloc, overlay, row, &mut members)?;
    write_line(alloc, members, out)
}

#[tactic(auto, unfolding(crate::specs::MapJson::astray_json))]
fn write_astray<W: Write + Drop>(
    alloc: Global,
    overlay: &Table<'_>,
    found: &Astray<'_>,
    out: &mut W,
) -> io::Result<()>
    ensures { Writes W.contents out.old out.new result (astray_json overlay.now (astray_of found.now)) }
{
    let mut members = line_members(alloc, "astray")?;
    put_end(alloc, overlay, "from", &found.from, &mut members)?;
    put_end(alloc, overlay, "to", &found.to, &mut members)?;
    write_line(alloc, members, out)
}

// Puts a row, at this name.
fn put_end(
    alloc: Global,
    overlay: &Table<'_>,
    at: &str,
    row: &Row<'_>,
    members: &mut Map<String, Value>,
) -> Result<(), AllocError>
    ensures { OnOk result (members_view members.new.entries
        ≡ with_member at.now (object (with_row overlay.now (row_of row.now) no_members)) (members_view members.old.entries)) }
{
    let mut end = Map::new(alloc);
    put_row(alloc, overlay, row, &mut end)?;
    put(members, alloc, at, Value::Object(end))
}

// Puts the id of a row, and its name.
#[tactic(auto, unfolding(crate::specs::MapJson::with_row))]
fn put_row(
    alloc: Global,
    overlay: &Table<'_>,
    row: &Row<'_>,
    members: &mut Map<String, Value>,
) -> Result<(), AllocError>
    ensures { OnOk result (members_view members.new.entries ≡ with_row overlay.now (row_of row.now) (members_view members.old.entries)) }
{
    put(members, alloc, "id", id_json(alloc, row.id)?)?;
    put_name(alloc, overlay, row, members)
}

// Puts the names of a row, where both are text.
#[tactic(auto, unfolding(crate::specs::MapJson::with_name))]
fn put_name(
    alloc: Global,
    overlay: &Table<'_>,
    row: &Row<'_>,
    members: &mut Map<String, Value>,
) -> Result<(), AllocError>
    ensures { OnOk result (members_view members.new.entries ≡ with_name overlay.now (row_of row.now) (members_view members.old.entries)) }
{
    let Some(type_name) = name_text(alloc, overlay.type_name(row))? else {
        return Ok(());
    };
    let Some(entry_name) = name_text(alloc, overlay.key_name(row))? else {
        return Ok(());
    };
    let name = joined_names(alloc, type_name.as_str(), entry_name.as_str())?;
    put(members, alloc, "name", text_value(alloc, &name)?)
}

// `TYPE/ENTRY`.
fn joined_names(alloc: Global, type_name: &str, entry_name: &str) -> Result<Vec<u8>, AllocError>
    ensures { IfOk result (λ text. text.items ≡ type_name.now ++ codes "/" ++ entry_name.now) }
{
    let mut text = Vec::new(alloc);
    text.extend_from_slice(type_name.as_bytes())?;
    text.push(b'/')?;
    text.extend_from_slice(entry_name.as_bytes())?;
    Ok(text)
}
