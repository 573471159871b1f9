//! What is printed of an id map.

ghost use Rattle.std.specs.Prelude.{◌++◌, map, OnOk};
ghost use Rattle.std.specs.List.{All, flat_map};
ghost use Rattle.contract_words.specs.Writes.{Writes};
ghost use Rattle.command_base.specs.overlay_map.IdMap.{pairs_of};
ghost use Rattle.command_base.specs.answer_text.type_chunks.Row.{row_of};
ghost use Rattle.command_base.specs.AstraySeen.{astray_of};
ghost use Rattle.command_base.specs.MapText.{pair_text, next_pair_text, map_text, named_text, unmapped_line, astray_line, left_lines};
ghost use Rattle.command_base.specs.PairSeen.{IdsReadBack, pair_seen};

use crate::astray::Astray;
use answer_text::{ResId, Row, Table, write_id, write_string};
use std::io::{self, Write};

/// Writes a map as a JSON list, with a line for each pair.
#[tactic(auto, unfolding(crate::specs::MapText::map_text))]
pub(crate) fn write_map<W: Write + Drop>(pairs: &[(ResId, ResId)], out: &mut W) -> io::Result<()>
    ensures { Writes W.contents out.old out.new result (map_text (pairs_of pairs.now)) × OnOk result (All IdsReadBack pairs.now) }
{
    let Some((first, others)) = pairs.split_first() else {
        return out.write_all(b"[]\n");
    };
    write_pair(b"[", *first, out)?;
    write_others(others, out)?;
    out.write_all(b"]\n")
}

#[tactic(auto, using(contract_words::proofs::TextSteps::puts_slice))]
fn write_others<W: Write + Drop>(pairs: &[(ResId, ResId)], out: &mut W) -> io::Result<()>
    ensures { Writes W.contents out.old out.new result (flat_map next_pair_text (pairs_of pairs.now)) × OnOk result (All IdsReadBack pairs.now) }
{
    for pair in pairs {
        write_pair(b",\n ", *pair, out)?;
    }
    Ok(())
}

// Writes a pair, and what stands before it.
#[tactic(auto, unfolding(crate::specs::MapText::pair_text))]
fn write_pair<W: Write + Drop>(before: &[u8], pair: (ResId, ResId), out: &mut W) -> io::Result<()>
    ensures { Writes W.contents out.old out.new result (before.now ++ pair_text (pair_seen pair)) × OnOk result (IdsReadBack pair) }
{
    let (target, own) = pair;
    out.write_all(before)?;
    out.write_all(b"[\"")?;
    write_id(target, out)?;
    out.write_all(b"\",\"")?;
    write_id(own, out)?;
    out.write_all(b"\"]")
}

/// Writes a line for each row of an overlay that stands for no target, and one for each reference that goes astray, and
/// something before each line.
#[tactic(auto, using(contract_words::proofs::TextSteps::puts_slice))]
pub(crate) fn write_left<W: Write + Drop>(
    before: &[u8],
    overlay: &Table<'_>,
    unmapped: &[Row<'_>],
    astray: &[Astray<'_>],
    out: &mut W,
) -> io::Result<()>
    ensures { Writes W.contents out.old out.new result
        (left_lines before.now overlay.now (map row_of unmapped.now) (map astray_of astray.now)) }
{
    for row in unmapped {
        write_unmapped(before, overlay, row, out)?;
    }
    for found in astray {
        write_astray(before, overlay, found, out)?;
    }
    Ok(())
}

#[tactic(auto, unfolding(crate::specs::MapText::unmapped_line))]
fn write_unmapped<W: Write + Drop>(
    before: &[u8],
    overlay: &Table<'_>,
    row: &Row<'_>,
    out: &mut W,
) -> io::Result<()>
    ensures { Writes W.contents out.old out.new result (unmapped_line before.now overlay.now (row_of row.now)) }
{
    out.write_all(before)?;
    out.write_all(b"unmapped ")?;
    write_named(overlay, row, out)?;
    out.write_all(b"\n")
}

#[tactic(auto, unfolding(crate::specs::MapText::astray_line))]
fn write_astray<W: Write + Drop>(
    before: &[u8],
    overlay: &Table<'_>,
    found: &Astray<'_>,
    out: &mut W,
) -> io::Result<()>
    ensures { Writes W.contents out.old out.new result (astray_line before.now overlay.now (astray_of found.now)) }
{
    out.write_all(before)?;
    out.write_all(b"astray ")?;
    write_named(overlay, &found.from, out)?;
    out.write_all(b" to ")?;
    write_named(overlay, &found.to, out)?;
    out.write_all(b"\n")
}

#[tactic(auto, unfolding(crate::specs::MapText::named_text, crate::specs::Unfolded::names_text))]
fn write_named<W: Write + Drop>(table: &Table<'_>, row: &Row<'_>, out: &mut W) -> io::Result<()>
    ensures { Writes W.contents out.old out.new result (named_text table.now (row_of row.now)) }
{
    write_id(row.id, out)?;
    out.write_all(b" ")?;
    write_string(table.type_name(row), out)?;
    out.write_all(b"/")?;
    write_string(table.key_name(row), out)
}
