//! The id map of an overlay, made from the names of its resources.

ghost use Rattle.std.specs.Prelude.{◌≡◌, map, IfOk};
ghost use Rattle.std.specs.List.{All};
ghost use Rattle.contract_words.specs.Exact.{GivesOr};
ghost use Rattle.command_base.specs.answer_text.type_chunks.Row.{row_of};
ghost use Rattle.command_base.specs.overlay_map.IdMap.{pairs_of};
ghost use Rattle.command_base.specs.AstraySeen.{astray_of};
ghost use Rattle.command_base.specs.declared.fault.ToolFault.TheVariants.{OutOfMemory};
ghost use Rattle.command_base.specs.MadeMap.{astray, made_map, unmapped};
ghost use Rattle.command_base.specs.MadeOver.{made_of, made_over};
ghost use Rattle.command_base.specs.MapText.{ReadsBack, is_whole, left_lines, lines_of_left, lines_with, map_text};
ghost use Rattle.command_base.specs.PairSeen.{IdsReadBack};

use crate::astray::{Astray, astray_references};
use crate::fault::ToolFault;
use crate::first_rows::FirstRows;
use crate::map_text::{write_left, write_map};
use crate::mapped_ids::MappedIds;
use crate::pairs::made_pairs;
use crate::stack::open_table;
use crate::unmapped::unmapped_rows;
use answer_text::{ResId, Row, Table};
use std::alloc::{AllocError, Global};

/// The id map of an overlay: each id of the target, and the overlay's id of the same names (AOSP: `ResTable::createIdmap`).
#[derive(Drop)]
pub struct MadeMap {
    /// Its JSON text, which is read as that map.
    pub json: Vec<u8>,
    /// A line for each id of the overlay that stands for no target, and one for each of its references to an id of its own
    /// that does not lead there.
    pub left: Vec<u8>,
    /// Whether there is no such id and no such reference.
    pub is_whole: bool,
}

impl MadeMap {
    pub fn of(alloc: Global, target: &Table<'_>, overlay: &Table<'_>) -> Result<MadeMap, AllocError>
        ensures json { IfOk result (λ made. made.json.items ≡ map_text (made_map target.now overlay.now)) }
        ensures left { IfOk result (λ made. made.left.items ≡ lines_of_left overlay.now (made_map target.now overlay.now)) }
        ensures whole { IfOk result (λ made. made.is_whole ≡ is_whole overlay.now (made_map target.now overlay.now)) }
        ensures reads_back { IfOk result (λ _. ReadsBack (made_map target.now overlay.now)) }
    {
        MadeMap::with_lines(alloc, b"", target, overlay)
    }

    /// The same of an overlay over its base, which stand at these places, from the bytes of their tables, with something before
    /// each line.
    pub(crate) fn over(
        alloc: Global,
        before: &[u8],
        base: usize,
        target: &[u8],
        place: usize,
        overlay: &[u8],
    ) -> Result<MadeMap, ToolFault>
        ensures { GivesOr OutOfMemory made_of result (made_over before.now base target.now place overlay.now) }
    {
        let target = open_table(alloc, base, target)?;
        let overlay = open_table(alloc, place, overlay)?;
        let made = MadeMap::with_lines(alloc, before, &target, &overlay)?;
        Ok(made)
    }

    // The same of tables that are open.
    fn with_lines(
        alloc: Global,
        before: &[u8],
        target: &Table<'_>,
        overlay: &Table<'_>,
    ) -> Result<MadeMap, AllocError>
        ensures { IfOk result (λ made. (made.json.items ≡ map_text (made_map target.now overlay.now))
            × (made.left.items ≡ lines_with before.now overlay.now (made_map target.now overlay.now))
            × (made.is_whole ≡ is_whole overlay.now (made_map target.now overlay.now))
            × ReadsBack (made_map target.now overlay.now)) }
    {
        let pairs = made_pairs(alloc, target, overlay)?;
        let json = json_text(alloc, &pairs)?;
        let first = FirstRows::new(alloc, overlay)?;
        let left = LeftRows::of(alloc, &first, &pairs)?;
        let lines = left_text(alloc, before, overlay, &left.unmapped, &left.astray)?;
        Ok(MadeMap {
            json,
            left: lines,
            is_whole: left.is_none,
        })
    }
}

/// What a map leaves out of its overlay.
#[derive(Drop)]
pub struct LeftRows<'a> {
    /// The first row of each id that stands for no target, in the order of the ids.
    pub unmapped: Vec<Row<'a>>,
    /// The references that go astray, in the order of the file.
    pub astray: Vec<Astray<'a>>,
    /// Whether there are neither.
    pub is_none: bool,
}

impl<'a> LeftRows<'a> {
    /// What these pairs leave out of an overlay that has these first rows.
    pub fn of(
        alloc: Global,
        first: &FirstRows<'_, 'a>,
        pairs: &[(ResId, ResId)],
    ) -> Result<LeftRows<'a>, AllocError>
        ensures { IfOk result (λ left. (map row_of left.unmapped.items ≡ unmapped first.now.table.now (pairs_of pairs.now))
            × (map astray_of left.astray.items ≡ astray first.now.table.now (pairs_of pairs.now))
            × (left.is_none ≡ is_whole first.now.table.now (pairs_of pairs.now))) }
    {
        let mapped = MappedIds::new(alloc, pairs)?;
        let unmapped = unmapped_rows(alloc, first, &mapped)?;
        let astray = astray_references(alloc, first, &mapped)?;
        Ok(LeftRows {
            is_none: unmapped.is_empty() && astray.is_empty(),
            unmapped,
            astray,
        })
    }
}

fn json_text(alloc: Global, pairs: &[(ResId, ResId)]) -> Result<Vec<u8>, AllocError>
    ensures text { IfOk result (λ text. text.items ≡ map_text (pairs_of pairs.now)) }
    ensures reads_back { IfOk result (λ _. All IdsReadBack pairs.now) }
{
    let mut text = Vec::new(alloc);
    match write_map(pairs, &mut text) {
        Ok(()) => Ok(text),
        // To a `Vec` only a want of memory is a fault.
        Err(_) => Err(AllocError),
    }
}

fn left_text(
    alloc: Global,
    before: &[u8],
    overlay: &Table<'_>,
    unmapped: &[Row<'_>],
    astray: &[Astray<'_>],
) -> Result<Vec<u8>, AllocError>
    ensures { IfOk result (λ text. text.items ≡ left_lines before.now overlay.now (map row_of unmapped.now) (map astray_of astray.now)) }
{
    let mut text = Vec::new(alloc);
    match write_left(before, overlay, unmapped, astray, &mut text) {
        Ok(()) => Ok(text),
        Err(_) => Err(AllocError),
    }
}
