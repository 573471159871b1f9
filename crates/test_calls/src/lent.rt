//! What is lent from the bytes of the input: it outlives the table and the stack that gave it. Each function that lends it
//! ends what it is lent from.

use crate::layers::{Malformed, push_base, push_overlay};
use crate::marked::{bytes_of, tell, word};
use cert_checker::{Coord, ResId, Stack};
use overlay_map::{Row, Table};
use res_value::Cell;
use std::alloc::Global;
use std::test::Fail;
use string_pool::Text;

/// The resource of entry 0.
const FIRST: ResId = ResId(0x7f01_0000);

/// Makes the call that the first word names, of the other words.
pub fn call(rt: &HostRuntime, words: &[String]) -> Result<(), Fail> {
    let bytes = bytes_of(rt.alloc(), word(words, 1))?;
    let more = bytes_of(rt.alloc(), word(words, 2))?;
    match word(words, 0) {
        "Table::all_rows" => tell_parts(rt, &bytes),
        _ => tell_candidates(rt, &bytes, &more, word(words, 3)),
    }
}

// Tells the first row of a table with its API level, the rows of its bag, and the table's first string.
fn tell_parts(rt: &HostRuntime, bytes: &[u8]) -> Result<(), Fail> {
    let (row, text) = parts_of(rt.alloc(), bytes).ok_or(Malformed)?;
    tell(rt, (row.id, row.config.get(Coord::Sdk)));
    if let Cell::Bag { rows, .. } = row.cell {
        for named in rows {
            tell(rt, named);
        }
    }
    tell(rt, text);
    Ok(())
}

fn parts_of(alloc: Global, bytes: &[u8]) -> Option<(Row<'_>, Text<'_>)> {
    let table = Table::open(alloc, bytes).ok()?;
    let row = table.all_rows().next()?;
    let text = table.strings().get(0).ok()?;
    Some((row, text))
}

// Tells what the candidates of a base and of an overlay hold, which are two inputs.
fn tell_candidates(rt: &HostRuntime, base: &[u8], overlay: &[u8], map: &str) -> Result<(), Fail> {
    let cells = cells_of(rt.alloc(), base, overlay, map).ok_or(Malformed)?;
    for cell in &cells {
        if let Cell::Plain(value) = cell {
            tell(rt, *value);
        }
    }
    Ok(())
}

fn cells_of<'a>(
    alloc: Global,
    base: &'a [u8],
    overlay: &'a [u8],
    map: &str,
) -> Option<Vec<Cell<'a>>> {
    let mut stack = Stack::new(alloc);
    push_base(alloc, &mut stack, base)?;
    push_overlay(alloc, &mut stack, overlay, map.as_bytes())?;
    let mut cells = Vec::new(alloc);
    for candidate in stack.candidates(FIRST) {
        cells.push(candidate.row.cell).ok()?;
    }
    Some(cells)
}
