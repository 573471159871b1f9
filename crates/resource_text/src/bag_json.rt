//! The rows of a bag with those that it inherits, as lines of JSON.

ghost use Rattle.std.specs.Prelude.{◌≡◌, IfOk};
ghost use Rattle.std.specs.List.{enumerate_from, flat_map};
ghost use Rattle.contract_words.specs.Writes.{Writes};
ghost use Rattle.resource_text.specs.BagJson.{row_json, rows_json};

use crate::line_json::{line_members, write_line};
use crate::naming::Naming;
use crate::text_json::id_json;
use answer_text::{BagRow, Keys, ResId};
use serde_json::put;
use std::alloc::AllocError;
use std::io::{self, Write};

/// A line for each row of the bag that an id selects, in their order, each a JSON object.
///
/// ```text
/// bag_rows_json(&naming, id, rows)?; // {"from":{..},"id":"0x01010098","key":"android:attr/textColor","line":"row","value":..}
/// ```
pub fn bag_rows_json(
    naming: &Naming<'_, '_, '_>,
    id: ResId,
    rows: &[BagRow],
) -> Result<Vec<u8>, AllocError>
    ensures { IfOk result (λ lines. lines.items ≡ rows_json naming.now id.0 rows.now) }
{
    let keys = Keys::of(naming.stack(), id);
    let mut lines = Vec::new(naming.alloc());
    match write_rows(naming, keys, rows, &mut lines) {
        Ok(()) => Ok(lines),
        // To a `Vec` only a want of memory is a fault.
        Err(_) => Err(AllocError),
    }
}

#[tactic(auto, using(answer_text::proofs::ItemSteps::item_steps))]
fn write_rows<W: Write + Drop>(
    naming: &Naming<'_, '_, '_>,
    keys: Keys,
    rows: &[BagRow],
    out: &mut W,
) -> io::Result<()>
    ensures { Writes W.contents out.old out.new result (flat_map (row_json naming.now keys) (enumerate_from 0 rows.now)) }
{
    for (place, row) in rows.iter().enumerate() {
        write_row(naming, keys, place, *row, out)?;
    }
    Ok(())
}

#[tactic(auto, unfolding(crate::specs::BagJson::row_json))]
fn write_row<W: Write + Drop>(
    naming: &Naming<'_, '_, '_>,
    keys: Keys,
    place: usize,
    row: BagRow,
    out: &mut W,
) -> io::Result<()>
    ensures { Writes W.contents out.old out.new result (row_json naming.now keys (place, row)) }
{
    let alloc = naming.alloc();
    let mut members = line_members(alloc, "row")?;
    let id = id_json(alloc, row.name)?;
    put(&mut members, alloc, "id", id)?;
    naming.put_row(keys, place, row, &mut members)?;
    naming.put_from_layer(row.layer, &mut members)?;
    write_line(alloc, members, out)
}
