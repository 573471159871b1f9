//! The row of a table that no device loads, as a line of JSON.

ghost use Rattle.std.specs.Prelude.{◌≡◌, OnOk};
ghost use Rattle.contract_words.specs.Writes.{Writes};
ghost use Rattle.serde_json.specs.View.{members_view};
ghost use Rattle.res_value.specs.Cell.{BagOf, cell_of};
ghost use Rattle.res_value.specs.MapRows.{map_rows_of};
ghost use Rattle.answer_text.specs.type_chunks.Row.{row_of};
ghost use Rattle.resource_text.specs.RowJson.{row_json, with_cell, with_parent};

use crate::end_json::place_json;
use crate::line_json::{line_members, write_line};
use crate::naming::Naming;
use answer_text::{Cell, MapRows, ResId, Row};
use serde_json::{Map, Value, put};
use std::alloc::AllocError;
use std::io::{self, Write};

/// Writes the line of a row of the layer at a place, which is an overlay or a base, whose table is the only layer of the stack of
/// names; this becomes of it.
#[tactic(auto, unfolding(crate::specs::RowJson::row_json))]
pub fn write_row_json<W: Write + Drop>(
    naming: &Naming<'_, '_, '_>,
    place: usize,
    overlay: bool,
    kind: &str,
    row: &Row<'_>,
    out: &mut W,
) -> io::Result<()>
    ensures { Writes W.contents out.old out.new result (row_json naming.now place overlay kind.now (row_of row.now)) }
{
    let alloc = naming.alloc();
    let mut members = line_members(alloc, kind)?;
    naming.put_id(row.id, &mut members)?;
    let stands = place_json(naming, place, &row.config)?;
    put(&mut members, alloc, "from", stands)?;
    put(&mut members, alloc, "overlay", Value::from(overlay))?;
    put_cell(naming, row.cell, &mut members)?;
    write_line(alloc, members, out)
}

// Puts what a row holds.
#[tactic(auto, unfolding(crate::specs::RowJson::with_cell))]
fn put_cell(
    naming: &Naming<'_, '_, '_>,
    cell: Cell<'_>,
    members: &mut Map<String, Value>,
) -> Result<(), AllocError>
    ensures { OnOk result (members_view members.new.entries ≡ with_cell naming.now (cell_of cell.entry) (members_view members.old.entries)) }
{
    match cell {
        Cell::Plain(value) => {
            let value = naming.value_json(0, value)?;
            put(members, naming.alloc(), "value", value)
        }
        Cell::Bag { parent, rows } => put_bag(naming, parent, rows, members),
    }
}

#[tactic(auto, unfolding(crate::specs::RowJson::with_cell))]
fn put_bag(
    naming: &Naming<'_, '_, '_>,
    parent: ResId,
    rows: MapRows<'_>,
    members: &mut Map<String, Value>,
) -> Result<(), AllocError>
    ensures { OnOk result (members_view members.new.entries
        ≡ with_cell naming.now (BagOf parent (map_rows_of rows.entry)) (members_view members.old.entries)) }
{
    let mut bag = Map::new(naming.alloc());
    put(&mut bag, naming.alloc(), "rows", Value::from(rows.len()))?;
    put_parent(naming, parent, &mut bag)?;
    put(members, naming.alloc(), "bag", Value::Object(bag))
}

// Puts the parent of a bag, where there is one.
#[tactic(auto, unfolding(crate::specs::RowJson::with_parent))]
fn put_parent(
    naming: &Naming<'_, '_, '_>,
    parent: ResId,
    members: &mut Map<String, Value>,
) -> Result<(), AllocError>
    ensures { OnOk result (members_view members.new.entries ≡ with_parent naming.now parent.0 (members_view members.old.entries)) }
{
    if parent.0 == 0 {
        return Ok(());
    }
    let parent = naming.resource_json(parent)?;
    put(members, naming.alloc(), "parent", parent)
}
