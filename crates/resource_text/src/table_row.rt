//! The rows of a table, written.

ghost use Rattle.std.specs.List.{flat_map, enumerate_from};
ghost use Rattle.contract_words.specs.Writes.{Writes};
ghost use Rattle.res_value.specs.Cell.{cell_of};
ghost use Rattle.res_value.specs.MapRows.{map_rows_of};
ghost use Rattle.answer_text.specs.type_chunks.Row.{row_of};
ghost use Rattle.resource_text.specs.TableNotation.{parent_notation, bag_notation, cell_notation, map_row_notation, map_rows_notation, row_end_notation};

use crate::naming::Naming;
use answer_text::{BagRow, Cell, Keys, MapRows, ResId, Row, Value, write_named_number};
use notation::write_config;
use std::io::{self, Write};

/// Writes how the line of a row ends, its configuration and what it holds, and behind an indent each line of a bag.
#[tactic(auto, unfolding(crate::specs::TableNotation::row_end_notation))]
pub fn write_row_end<W: Write + Drop>(
    naming: &Naming<'_, '_, '_>,
    indent: &[u8],
    row: &Row<'_>,
    out: &mut W,
) -> io::Result<()>
    ensures { Writes W.contents out.old out.new result (row_end_notation naming.now indent.now (row_of row.now)) }
{
    write_config(&row.config, out)?;
    out.write_all(b" ")?;
    write_cell(naming, row.cell, out)?;
    out.write_all(b"\n")?;
    write_map_rows(naming, indent, row.id, row.cell, out)
}

#[tactic(auto, unfolding(crate::specs::TableNotation::cell_notation))]
fn write_cell<W: Write + Drop>(
    naming: &Naming<'_, '_, '_>,
    cell: Cell<'_>,
    out: &mut W,
) -> io::Result<()>
    ensures { Writes W.contents out.old out.new result (cell_notation naming.now (cell_of cell.entry)) }
{
    match cell {
        Cell::Plain(value) => naming.write_value(0, value, out),
        Cell::Bag { parent, rows } => write_bag(naming, parent, rows.len(), out),
    }
}

#[tactic(auto, unfolding(crate::specs::TableNotation::bag_notation))]
fn write_bag<W: Write + Drop>(
    naming: &Naming<'_, '_, '_>,
    parent: ResId,
    count: usize,
    out: &mut W,
) -> io::Result<()>
    ensures { Writes W.contents out.old out.new result (bag_notation naming.now parent.0 count) }
{
    out.write_all(b"bag")?;
    write_parent(naming, parent, out)?;
    write_named_number(" count", count as u128, out)
}

#[tactic(auto, unfolding(crate::specs::TableNotation::parent_notation))]
fn write_parent<W: Write + Drop>(
    naming: &Naming<'_, '_, '_>,
    parent: ResId,
    out: &mut W,
) -> io::Result<()>
    ensures { Writes W.contents out.old out.new result (parent_notation naming.now parent.0) }
{
    if parent.0 == 0 {
        return Ok(());
    }
    out.write_all(b" parent ")?;
    naming.write_id(parent, out)
}

#[tactic(auto, unfolding(crate::specs::TableNotation::map_rows_notation))]
fn write_map_rows<W: Write + Drop>(
    naming: &Naming<'_, '_, '_>,
    indent: &[u8],
    id: ResId,
    cell: Cell<'_>,
    out: &mut W,
) -> io::Result<()>
    ensures { Writes W.contents out.old out.new result (map_rows_notation naming.now indent.now id.0 (cell_of cell.entry)) }
{
    match cell {
        Cell::Plain(_) => Ok(()),
        Cell::Bag { rows, .. } => {
            let keys = Keys::of(naming.stack(), id);
            write_each_map_row(naming, indent, keys, rows, out)
        }
    }
}

#[tactic(auto, using(contract_words::proofs::TextSteps::puts, std::proofs::lemmas::Grind::common_steps))]
fn write_each_map_row<W: Write + Drop>(
    naming: &Naming<'_, '_, '_>,
    indent: &[u8],
    keys: Keys,
    rows: MapRows<'_>,
    out: &mut W,
) -> io::Result<()>
    ensures { Writes W.contents out.old out.new result
        (flat_map (map_row_notation naming.now indent.now keys) (enumerate_from 0 (map_rows_of rows.entry))) }
{
    let mut place = 0;
    for (name, value) in rows {
        write_map_row(naming, indent, keys, place, name, value, out)?;
        place += 1;
    }
    Ok(())
}

#[tactic(auto, unfolding(crate::specs::TableNotation::map_row_notation))]
fn write_map_row<W: Write + Drop>(
    naming: &Naming<'_, '_, '_>,
    indent: &[u8],
    keys: Keys,
    place: usize,
    name: ResId,
    value: Value,
    out: &mut W,
) -> io::Result<()>
    ensures { Writes W.contents out.old out.new result (map_row_notation naming.now indent.now keys (place, (name, value))) }
{
    out.write_all(indent)?;
    naming.write_row(
        keys,
        place,
        BagRow {
            name,
            value,
            layer: 0,
        },
        out,
    )?;
    out.write_all(b"\n")
}
