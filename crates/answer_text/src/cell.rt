//! What rows hold, written.

ghost use Rattle.std.specs.Option.{option_map};
ghost use Rattle.std.specs.List.{flat_map};
ghost use Rattle.contract_words.specs.Writes.{Writes};
ghost use Rattle.bags_themes.specs.string_pool.Pool.{pool_of};
ghost use Rattle.bags_themes.specs.res_value.Cell.{cell_of};
ghost use Rattle.bags_themes.specs.res_value.MapRows.{map_rows_of};
ghost use Rattle.bags_themes.specs.type_chunks.Row.{row_of};
ghost use Rattle.answer_text.specs.CellText.{format_of, string_behind, value_with_string, bag_text, cell_text, map_row_text, map_rows_text, row_end_text};

use crate::last_record::LastRecord;
use crate::named::{write_named_id, write_named_number};
use bags_themes::{Cell, MapRows, Pool, ResId, Row, Value, kind};
use res_value::{write_id, write_value};
use std::io::{self, Write};
use string_pool::write_string;

/// The two ways in which the texts of rows differ.
#[derive(Clone, Copy)]
pub(crate) struct RowFormat<'a> {
    /// What stands before each line of a row of a bag.
    pub indent: &'a str,
    /// The strings that string values name. Where they are given, such a value is followed by its
    /// string.
    pub strings: Option<Pool<'a>>,
}

/// Writes how the line of a row ends, the configuration and what the row holds, and the lines of a
/// bag.
#[tactic(auto, unfolding(crate::specs::CellText::row_end_text))]
pub(crate) fn write_row_end<'a, W: Write + Drop>(
    format: RowFormat<'_>,
    row: &Row<'a>,
    records: &mut LastRecord<'a>,
    out: &mut W,
) -> io::Result<()>
    ensures { Writes W.contents out.old out.new result (row_end_text (format_of format.entry) (row_of row.now)) }
{
    records.write(row.config, out)?;
    out.write_all(b" ")?;
    write_cell(format, row.cell, out)?;
    out.write_all(b"\n")?;
    write_map_rows(format, row.cell, out)
}

#[tactic(auto, unfolding(crate::specs::CellText::cell_text))]
fn write_cell<W: Write + Drop>(format: RowFormat<'_>, cell: Cell<'_>, out: &mut W) -> io::Result<()>
    ensures { Writes W.contents out.old out.new result (cell_text (format_of format.entry) (cell_of cell.entry)) }
{
    match cell {
        Cell::Plain(value) => write_value_with_string(format.strings, value, out),
        Cell::Bag { parent, rows } => write_bag(parent, rows.len(), out),
    }
}

/// Writes a value. Where strings are given, a string value is followed by its string among them.
#[tactic(auto, unfolding(crate::specs::CellText::value_with_string))]
pub(crate) fn write_value_with_string<W: Write + Drop>(
    strings: Option<Pool<'_>>,
    value: Value,
    out: &mut W,
) -> io::Result<()>
    ensures { Writes W.contents out.old out.new result (value_with_string (option_map pool_of strings.entry) value) }
{
    write_value(value, out)?;
    match strings {
        Some(strings) => write_string_behind(&strings, value, out),
        None => Ok(()),
    }
}

#[tactic(auto, unfolding(crate::specs::CellText::string_behind))]
fn write_string_behind<W: Write + Drop>(
    strings: &Pool<'_>,
    value: Value,
    out: &mut W,
) -> io::Result<()>
    ensures { Writes W.contents out.old out.new result (string_behind (pool_of strings.now) value) }
{
    if value.kind != kind::STRING {
        return Ok(());
    }
    out.write_all(b" ")?;
    write_string(strings.get(value.word as usize), out)
}

#[tactic(auto, unfolding(crate::specs::CellText::bag_text))]
fn write_bag<W: Write + Drop>(parent: ResId, count: usize, out: &mut W) -> io::Result<()>
    ensures { Writes W.contents out.old out.new result (bag_text parent.0 count) }
{
    write_named_id("bag parent", parent, out)?;
    write_named_number(" count", count as u128, out)
}

#[tactic(auto, unfolding(crate::specs::CellText::map_rows_text))]
fn write_map_rows<W: Write + Drop>(
    format: RowFormat<'_>,
    cell: Cell<'_>,
    out: &mut W,
) -> io::Result<()>
    ensures { Writes W.contents out.old out.new result (map_rows_text (format_of format.entry) (cell_of cell.entry)) }
{
    match cell {
        Cell::Plain(_) => Ok(()),
        Cell::Bag { rows, .. } => write_each_map_row(format, rows, out),
    }
}

#[tactic(auto, using(contract_words::proofs::TextSteps::puts, std::proofs::lemmas::Grind::common_steps))]
fn write_each_map_row<W: Write + Drop>(
    format: RowFormat<'_>,
    rows: MapRows<'_>,
    out: &mut W,
) -> io::Result<()>
    ensures { Writes W.contents out.old out.new result (flat_map (map_row_text (format_of format.entry)) (map_rows_of rows.entry)) }
{
    for (name, value) in rows {
        write_map_row(format, name, value, out)?;
    }
    Ok(())
}

#[tactic(auto, unfolding(crate::specs::CellText::map_row_text))]
fn write_map_row<W: Write + Drop>(
    format: RowFormat<'_>,
    name: ResId,
    value: Value,
    out: &mut W,
) -> io::Result<()>
    ensures { Writes W.contents out.old out.new result (map_row_text (format_of format.entry) (name, value)) }
{
    out.write_all(format.indent.as_bytes())?;
    write_id(name, out)?;
    out.write_all(b" ")?;
    write_value_with_string(format.strings, value, out)?;
    out.write_all(b"\n")
}
