//! The rows of a table, written.

ghost use Rattle.contract_words.specs.Writes.{Writes};
ghost use Rattle.bags_themes.specs.type_chunks.Row.{row_of};
ghost use Rattle.answer_text.specs.RowsText.{row_text, totals_text, rows_text};

use crate::cell::{RowFormat, write_row_end};
use crate::last_record::LastRecord;
use crate::named::write_named_number;
use bags_themes::{Row, Table};
use res_value::write_id;
use std::io::{self, Write};

/// Two spaces before the rows of a bag, and no strings.
const FORMAT: RowFormat<'static> = RowFormat {
    indent: "  ",
    strings: None,
};

/// Writes a line for each row of a table, in the order of the file, with the lines of its bag, and one
/// with the number of rows and how many of them are set aside.
#[tactic(auto, using(contract_words::proofs::TextSteps::puts, std::proofs::lemmas::Grind::common_steps), unfolding(crate::specs::RowsText::rows_text))]
pub fn rows_text<W: Write + Drop>(table: &Table<'_>, out: &mut W) -> io::Result<()>
    ensures { Writes W.contents out.old out.new result (rows_text table.now) }
{
    let mut records = LastRecord::none();
    let mut count: u128 = 0;
    let mut set_aside: u128 = 0;
    for row in table.all_rows() {
        write_row(&row, &mut records, out)?;
        count += 1;
        if row.config.set_aside() {
            set_aside += 1;
        }
    }
    write_totals(count, set_aside, out)
}

/// Writes the line with a number of rows, and how many of them are set aside.
#[tactic(auto, unfolding(crate::specs::RowsText::totals_text))]
pub fn write_totals<W: Write + Drop>(count: u128, set_aside: u128, out: &mut W) -> io::Result<()>
    ensures { Writes W.contents out.old out.new result (totals_text count set_aside) }
{
    write_named_number("rows", count, out)?;
    write_named_number(" set-aside", set_aside, out)?;
    out.write_all(b"\n")
}

#[tactic(auto, unfolding(crate::specs::RowsText::row_text, crate::specs::RowsText::rows_format))]
fn write_row<'a, W: Write + Drop>(
    row: &Row<'a>,
    records: &mut LastRecord<'a>,
    out: &mut W,
) -> io::Result<()>
    ensures { Writes W.contents out.old out.new result (row_text (row_of row.now)) }
{
    out.write_all(b"row ")?;
    write_id(row.id, out)?;
    out.write_all(b" ")?;
    write_row_end(FORMAT, row, records, out)
}
