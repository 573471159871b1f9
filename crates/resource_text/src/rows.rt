//! The rows of a table.

ghost use Rattle.std.specs.Prelude.{◌≡◌, [], IfOk};
ghost use Rattle.contract_words.specs.Writes.{Writes};
ghost use Rattle.answer_text.specs.type_chunks.Row.{row_of};
ghost use Rattle.resource_text.specs.TableNotation.{row_notation, rows_in, rows_notation};

use crate::lone_table::{lone_table, stack_of};
use crate::naming::Naming;
use crate::table_row::write_row_end;
use answer_text::{Row, Stack, Table, write_id, write_totals};
use std::alloc::{AllocError, Global};
use std::io::{self, Write};

/// A line for each row of a table, in the order of the file, with the lines of its bag, and one with the number of rows and
/// how many of them are set aside.
pub fn rows_in_notation(alloc: Global, table: Table<'_>) -> Result<Vec<u8>, AllocError>
    ensures { IfOk result (λ text. text.items ≡ rows_notation table.entry) }
{
    let stack = stack_of(alloc, table)?;
    let text = text_in(alloc, &stack, lone_table(&stack));
    drop(stack);
    text
}

// The text of a table in a stack.
fn text_in(alloc: Global, stack: &Stack<'_>, table: &Table<'_>) -> Result<Vec<u8>, AllocError>
    ensures { IfOk result (λ text. text.items ≡ rows_in (record { stack = stack.now; paths = [] }) table.now) }
{
    let naming = Naming::of(alloc, stack, &[])?;
    let text = named_text(&naming, table);
    drop(naming);
    text
}

fn named_text(naming: &Naming<'_, '_, '_>, table: &Table<'_>) -> Result<Vec<u8>, AllocError>
    ensures { IfOk result (λ text. text.items ≡ rows_in naming.now table.now) }
{
    let mut text = Vec::new(naming.alloc());
    match write_rows(naming, table, &mut text) {
        Ok(()) => Ok(text),
        // To a `Vec` only a want of memory is a fault.
        Err(_) => Err(AllocError),
    }
}

#[tactic(auto, using(contract_words::proofs::TextSteps::puts, std::proofs::lemmas::Grind::common_steps), unfolding(crate::specs::TableNotation::rows_in))]
fn write_rows<W: Write + Drop>(
    naming: &Naming<'_, '_, '_>,
    table: &Table<'_>,
    out: &mut W,
) -> io::Result<()>
    ensures { Writes W.contents out.old out.new result (rows_in naming.now table.now) }
{
    let mut count: u128 = 0;
    let mut set_aside: u128 = 0;
    for row in table.all_rows() {
        write_row(naming, &row, out)?;
        count += 1;
        if row.config.set_aside() {
            set_aside += 1;
        }
    }
    write_totals(count, set_aside, out)
}

#[tactic(auto, unfolding(crate::specs::TableNotation::row_notation))]
fn write_row<W: Write + Drop>(
    naming: &Naming<'_, '_, '_>,
    row: &Row<'_>,
    out: &mut W,
) -> io::Result<()>
    ensures { Writes W.contents out.old out.new result (row_notation naming.now (row_of row.now)) }
{
    out.write_all(b"row ")?;
    write_id(row.id, out)?;
    out.write_all(b" ")?;
    write_row_end(naming, b"  ", row, out)
}
