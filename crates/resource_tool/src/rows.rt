//! The command `rows`.

ghost use Rattle.std.specs.Prelude.{◌≡◌, IfSome};
ghost use Rattle.command_base.specs.Output.{Prints};
ghost use Rattle.command_base.specs.declared.fault.ToolFault.TheVariants.{Write};
ghost use Rattle.resource_tool.specs.TableOutput.{rows_output, rows_printed, PrintsRows};
ghost use Rattle.command_base.specs.CarriesOut.{IsKept};

use crate::text::print_text;
use answer_text::rows_text;
use command_base::{Inputs, Status, Stop, Table, ToolFault, status_or_stop, table_file};
use std::alloc::Global;
use std::io::Write;

/// What the words of `rows` ask: the rows of a table.
#[derive(Drop)]
pub struct Rows<'a> {
    /// Where the table lies; `-` is the standard input.
    pub table: &'a str,
    /// Whether they are printed in Android's notation.
    pub android: bool,
}

impl<'a> Rows<'a> {
    /// Reads the table, and answers. Where it is not answered, nothing is written, unless a write fails.
    pub fn answer<I: Inputs, W: Write + Drop>(
        &self,
        alloc: Global,
        inputs: &I,
        out: &mut W,
    ) -> Result<Status, Stop<'a>>
        ensures answers { IfSome (I.places inputs.now) (λ places. PrintsRows W.contents out.old out.new places self.now result) }
        ensures unwritten { IsKept out.old out.new result }
    {
        let file = table_file(inputs, self.table)?;
        status_or_stop(rows_printed(alloc, self.android, file.table(), out))
    }
}

/// Prints a line for each row of a table, in the order of the file, and one with their number and how
/// many of them are set aside.
pub fn rows_bytes<W: Write + Drop>(
    alloc: Global,
    table: &[u8],
    out: &mut W,
) -> Result<Status, ToolFault>
    ensures { Prints W.contents out.old out.new result (rows_output table.now) }
{
    rows_printed(alloc, false, table, out)
}

fn rows_printed<W: Write + Drop>(
    alloc: Global,
    android: bool,
    table: &[u8],
    out: &mut W,
) -> Result<Status, ToolFault>
    ensures { Prints W.contents out.old out.new result (rows_printed android table.now) }
{
    let table = Table::open(alloc, table)?;
    if android {
        let text = resource_text::rows_in_notation(alloc, table)?;
        return print_text(Status::Done, &text, out);
    }
    rows_text(&table, out)?;
    Ok(Status::Done)
}
