//! The command `dump`.

ghost use Rattle.std.specs.Prelude.{◌≡◌, IfSome};
ghost use Rattle.command_base.specs.Output.{Prints};
ghost use Rattle.command_base.specs.declared.fault.ToolFault.TheVariants.{Write};
ghost use Rattle.resource_tool.specs.TableOutput.{dump_output, dump_printed, PrintsDump};
ghost use Rattle.command_base.specs.CarriesOut.{IsKept};

use crate::text::print_text;
use answer_text::dump_text;
use command_base::{Inputs, Status, Stop, Table, ToolFault, status_or_stop, table_file};
use std::alloc::Global;
use std::io::Write;

/// What the words of `dump` ask: the packages of a table, with the names of its rows.
#[derive(Drop)]
pub struct Dump<'a> {
    /// Where the table lies; `-` is the standard input.
    pub table: &'a str,
    /// Whether they are printed in Android's notation.
    pub android: bool,
}

impl<'a> Dump<'a> {
    /// Reads the table, and answers. Where it is not answered, nothing is written, unless a write fails.
    pub fn answer<I: Inputs, W: Write + Drop>(
        &self,
        alloc: Global,
        inputs: &I,
        out: &mut W,
    ) -> Result<Status, Stop<'a>>
        ensures answers { IfSome (I.places inputs.now) (λ places. PrintsDump W.contents out.old out.new places self.now result) }
        ensures unwritten { IsKept out.old out.new result }
    {
        let file = table_file(inputs, self.table)?;
        status_or_stop(dump_printed(alloc, self.android, file.table(), out))
    }
}

/// Prints a line for each package of a table and one for each of its rows with their names, in the
/// order of the file.
pub fn dump_bytes<W: Write + Drop>(
    alloc: Global,
    table: &[u8],
    out: &mut W,
) -> Result<Status, ToolFault>
    ensures { Prints W.contents out.old out.new result (dump_output table.now) }
{
    dump_printed(alloc, false, table, out)
}

fn dump_printed<W: Write + Drop>(
    alloc: Global,
    android: bool,
    table: &[u8],
    out: &mut W,
) -> Result<Status, ToolFault>
    ensures { Prints W.contents out.old out.new result (dump_printed android table.now) }
{
    let table = Table::open(alloc, table)?;
    if android {
        let text = resource_text::dump_in_notation(alloc, table)?;
        return print_text(Status::Done, &text, out);
    }
    dump_text(&table, out)?;
    Ok(Status::Done)
}
