//! The end of a run.

ghost use Rattle.std.specs.Prelude.{◌≡◌, ◌++◌, [], false, None, Ok, Err, OnOk, IsOk, IfOk, IfErr};
ghost use Rattle.std.specs.Io.Buffered.{writer_contents, writer_inner};
ghost use Rattle.std.specs.Io.KnownBytes.{Appends, Keeps};
ghost use Rattle.resource_tool.specs.command_base.answer_text.OnLine.{on_line};
ghost use Rattle.resource_tool.specs.command_base.CarriesOut.{IsKept};
ghost use Rattle.resource_tool.specs.command_base.declared.fault.ToolFault.TheVariants.{Write};
ghost use Rattle.resource_tool.specs.command_base.Stop.{stop_line, stop_of, tool};
ghost use Rattle.contract_words.specs.Writes.{Writes};
ghost use Rattle.std.specs.Option.{option_map};
ghost use Rattle.restool.specs.Ending.{EndsAs, hint_line};

use command_base::{say_left, write_in_one_line};
use resource_tool::{ExitStatus, Status, Stop, ToolFault};
use std::io::{self, BufWriter, Write};

/// What came of the report why the program stops.
#[derive(Drop)]
pub struct Reported {
    /// How the program ends.
    pub status: ExitStatus,
    /// Whether the stream took the text, where there was one.
    pub was_written: bool,
}

/// Says why the program stops, if it does, and on a terminal maybe what a person may try, and gives the exit status.
pub fn end<E: Write + Drop>(
    outcome: Result<Status, Stop<'_>>,
    hint: Option<&[u8]>,
    is_terminal: bool,
    errors: &mut E,
) -> Reported
    ensures { EndsAs E.contents is_terminal errors.old errors.new outcome.entry result.was_written result.status }
{
    let hint = where_terminal(is_terminal, hint);
    match outcome {
        Ok(status) => Reported {
            was_written: write_hint(hint, errors).is_ok(),
            status: ExitStatus::after_status(status),
        },
        Err(stop) => Reported {
            was_written: tell(&stop, hint, errors).is_ok(),
            status: stop.status(),
        },
    }
}

/// What may be said on a terminal alone.
pub(crate) fn where_terminal(is_terminal: bool, hint: Option<&[u8]>) -> Option<&[u8]>
    ensures { is_terminal ≡ false → result ≡ None }
{
    if is_terminal { hint } else { None }
}

fn tell<E: Write + Drop>(stop: &Stop<'_>, hint: Option<&[u8]>, errors: &mut E) -> io::Result<()>
    ensures { Writes E.contents errors.old errors.new result
        (stop_line (stop_of stop.now) ++ hint_line (option_map (λ hint. hint.now) hint.entry)) }
{
    stop.write_line(errors)?;
    write_hint(hint, errors)
}

/// Writes a line with what a person may try, where there is something.
pub(crate) fn write_hint<E: Write + Drop>(hint: Option<&[u8]>, errors: &mut E) -> io::Result<()>
    ensures line { Writes E.contents errors.old errors.new result (hint_line (option_map (λ hint. hint.now) hint.entry)) }
    ensures nothing { hint.entry ≡ None → errors.new ≡ errors.old }
{
    let Some(hint) = hint else {
        return Ok(());
    };
    errors.write_all(b"hint: ")?;
    write_in_one_line(hint, errors)?;
    errors.write_all(b"\n")
}

/// Says lines beside an answer. Where they can't be written, there is none.
pub fn said_beside<'a, E: Write + Drop>(
    answered: Result<Status, Stop<'a>>,
    lines: &[u8],
    errors: &mut E,
) -> Result<Status, Stop<'a>>
    ensures lines { OnOk result (Appends (E.contents errors.old) (E.contents errors.new) (on_line lines.now)) }
    ensures kept { IsKept errors.old errors.new result }
    ensures nothing { lines.now ≡ [] → errors.new ≡ errors.old }
    ensures status { IfOk result (λ status. answered.entry ≡ Ok status) }
    ensures stop { IfErr answered.entry (λ stop. result ≡ Err stop) }
    ensures write { IsOk answered.entry → IfErr result (λ stop. stop_of stop ≡ tool Write) }
{
    let status = answered?;
    match say_left(lines, errors) {
        Ok(()) => Ok(status),
        Err(_) => Err(Stop::Tool(ToolFault::Write)),
    }
}

/// Writes what is kept back of an answer, and hands the output back. Where there is none, or a write fails, nothing more
/// is written, as it would be if the writer was dropped.
pub fn written_out<'a, O: Write + Drop>(
    answered: Result<Status, Stop<'a>>,
    mut out: BufWriter<O>,
) -> (Result<Status, Stop<'a>>, O)
    ensures whole { OnOk result.0 (Keeps (writer_contents O.contents out) (O.contents result.1)) }
    ensures status { IfOk result.0 (λ status. answered.entry ≡ Ok status) }
    ensures stop { IfErr answered.entry (λ stop. result.0 ≡ Err stop) }
    ensures unwritten { IfErr answered.entry (λ stop. result.1 ≡ writer_inner out) }
    ensures write { IsOk answered.entry → IfErr result.0 (λ stop. stop_of stop ≡ tool Write) }
{
    let written = match answered {
        Ok(status) => match out.flush() {
            Ok(()) => Ok(status),
            Err(_) => Err(Stop::Tool(ToolFault::Write)),
        },
        Err(stop) => Err(stop),
    };
    let (out, _unwritten) = out.into_parts();
    (written, out)
}
