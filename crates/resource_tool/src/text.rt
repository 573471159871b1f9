//! A text that is all that a command prints, and how it ends then.

ghost use Rattle.std.specs.Prelude.{◌≡◌, Ok, Err, MatchResult};
ghost use Rattle.command_base.specs.Output.{Prints};
ghost use Rattle.command_base.specs.declared.fault.ToolFault.TheVariants.{Write};

use command_base::{Status, ToolFault};
use std::io::{self, Write};

/// Prints a text, and then the command ends with a status.
pub(crate) fn print_text<W: Write + Drop>(
    status: Status,
    text: &[u8],
    out: &mut W,
) -> Result<Status, ToolFault>
    ensures { Prints W.contents out.old out.new result (Ok (record { status = status; text = text.now })) }
{
    ended(status, out.write_all(text))
}

/// How a command ends that has written all that it prints: with a status, or with the fault of its writer.
pub(crate) fn ended(status: Status, wrote: io::Result<()>) -> Result<Status, ToolFault>
    ensures { MatchResult wrote (λ _. result ≡ Ok status) (λ _. result ≡ Err Write) }
{
    wrote?;
    Ok(status)
}
