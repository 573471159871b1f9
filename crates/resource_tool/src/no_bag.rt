//! Why there is no bag, printed.

ghost use Rattle.std.specs.Prelude.{◌≡◌, ◌≢◌, Ok, Err};
ghost use Rattle.command_base.specs.answer_text.bags_themes.declared.bag_fault.BagFault.TheVariants as of_bag;
ghost use Rattle.command_base.specs.declared.fault.ToolFault.TheVariants.{OutOfMemory};
ghost use Rattle.command_base.specs.Output.{Prints};
ghost use Rattle.resource_tool.specs.BagOutput.{no_bag, no_bag_json};

use command_base::{BagFault, Status, ToolFault};
use std::io::Write;

/// Prints the line that says why there is no bag. Want of memory is the command's own fault.
#[tactic(auto, unfolding(crate::specs::BagOutput::no_bag_line))]
pub(crate) fn print_no_bag<W: Write + Drop>(
    fault: BagFault,
    out: &mut W,
) -> Result<Status, ToolFault>
    ensures printed { fault ≢ of_bag.OutOfMemory → Prints W.contents out.old out.new result (Ok (no_bag fault)) }
    ensures has_memory { fault ≢ of_bag.OutOfMemory → result ≢ Err OutOfMemory }
    ensures memory { fault ≡ of_bag.OutOfMemory → (result ≡ Err OutOfMemory) × (out.new ≡ out.old) }
{
    let line: &[u8] = match fault {
        BagFault::Absent => b"no bag Absent\n",
        BagFault::Plain => b"no bag Plain\n",
        BagFault::BagDepth => b"no bag BagDepth\n",
        BagFault::OutOfMemory => return Err(ToolFault::OutOfMemory),
    };
    out.write_all(line)?;
    Ok(Status::Negative)
}

/// The same as a JSON object.
#[tactic(auto, unfolding(crate::specs::BagOutput::no_bag_json_line))]
pub(crate) fn print_no_bag_json<W: Write + Drop>(
    fault: BagFault,
    out: &mut W,
) -> Result<Status, ToolFault>
    ensures printed { fault ≢ of_bag.OutOfMemory → Prints W.contents out.old out.new result (Ok (no_bag_json fault)) }
    ensures has_memory { fault ≢ of_bag.OutOfMemory → result ≢ Err OutOfMemory }
    ensures memory { fault ≡ of_bag.OutOfMemory → (result ≡ Err OutOfMemory) × (out.new ≡ out.old) }
{
    let line: &[u8] = match fault {
        BagFault::Absent => b"{\"fault\":\"Absent\",\"line\":\"no bag\"}\n",
        BagFault::Plain => b"{\"fault\":\"Plain\",\"line\":\"no bag\"}\n",
        BagFault::BagDepth => b"{\"fault\":\"BagDepth\",\"line\":\"no bag\"}\n",
        BagFault::OutOfMemory => return Err(ToolFault::OutOfMemory),
    };
    out.write_all(line)?;
    Ok(Status::Negative)
}
