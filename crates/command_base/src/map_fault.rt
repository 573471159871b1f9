//! Faults of an id map, written.

ghost use Rattle.answer_text.specs.contract_words.Writes.{Writes};
ghost use Rattle.command_base.specs.MapFaultText.{map_fault_text};

use answer_text::{MapFault, write_named_id};
use std::io::{self, Write};

/// Writes the name of a fault of an id map, and the id that has it.
#[tactic(auto, unfolding(crate::specs::MapFaultText::map_fault_text))]
pub(crate) fn write_map_fault<W: Write + Drop>(fault: MapFault, out: &mut W) -> io::Result<()>
    ensures { Writes W.contents out.old out.new result (map_fault_text fault) }
{
    let name = match fault {
        MapFault::Repeated(target) => return write_named_id("Repeated", target, out),
        MapFault::OtherPackage(target) => return write_named_id("OtherPackage", target, out),
        MapFault::Syntax => "Syntax",
        MapFault::Shape => "Shape",
        MapFault::OutOfMemory => "OutOfMemory",
    };
    out.write_all(name.as_bytes())
}
