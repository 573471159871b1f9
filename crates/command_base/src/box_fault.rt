//! Faults of a box, written.

ghost use Rattle.answer_text.specs.contract_words.Writes.{Writes};
ghost use Rattle.command_base.specs.BoxFaultText.{box_fault_text};

use answer_text::write_named_coord;
use cert_tree::BoxFault;
use std::io::{self, Write};

/// Writes the name of a box's fault, and the coordinate that has it.
#[tactic(auto, unfolding(crate::specs::BoxFaultText::box_fault_text))]
pub(crate) fn write_box_fault<W: Write + Drop>(fault: BoxFault, out: &mut W) -> io::Result<()>
    ensures { Writes W.contents out.old out.new result (box_fault_text fault) }
{
    let name = match fault {
        BoxFault::Empty(coord) => return write_named_coord("Empty", coord, out),
        BoxFault::TooMany(coord) => return write_named_coord("TooMany", coord, out),
        BoxFault::FieldRange(coord) => return write_named_coord("FieldRange", coord, out),
        BoxFault::Syntax => "Syntax",
        BoxFault::Shape => "Shape",
        BoxFault::RegionAlone => "RegionAlone",
        BoxFault::Density => "Density",
        BoxFault::OutOfMemory => "OutOfMemory",
    };
    out.write_all(name.as_bytes())
}
