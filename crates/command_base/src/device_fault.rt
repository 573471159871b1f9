//! Faults of a device, written.

ghost use Rattle.answer_text.specs.contract_words.Writes.{Writes};
ghost use Rattle.command_base.specs.DeviceFaultText.{device_fault_text};

use answer_text::{DeviceFault, write_named_coord};
use std::io::{self, Write};

/// Writes the name of a device's fault, and the coordinate that has it.
#[tactic(auto, unfolding(crate::specs::DeviceFaultText::device_fault_text))]
pub(crate) fn write_device_fault<W: Write + Drop>(fault: DeviceFault, out: &mut W) -> io::Result<()>
    ensures { Writes W.contents out.old out.new result (device_fault_text fault) }
{
    let name = match fault {
        DeviceFault::FieldRange(coord) => return write_named_coord("FieldRange", coord, out),
        DeviceFault::Syntax => "Syntax",
        DeviceFault::Shape => "Shape",
        DeviceFault::RegionAlone => "RegionAlone",
        DeviceFault::Density => "Density",
        DeviceFault::OutOfMemory => "OutOfMemory",
    };
    out.write_all(name.as_bytes())
}
