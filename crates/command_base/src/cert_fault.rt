//! Faults of a certificate, written.

ghost use Rattle.answer_text.specs.contract_words.Writes.{Writes};
ghost use Rattle.command_base.specs.CertFaultText.{node_shape_text, cert_fault_text};

use cert_tree::CertFault;
use std::io::{self, Write};

/// Writes the name of a certificate's fault, and the goal and the node that have it.
#[tactic(auto, unfolding(crate::specs::CertFaultText::cert_fault_text))]
pub(crate) fn write_cert_fault<W: Write + Drop>(fault: CertFault, out: &mut W) -> io::Result<()>
    ensures { Writes W.contents out.old out.new result (cert_fault_text fault) }
{
    let name = match fault {
        CertFault::Shape(goal, node) => return write_node_shape(goal, node, out),
        CertFault::Syntax => "Syntax",
        CertFault::Version => "Version",
        CertFault::TooManyNodes => "TooManyNodes",
        CertFault::OutOfMemory => "OutOfMemory",
    };
    out.write_all(name.as_bytes())
}

#[tactic(auto, unfolding(crate::specs::CertFaultText::node_shape_text))]
fn write_node_shape<W: Write + Drop>(goal: usize, node: usize, out: &mut W) -> io::Result<()>
    ensures { Writes W.contents out.old out.new result (node_shape_text goal node) }
{
    write!(out, "Shape {goal} {node}")
}
