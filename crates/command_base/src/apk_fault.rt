//! Faults of an apk, written.

ghost use Rattle.std.specs.Prelude.{◌≡◌};
ghost use Rattle.answer_text.specs.contract_words.Writes.{Writes};
ghost use Rattle.command_base.specs.ApkFaultText.{apk_fault_text};

use apk_member::ApkFault;
use std::io::{self, Write};

/// Writes the name of an apk's fault.
pub(crate) fn write_apk_fault<W: Write + Drop>(fault: ApkFault, out: &mut W) -> io::Result<()>
    ensures { Writes W.contents out.old out.new result (apk_fault_text fault) }
{
    out.write_all(name_of(fault).as_bytes())
}

fn name_of(fault: ApkFault) -> &'static str
    ensures { result.now ≡ apk_fault_text fault }
{
    match fault {
        ApkFault::NotZip => "NotZip",
        ApkFault::Directory => "Directory",
        ApkFault::NoTable => "NoTable",
        ApkFault::Twice => "Twice",
        ApkFault::Encrypted => "Encrypted",
        ApkFault::Compressed => "Compressed",
        ApkFault::Member => "Member",
    }
}
