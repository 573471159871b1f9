//! What stands between parts.

ghost use Rattle.std.specs.Prelude.{◌≡◌, [], ◌∷◌, true, if◌then◌else◌, OnOk};
ghost use Rattle.contract_words.specs.Writes.{Writes};

use std::io::{self, Write};

/// Writes a byte, but not the first time.
pub(crate) fn write_separator<W: Write + Drop>(
    byte: u8,
    due: &mut bool,
    out: &mut W,
) -> io::Result<()>
    ensures due { due.new ≡ true }
    ensures text { Writes W.contents out.old out.new result (if due.old then byte ∷ [] else []) }
{
    if *due {
        return out.write_all(&[byte]);
    }
    *due = true;
    Ok(())
}
