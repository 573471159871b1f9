//! Texts that a file or a device has, in lines of errors.

ghost use Rattle.std.specs.Prelude.{◌≡◌};
ghost use Rattle.std.specs.List.{list_any};
ghost use Rattle.contract_words.specs.Writes.{Writes};
ghost use Rattle.answer_text.specs.string_pool.Shown.{is_control};
ghost use Rattle.command_base.specs.OneLine.{in_one_line};

use names::Text;
use std::io::{self, Write};

/// Writes a text as it is, but as strings are shown where it has control characters of ASCII: so no line feed and no escape
/// sequence of a file or a device forges a line.
#[tactic(auto, unfolding(crate::specs::OneLine::in_one_line))]
pub fn write_in_one_line<W: Write + Drop>(text: &[u8], out: &mut W) -> io::Result<()>
    ensures { Writes W.contents out.old out.new result (in_one_line text.now) }
{
    if has_control(text) {
        Text::Utf8(text).write_shown(out)
    } else {
        out.write_all(text)
    }
}

fn has_control(bytes: &[u8]) -> bool
    ensures { result ≡ list_any is_control bytes.now }
{
    bytes.iter().any(u8::is_ascii_control)
}
