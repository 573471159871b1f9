//! Texts on lines, written.

ghost use Rattle.std.specs.List.{flat_map};
ghost use Rattle.contract_words.specs.Writes.{Writes};
ghost use Rattle.bags_themes.specs.string_pool.Shown.{unit_escape};
ghost use Rattle.answer_text.specs.OnLine.{character_on_line, on_line};

use bstr::{ByteSlice, Chars};
use names::breaks_line;
use res_value::write_hex;
use std::io::{self, Write};

/// Writes a text in which no name and no string can end the line that it stands in, or turn its direction: each character
/// by which it could is `\u` and four digits.
///
/// ```text
/// write_on_line("\"a\u{2028}b\"\n".as_bytes(), &mut out)?; // "a\u2028b"
/// ```
#[tactic(auto, using(crate::proofs::LineSteps::ascii_steps), unfolding(crate::specs::OnLine::on_line))]
pub fn write_on_line<W: Write + Drop>(text: &[u8], out: &mut W) -> io::Result<()>
    ensures { Writes W.contents out.old out.new result (on_line text.now) }
{
    if text.is_ascii() {
        return out.write_all(text);
    }
    write_characters(text.chars(), out)
}

#[tactic(auto, using(contract_words::proofs::TextSteps::puts))]
fn write_characters<W: Write + Drop>(characters: Chars<'_>, out: &mut W) -> io::Result<()>
    ensures { Writes W.contents out.old out.new result (flat_map character_on_line characters.entry) }
{
    for character in characters {
        write_character(character, out)?;
    }
    Ok(())
}

#[tactic(auto, unfolding(crate::specs::OnLine::character_on_line))]
fn write_character<W: Write + Drop>(character: char, out: &mut W) -> io::Result<()>
    ensures { Writes W.contents out.old out.new result (character_on_line character) }
{
    if breaks_line(character) {
        write_unit(character as u16, out)
    } else {
        out.write_all(character.encode_utf8(&mut [0; 4]).as_bytes())
    }
}

fn write_unit<W: Write + Drop>(unit: u16, out: &mut W) -> io::Result<()>
    ensures { Writes W.contents out.old out.new result (unit_escape unit) }
{
    out.write_all(b"\\u")?;
    write_hex(&unit.to_be_bytes(), out)
}
