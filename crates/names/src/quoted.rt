//! Names and strings between quotes, written.

ghost use Rattle.std.specs.Prelude.{◌≡◌};
ghost use Rattle.std.specs.List.{flat_map};
ghost use Rattle.contract_words.specs.Writes.{Writes};
ghost use Rattle.string_pool.specs.Shown.{byte_escape, character_text, unit_escape};
ghost use Rattle.names.specs.Quoted.{quoted_character, quoted_text};

use crate::plain::breaks_line;
use bstr::{ByteSlice, Chars};
use res_value::write_hex;
use std::io::{self, Write};

/// Writes a text between quotes, as strings are shown, in which no character ends the line or turns its direction.
#[tactic(auto, unfolding(crate::specs::Quoted::quoted_text))]
pub fn write_quoted<W: Write + Drop>(text: &[u8], out: &mut W) -> io::Result<()>
    ensures { Writes W.contents out.old out.new result (quoted_text text.now) }
{
    out.write_all(b"\"")?;
    write_characters(text.chars(), out)?;
    out.write_all(b"\"")
}

#[tactic(auto, using(contract_words::proofs::TextSteps::puts))]
fn write_characters<W: Write + Drop>(characters: Chars<'_>, out: &mut W) -> io::Result<()>
    ensures { Writes W.contents out.old out.new result (flat_map quoted_character characters.entry) }
{
    for character in characters {
        write_character(character, out)?;
    }
    Ok(())
}

#[tactic(auto, unfolding(crate::specs::Quoted::quoted_character))]
fn write_character<W: Write + Drop>(character: char, out: &mut W) -> io::Result<()>
    ensures { Writes W.contents out.old out.new result (quoted_character character) }
{
    if breaks_line(character) {
        write_unit(character as u16, out)
    } else {
        write_plain(character, out)
    }
}

fn write_plain<W: Write + Drop>(character: char, out: &mut W) -> io::Result<()>
    ensures { Writes W.contents out.old out.new result (character_text character) }
{
    match character {
        '"' | '\\' => out.write_all(&[b'\\', character as u8]),
        _ if character.is_ascii_control() => write_byte(character as u8, out),
        _ => out.write_all(character.encode_utf8(&mut [0; 4]).as_bytes()),
    }
}

fn write_byte<W: Write + Drop>(byte: u8, out: &mut W) -> io::Result<()>
    ensures { Writes W.contents out.old out.new result (byte_escape byte) }
{
    out.write_all(b"\\x")?;
    write_hex(&[byte], out)
}

fn write_unit<W: Write + Drop>(unit: u16, out: &mut W) -> io::Result<()>
    ensures { Writes W.contents out.old out.new result (unit_escape unit) }
{
    out.write_all(b"\\u")?;
    write_hex(&unit.to_be_bytes(), out)
}
