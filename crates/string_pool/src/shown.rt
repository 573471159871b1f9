//! How strings are shown.

ghost use Rattle.std.specs.Prelude.{◌≡◌, ◌||◌, ◌++◌, ◌<◌, ◌≤◌, length, MatchOption, OnOk};
ghost use Rattle.contract_words.specs.Writes.{Writes};
ghost use Rattle.string_pool.specs.Escapes.{escape_text, IsPlain, BeginsPlain, BeginsEscape, piece_text};
ghost use Rattle.string_pool.specs.Shown.{takes_backslash, is_control, character_text, bytes_text, units_text, unit_escape, string_text};
ghost use Rattle.string_pool.specs.Text.{seen_text};
ghost use Rattle.string_pool.specs.Units.{units_in};

use crate::plain::{is_plain_ascii, is_plain_text};
use crate::text::Text;
use crate::units::first_character;
use arrayvec::ArrayVec;
use chunk_walk::write_hex;
use std::io::{self, Write};
use string_bytes::StringFault;

/// Writes what was asked for: a string between quotes, or the name of its fault behind `!`.
#[tactic(auto, unfolding(crate::specs::Shown::string_text))]
pub fn write_string<W: Write + Drop>(
    string: Result<Text<'_>, StringFault>,
    out: &mut W,
) -> io::Result<()>
    ensures { Writes W.contents out.old out.new result (string_text (seen_text string.entry)) }
{
    match string {
        Ok(text) => text.write_shown(out),
        Err(StringFault::NoSuch) => out.write_all(b"!NoSuch"),
        Err(StringFault::Cut) => out.write_all(b"!Cut"),
        Err(StringFault::NotEnded) => out.write_all(b"!NotEnded"),
    }
}

/// How many bytes of UTF-8 are put together before they are written, from characters of UTF-16 that stand for
/// themselves.
const RUN: usize = 64;

/// Writes bytes that are read as UTF-8.
pub(crate) fn write_bytes<W: Write + Drop>(bytes: &[u8], out: &mut W) -> io::Result<()>
    ensures { Writes W.contents out.old out.new result (bytes_text bytes.now) }
{
    if is_plain_text(bytes) {
        return out.write_all(bytes);
    }
    write_runs(bytes, out)
}

// Writes bytes that are read as UTF-8, each run of what stands for itself in one piece.
#[tactic(auto, using(crate::proofs::WriteSteps::writes))]
fn write_runs<W: Write + Drop>(bytes: &[u8], out: &mut W) -> io::Result<()>
    ensures { Writes W.contents out.old out.new result (bytes_text bytes.now) }
{
    let mut left = bytes;
    loop {
        let (plain, behind) = split_plain(left);
        out.write_all(plain)?;
        let Some((byte, others)) = behind.split_first() else {
            return Ok(());
        };
        write_escape(*byte, out)?;
        left = others;
    }
}

/// Writes bytes that are read as UTF-16, runs of what stands for itself in one piece.
#[tactic(auto, using(crate::proofs::WriteSteps::writes))]
pub(crate) fn write_units<W: Write + Drop>(bytes: &[u8], out: &mut W) -> io::Result<()>
    ensures { Writes W.contents out.old out.new result (units_text (units_in bytes.now)) }
{
    let mut left = bytes;
    loop {
        let (run, behind) = plain_units(left);
        out.write_all(&run)?;
        let Some((piece, others)) = first_character(behind) else {
            return Ok(());
        };
        write_piece(piece, out)?;
        left = others;
    }
}

// The characters at the front that stand for themselves, as UTF-8, or the first of them, and the bytes behind them.
#[tactic(auto, using(crate::proofs::UnitTexts::run_steps))]
fn plain_units(left: &[u8]) -> (ArrayVec<u8, RUN>, &[u8])
    ensures text { units_text (units_in left.now) ≡ result.0.items ++ units_text (units_in result.1.now) }
    ensures shorter { length result.1.now ≤ length left.now }
{
    let mut run = ArrayVec::new();
    let mut behind = left;
    while let Some((Ok(character), others)) = first_character(behind) {
        if is_escaped(character) {
            break;
        }
        let mut bytes = [0; 4];
        let text = character.encode_utf8(&mut bytes);
        if run.try_extend_from_slice(text.as_bytes()).is_err() {
            break;
        }
        behind = others;
    }
    (run, behind)
}

// What stands for itself at the front, and the bytes behind it.
#[tactic(auto, using(crate::proofs::ByteTexts::run_steps))]
fn split_plain(left: &[u8]) -> (&[u8], &[u8])
    ensures text { bytes_text left.now ≡ result.0.now ++ bytes_text result.1.now }
    ensures ends { BeginsEscape result.1.now }
    ensures shorter { length result.1.now ≤ length left.now }
{
    let mut length = 0;
    while let Some(width) = plain_width(&left[length..]) {
        length += width;
    }
    left.split_at(length)
}

// How many bytes the first character takes, if it stands for itself, or the first characters of ASCII.
#[tactic(auto, using(crate::proofs::ByteTexts::plain_steps))]
fn plain_width(left: &[u8]) -> Option<usize>
    ensures { MatchOption result (BeginsEscape left.now) (λ width. IsPlain left.now width × (0 < width)) }
{
    let byte = *left.first()?;
    if byte.is_ascii() {
        return (!is_escaped(char::from(byte))).then_some(ascii_width(left));
    }
    match bstr::decode_utf8(left) {
        (Some(_), width) => Some(width),
        (None, _) => None,
    }
}

// How many characters of ASCII stand at the front that stand for themselves.
fn ascii_width(left: &[u8]) -> usize
    ensures plain { IsPlain left.now result }
    ensures some { BeginsPlain left.now → 0 < result }
{
    let mut width = 0;
    while width < left.len() && is_plain_ascii(left[width]) {
        width += 1;
    }
    width
}

// Whether a character is not shown as itself.
fn is_escaped(character: char) -> bool
    ensures { result ≡ (takes_backslash character || is_control character) }
{
    matches!(character, '"' | '\\') || character.is_ascii_control()
}

// Writes a character or a lone surrogate.
fn write_piece<W: Write + Drop>(piece: Result<char, u16>, out: &mut W) -> io::Result<()>
    ensures { Writes W.contents out.old out.new result (piece_text piece) }
{
    match piece {
        Ok(character) => write_character(character, out),
        Err(unit) => write_surrogate(unit, out),
    }
}

fn write_character<W: Write + Drop>(character: char, out: &mut W) -> io::Result<()>
    ensures { Writes W.contents out.old out.new result (character_text character) }
{
    if is_escaped(character) {
        return write_escape(character as u8, out);
    }
    out.write_all(character.encode_utf8(&mut [0; 4]).as_bytes())
}

fn write_escape<W: Write + Drop>(byte: u8, out: &mut W) -> io::Result<()>
    ensures { Writes W.contents out.old out.new result (escape_text byte) }
{
    match byte {
        b'"' | b'\\' => out.write_all(&[b'\\', byte]),
        _ => {
            out.write_all(b"\\x")?;
            write_hex(&[byte], out)
        }
    }
}

fn write_surrogate<W: Write + Drop>(unit: u16, out: &mut W) -> io::Result<()>
    ensures { Writes W.contents out.old out.new result (unit_escape unit) }
{
    out.write_all(b"\\u")?;
    write_hex(&unit.to_be_bytes(), out)
}
