//! Colours by the digits that were written.

ghost use Rattle.std.specs.Prelude.{◌≡◌, unwrap_or, OnOk};
ghost use Rattle.contract_words.specs.Writes.{Writes};
ghost use Rattle.res_value.specs.Word.{eight_digits};
ghost use Rattle.notation.specs.ColorNotation.{is_doubled, is_opaque, hash_text, argb8_notation, rgb8_notation, argb4_notation, rgb4_notation};
ghost use Rattle.notation.specs.XmlText.{exact_text};

use crate::exact_text::write_exact;
use chunk_walk::word_digits;
use res_value::Value;
use std::io::{self, Write};

/// The digits of a word.
type Digits = [u8; 8];

/// Writes `#aarrggbb`.
pub(crate) fn write_argb8<W: Write + Drop>(value: Value, out: &mut W) -> io::Result<()>
    ensures { Writes W.contents out.old out.new result
        (unwrap_or (argb8_notation (eight_digits value.word)) (exact_text value)) }
{
    write_hash(&digits(value.word), out)
}

/// Writes `#rrggbb`.
pub(crate) fn write_rgb8<W: Write + Drop>(value: Value, out: &mut W) -> io::Result<()>
    ensures { Writes W.contents out.old out.new result
        (unwrap_or (rgb8_notation (eight_digits value.word)) (exact_text value)) }
{
    let digits = digits(value.word);
    if !is_opaque(digits) {
        return write_exact(value, out);
    }
    write_hash(&digits[2..], out)
}

/// Writes `#argb`.
pub(crate) fn write_argb4<W: Write + Drop>(value: Value, out: &mut W) -> io::Result<()>
    ensures { Writes W.contents out.old out.new result
        (unwrap_or (argb4_notation (eight_digits value.word)) (exact_text value)) }
{
    let digits = digits(value.word);
    if !is_doubled(digits) {
        return write_exact(value, out);
    }
    let [a, _, r, _, g, _, b, _] = digits;
    write_hash(&[a, r, g, b], out)
}

/// Writes `#rgb`.
pub(crate) fn write_rgb4<W: Write + Drop>(value: Value, out: &mut W) -> io::Result<()>
    ensures { Writes W.contents out.old out.new result
        (unwrap_or (rgb4_notation (eight_digits value.word)) (exact_text value)) }
{
    let digits = digits(value.word);
    if !(is_doubled(digits) && is_opaque(digits)) {
        return write_exact(value, out);
    }
    let [_, _, r, _, g, _, b, _] = digits;
    write_hash(&[r, g, b], out)
}

fn write_hash<W: Write + Drop>(digits: &[u8], out: &mut W) -> io::Result<()>
    ensures { Writes W.contents out.old out.new result (hash_text digits.now) }
{
    out.write_all(b"#")?;
    out.write_all(digits)
}

#[tactic(auto, unfolding(res_value::specs::Word::eight_digits))]
fn digits(word: u32) -> Digits
    ensures { result ≡ eight_digits word }
{
    word_digits(word)
}

// Each two digits are one, written twice.
fn is_doubled(digits: Digits) -> bool
    ensures { result ≡ is_doubled digits }
{
    let [a, b, c, d, e, f, g, h] = digits;
    a == b && c == d && e == f && g == h
}

fn is_opaque(digits: Digits) -> bool
    ensures { result ≡ is_opaque digits }
{
    let [first, second, ..] = digits;
    first == b'f' && second == b'f'
}
