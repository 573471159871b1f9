//! Floats as decimals.

ghost use Rattle.std.specs.Prelude.{◌≡◌, ◌≤◌, ◌^◌, ◌-◌, ◌++◌, unwrap_or, OnOk};
ghost use Rattle.contract_words.specs.Writes.{Writes};
ghost use Rattle.notation.specs.Decimal.{IsSmall};
ghost use Rattle.notation.specs.FloatNotation.{exponent_of, fraction_of, float_sign, gap_of, exact_float, has_decimal, at_least_one, float_decimal, float_notation};
ghost use Rattle.notation.specs.XmlText.{exact_text};

use crate::exact::{Exact, places, write_with};
use crate::exact_text::write_exact;
use res_value::Value;
use std::io::{self, Write};

const SIGN: u32 = 1 << 31;

const FRACTION_BITS: u32 = 23;

const FRACTION_MASK: u32 = (1 << FRACTION_BITS) - 1;

const EXPONENT_MASK: u32 = 0xff;

/// Below this exponent the halves of the last bit stand behind the point.
const WHOLE_HALVES: u32 = 151;

// The exponents of floats that are written as decimals.
const LEAST_EXPONENT: u32 = 92;

const MOST_EXPONENT: u32 = 185;

/// Writes `1.5`.
#[tactic(auto, unfolding(crate::specs::FloatNotation::float_notation))]
pub(crate) fn write_float<W: Write + Drop>(value: Value, out: &mut W) -> io::Result<()>
    ensures { Writes W.contents out.old out.new result
        (unwrap_or (float_notation value.word) (exact_text value)) }
{
    let word = value.word;
    if word & !SIGN == 0 {
        write_sign(word, out)?;
        return out.write_all(b"0.0");
    }
    if !has_decimal(word) {
        return write_exact(value, out);
    }
    write_sign(word, out)?;
    write_float_decimal(exact_float(word), out)
}

fn write_sign<W: Write + Drop>(word: u32, out: &mut W) -> io::Result<()>
    ensures { Writes W.contents out.old out.new result (float_sign word) }
{
    if word >> 31 == 0 {
        return Ok(());
    }
    out.write_all(b"-")
}

fn has_decimal(word: u32) -> bool
    ensures { result ≡ has_decimal word }
{
    exponent(word) >= LEAST_EXPONENT && exponent(word) <= MOST_EXPONENT
}

fn exponent(word: u32) -> u32
    ensures { result ≡ exponent_of word }
{
    word >> FRACTION_BITS & EXPONENT_MASK
}

fn fraction(word: u32) -> u32
    ensures { result ≡ fraction_of word }
{
    word & FRACTION_MASK
}

#[tactic(auto, unfolding(crate::specs::FloatNotation::exact_float))]
fn exact_float(word: u32) -> Exact
    requires least { 92 ≤ exponent_of word }
    requires most { exponent_of word ≤ 185 }
    ensures value { result ≡ exact_float word }
    ensures small { IsSmall result }
{
    let scale = scale(word);
    Exact {
        number: 2 * u64::from((1 << FRACTION_BITS) + fraction(word)) * scale,
        last: gap(word) * scale,
        radix: WHOLE_HALVES.saturating_sub(exponent(word)),
    }
}

fn scale(word: u32) -> u64
    requires { exponent_of word ≤ 185 }
    ensures value { result ≡ 2 ^ (exponent_of word - 151) }
    ensures few { result ≤ 2 ^ 34 }
{
    2u64.pow(exponent(word).saturating_sub(WHOLE_HALVES))
}

// How far apart a float and its next are, in halves.
fn gap(word: u32) -> u64
    ensures value { result ≡ gap_of word }
    ensures few { result ≤ 2 }
{
    if fraction(word) == 0 { 1 } else { 2 }
}

// With a digit behind the point.
#[tactic(auto, unfolding(crate::specs::FloatNotation::float_decimal))]
fn write_float_decimal<W: Write + Drop>(exact: Exact, out: &mut W) -> io::Result<()>
    requires { IsSmall exact }
    ensures { Writes W.contents out.old out.new result (float_decimal exact) }
{
    write_with(exact, at_least_one(places(exact)), out)
}

fn at_least_one(places: u32) -> u32
    ensures { result ≡ at_least_one places }
{
    if places == 0 { 1 } else { places }
}
