//! Dimensions and fractions: a number, where its point stands, and a unit, all in one word.

ghost use Rattle.std.specs.Prelude.{◌≡◌, ◌++◌, map, codes, OnOk};
ghost use Rattle.std.specs.Fmt.{decimal, signed_decimal};
ghost use Rattle.contract_words.specs.Writes.{Writes};
ghost use Rattle.res_value.specs.Complex.{mantissa_of, radix_of, unit_text, complex_text};

use std::io::{self, Write};

// Where the parts stand in the word (AOSP: `Res_value::COMPLEX_MANTISSA_SHIFT` and on).
const MANTISSA_SHIFT: u32 = 8;

const RADIX_SHIFT: u32 = 4;

const RADIX_MASK: u32 = 0x3;

const UNIT_MASK: u32 = 0xf;

// How many bits stand behind the point (AOSP: `COMPLEX_RADIX_23p0`, `16p7`, `8p15`, `0p23`).
const RADIXES: [u32; 4] = [0, 7, 15, 23];

/// The units of a dimension (AOSP: `COMPLEX_UNIT_PX`, `DIP`, `SP`, `PT`, `IN`, `MM`).
pub(crate) const DIMENSION_UNITS: [&str; 6] = ["px", "dp", "sp", "pt", "in", "mm"];

/// The units of a fraction (AOSP: `COMPLEX_UNIT_FRACTION`, `COMPLEX_UNIT_FRACTION_PARENT`).
pub(crate) const FRACTION_UNITS: [&str; 2] = ["%", "%p"];

/// Writes what stands before a dimension or a fraction, its number, and its unit, one of those
/// named.
#[tactic(auto, unfolding(crate::specs::Complex::complex_text))]
pub(crate) fn write_complex<W: Write + Drop>(
    before: &str,
    word: u32,
    units: &[&str],
    out: &mut W,
) -> io::Result<()>
    ensures { Writes W.contents out.old out.new result
        (before.now ++ complex_text (map (λ name. name.now) units.entry.now) word) }
{
    out.write_all(before.as_bytes())?;
    write_number(word, out)?;
    write_unit(word & UNIT_MASK, units, out)
}

// Writes all but the unit.
fn write_number<W: Write + Drop>(word: u32, out: &mut W) -> io::Result<()>
    ensures { Writes W.contents out.old out.new result
        (signed_decimal (mantissa_of word) ++ codes "/2^" ++ decimal (radix_of word) ++ codes " ") }
{
    let number = mantissa(word);
    let bits = radix(word);
    write!(out, "{number}/2^{bits} ")
}

// Writes a unit by its name, or by its number where it has none.
fn write_unit<W: Write + Drop>(unit: u32, names: &[&str], out: &mut W) -> io::Result<()>
    ensures { Writes W.contents out.old out.new result
        (unit_text (map (λ name. name.now) names.entry.now) unit) }
{
    match names.get(unit as usize) {
        Some(name) => write!(out, "{name}"),
        None => write!(out, "unit {unit}"),
    }
}

// The number, as if its point stood at the end.
fn mantissa(word: u32) -> i32
    ensures { result ≡ mantissa_of word }
{
    word.cast_signed() >> MANTISSA_SHIFT
}

// How many bits of the number stand behind its point.
fn radix(word: u32) -> u32
    ensures { result ≡ radix_of word }
{
    RADIXES[(word >> RADIX_SHIFT & RADIX_MASK) as usize]
}
