//! Dimensions and fractions as XML writes them.

ghost use Rattle.std.specs.Prelude.{◌≡◌, ◌≤◌, ◌++◌, map, Some, unwrap_or, OnOk};
ghost use Rattle.contract_words.specs.Writes.{Writes};
ghost use Rattle.res_value.specs.Complex.{mantissa_of, radix_of, unit_of, dimension_units, fraction_units};
ghost use Rattle.notation.specs.Decimal.{decimal_text, IsSmall};
ghost use Rattle.notation.specs.ComplexNotation.{size_of, sign_of, spare_bits, has_own_radix, exact_of, with_unit, complex_notation};
ghost use Rattle.notation.specs.XmlText.{exact_text};

use crate::exact::{Exact, write_decimal};
use crate::exact_text::write_exact;
use res_value::Value;
use std::io::{self, Write};

// Where the parts stand in the word (AOSP: `Res_value::COMPLEX_MANTISSA_SHIFT` and on).
const MANTISSA_SHIFT: u32 = 8;

const RADIX_SHIFT: u32 = 4;

const RADIX_MASK: u32 = 0x3;

const UNIT_MASK: u32 = 0xf;

const SPARE_SHIFT: u32 = 6;

const SPARE_MASK: u32 = 0x3;

// How many bits stand behind the point (AOSP: `COMPLEX_RADIX_23p0`, `16p7`, `8p15`, `0p23`).
const RADIXES: [u32; 4] = [0, 7, 15, 23];

/// The most of them.
const MOST_RADIX: u32 = 23;

/// A number of this size has no room for more of them.
const FULL_SIZE: u32 = 1 << 15;

/// The units of a dimension (AOSP: `COMPLEX_UNIT_PX`, `DIP`, `SP`, `PT`, `IN`, `MM`).
pub(crate) const DIMENSION_UNITS: [&[u8]; 6] = [b"px", b"dp", b"sp", b"pt", b"in", b"mm"];

/// The units of a fraction (AOSP: `COMPLEX_UNIT_FRACTION`, `COMPLEX_UNIT_FRACTION_PARENT`).
pub(crate) const FRACTION_UNITS: [&[u8]; 2] = [b"%", b"%p"];

/// Writes a number in one of these units, times so much: `34.5sp`.
#[tactic(auto, unfolding(crate::specs::ComplexNotation::complex_notation))]
pub(crate) fn write_complex<W: Write + Drop>(
    value: Value,
    times: u32,
    units: &[&[u8]],
    out: &mut W,
) -> io::Result<()>
    requires { times ≤ 100 }
    ensures { Writes W.contents out.old out.new result
        (unwrap_or (complex_notation times (map (λ unit. unit.now) units.entry.now) value.word) (exact_text value)) }
{
    let word = value.word;
    match units.get(unit(word)) {
        Some(unit) if spare_bits(word) == 0 && has_own_radix(word) => {
            write_number(word, times, unit, out)
        }
        _ => write_exact(value, out),
    }
}

fn write_number<W: Write + Drop>(word: u32, times: u32, unit: &[u8], out: &mut W) -> io::Result<()>
    requires { times ≤ 100 }
    ensures { Writes W.contents out.old out.new result (sign_of word ++ decimal_text (exact_of times word) ++ unit.now) }
{
    write_sign(word, out)?;
    write_decimal(exact(word, times), out)?;
    out.write_all(unit)
}

fn write_sign<W: Write + Drop>(word: u32, out: &mut W) -> io::Result<()>
    ensures { Writes W.contents out.old out.new result (sign_of word) }
{
    if mantissa(word) < 0 {
        return out.write_all(b"-");
    }
    Ok(())
}

fn exact(word: u32, times: u32) -> Exact
    requires { times ≤ 100 }
    ensures value { result ≡ exact_of times word }
    ensures small { IsSmall result }
{
    Exact {
        number: u64::from(times) * u64::from(size(word)),
        last: u64::from(times),
        radix: radix(word),
    }
}

/// The bits that say nothing.
pub(crate) fn spare_bits(word: u32) -> u32
    ensures { result ≡ spare_bits word }
{
    word >> SPARE_SHIFT & SPARE_MASK
}

// As tools write the number.
fn has_own_radix(word: u32) -> bool
    ensures { result ≡ has_own_radix word }
{
    let radix = radix(word);
    radix == 0
        || (size(word) % (1 << radix) != 0 && (radix == MOST_RADIX || size(word) >= FULL_SIZE))
}

fn size(word: u32) -> u32
    ensures value { result ≡ size_of word }
    ensures few { result ≤ 8388608 }
{
    mantissa(word).unsigned_abs()
}

fn mantissa(word: u32) -> i32
    ensures { result ≡ mantissa_of word }
{
    word.cast_signed() >> MANTISSA_SHIFT
}

fn radix(word: u32) -> u32
    ensures value { result ≡ radix_of word }
    ensures few { result ≤ 23 }
{
    RADIXES[(word >> RADIX_SHIFT & RADIX_MASK) as usize]
}

fn unit(word: u32) -> usize
    ensures { result ≡ unit_of word }
{
    (word & UNIT_MASK) as usize
}
