//! Exact numbers over a power of two, and their decimals.

ghost use Rattle.std.specs.Prelude.{◌≡◌, ◌≤◌, ◌<◌, ◌+◌, ◌*◌, ◌^◌, OnOk};
ghost use Rattle.contract_words.specs.Writes.{Writes};
ghost use Rattle.notation.specs.Decimal.{nearest, distance, is_near, places_of, behind_point, with_point, decimal_with, decimal_text, IsSmall};

use itoa::Buffer;
use std::io::{self, Write};

/// No number that is asked for needs more digits behind the point.
const MOST_PLACES: u32 = 18;

/// The number `number / 2^radix`, of which the last place is `last / 2^radix`.
#[derive(Clone, Copy)]
pub(crate) struct Exact {
    pub number: u64,
    pub last: u64,
    pub radix: u32,
}

/// Writes the decimal with the fewest digits behind the point that is nearer than half of the last place.
#[tactic(auto, unfolding(crate::specs::Decimal::decimal_text))]
pub(crate) fn write_decimal<W: Write + Drop>(exact: Exact, out: &mut W) -> io::Result<()>
    requires { IsSmall exact }
    ensures { Writes W.contents out.old out.new result (decimal_text exact) }
{
    write_with(exact, places(exact), out)
}

/// How many digits these are.
#[tactic(auto, unfolding(crate::specs::Decimal::places_of), using(res_value::proofs::MapRowsSteps::search_steps))]
pub(crate) fn places(exact: Exact) -> u32
    requires { IsSmall exact }
    ensures value { result ≡ places_of exact }
    ensures few { result ≤ 18 }
{
    'places: for places in 0..MOST_PLACES {
        if is_near(exact, places) {
            return places;
        }
    }
    MOST_PLACES
}

#[tactic(auto, unfolding(crate::specs::Decimal::is_near))]
fn is_near(exact: Exact, places: u32) -> bool
    requires small { IsSmall exact }
    requires few { places ≤ 18 }
    ensures { result ≡ is_near exact places }
{
    2 * distance(exact, places) < u128::from(exact.last) * ten_to(places)
}

fn distance(exact: Exact, places: u32) -> u128
    requires small { IsSmall exact }
    requires few { places ≤ 18 }
    ensures value { result ≡ distance exact places }
    ensures fits { result < 2 ^ 121 }
{
    let number = u128::from(exact.number) * ten_to(places);
    (nearest(exact, places) * two_to(exact.radix)).abs_diff(number)
}

fn nearest(exact: Exact, places: u32) -> u128
    requires small { IsSmall exact }
    requires few { places ≤ 18 }
    ensures value { result ≡ nearest exact places }
    ensures fits { result * 2 ^ exact.radix ≤ exact.number * 10 ^ places + 2 ^ exact.radix }
{
    let doubled = 2 * u128::from(exact.number) * ten_to(places);
    (doubled + two_to(exact.radix)) / two_to(exact.radix + 1)
}

fn ten_to(places: u32) -> u128
    requires { places ≤ 18 }
    ensures value { result ≡ 10 ^ places }
    ensures most { result ≤ 10 ^ 18 }
    ensures least { 1 ≤ result }
{
    10u128.pow(places)
}

fn two_to(radix: u32) -> u128
    requires { radix ≤ 60 }
    ensures value { result ≡ 2 ^ radix }
    ensures most { result ≤ 2 ^ 60 }
    ensures least { 1 ≤ result }
{
    2u128.pow(radix)
}

/// Writes the nearest decimal with so many digits behind the point.
pub(crate) fn write_with<W: Write + Drop>(exact: Exact, places: u32, out: &mut W) -> io::Result<()>
    requires small { IsSmall exact }
    requires few { places ≤ 18 }
    ensures { Writes W.contents out.old out.new result (decimal_with exact places) }
{
    let units = nearest(exact, places);
    let ten = ten_to(places);
    let whole = units / ten;
    write!(out, "{whole}")?;
    write_behind_point(places, units % ten, out)
}

// A point, and so many digits.
#[tactic(auto, using(crate::proofs::DecimalSteps::has_first))]
fn write_behind_point<W: Write + Drop>(places: u32, number: u128, out: &mut W) -> io::Result<()>
    requires few { places ≤ 18 }
    requires within { number < 10 ^ places }
    ensures { Writes W.contents out.old out.new result (behind_point places number) }
{
    if places == 0 {
        return Ok(());
    }
    let marked = ten_to(places) + number;
    let mut text = Buffer::new();
    out.write_all(b".")?;
    out.write_all(&text.format(marked).as_bytes()[1..])
}
