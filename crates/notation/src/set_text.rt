//! What a part of a box has at a coordinate.

ghost use Rattle.std.specs.Prelude.{◌≡◌, ◌+◌, ◌++◌, List, ℕ, [], length, codes, OnOk};
ghost use Rattle.std.specs.Fmt.{decimal};
ghost use Rattle.contract_words.specs.Writes.{Writes};
ghost use Rattle.config_box.specs.BoxSeen.{values_seen};
ghost use Rattle.config_box.specs.box_answers.NumberSet.{locale_numbers};
ghost use Rattle.notation.specs.NumberWord.{letters_of, in_letters, number_word};
ghost use Rattle.notation.specs.LocaleWord.{locale_word};
ghost use Rattle.notation.specs.DevicesNotation.{are_most, choice_text, numbers_in, locales_in, begins_with, ends_with, bounds_text, range_text, set_text};

use crate::lists::{write_locales_but, write_numbers_but};
use crate::number_word::{Letters, letters_at, write_in_letters, write_number_word};
use config_box::{Coord, Locale, Values};
use std::io::{self, Write};

/// Of a list of at least so many words those that are not there are written, where they are fewer.
const LONG_LIST: usize = 5;

/// Writes what a part has at a coordinate, beside what the whole has there.
#[tactic(auto, unfolding(crate::specs::DevicesNotation::set_text))]
pub(crate) fn write_set<W: Write + Drop>(
    coord: Coord,
    whole: Values<'_>,
    part: Values<'_>,
    out: &mut W,
) -> io::Result<()>
    ensures { Writes W.contents out.old out.new result (set_text coord (values_seen whole.entry) (values_seen part.entry)) }
{
    match part {
        Values::Range(low, high) => write_range(coord, whole, low, high, out),
        Values::Numbers(numbers) => write_numbers(coord, numbers_in(whole), numbers, out),
        Values::Locales(locales) => write_locales(locales_in(whole), locales, out),
    }
}

// ---- ranges

#[tactic(auto, unfolding(crate::specs::DevicesNotation::range_text))]
fn write_range<W: Write + Drop>(
    coord: Coord,
    whole: Values<'_>,
    low: u32,
    high: u32,
    out: &mut W,
) -> io::Result<()>
    ensures { Writes W.contents out.old out.new result (range_text coord (values_seen whole.entry) low high) }
{
    if low == high {
        return write_number_word(coord, low, out);
    }
    write_bounds(letters_at(coord), whole, low, high, out)
}

fn write_bounds<W: Write + Drop>(
    letters: Letters,
    whole: Values<'_>,
    low: u32,
    high: u32,
    out: &mut W,
) -> io::Result<()>
    ensures { Writes W.contents out.old out.new result (bounds_text (letters_of letters) (values_seen whole.entry) low high) }
{
    if begins_with(whole, low) {
        write_below(letters, high, out)
    } else if ends_with(whole, high) {
        write_in_letters(letters, b">=", u64::from(low), out)
    } else {
        write_between(letters, low, high, out)
    }
}

fn begins_with(whole: Values<'_>, number: u32) -> bool
    ensures { result ≡ begins_with (values_seen whole.entry) number }
{
    match whole {
        Values::Range(low, _) => low == number,
        _ => false,
    }
}

fn ends_with(whole: Values<'_>, number: u32) -> bool
    ensures { result ≡ ends_with (values_seen whole.entry) number }
{
    match whole {
        Values::Range(_, high) => high == number,
        _ => false,
    }
}

/// Writes `sw<600dp`, up to 599.
pub(crate) fn write_below<W: Write + Drop>(
    letters: Letters,
    most: u32,
    out: &mut W,
) -> io::Result<()>
    ensures { Writes W.contents out.old out.new result (in_letters (letters_of letters) (codes "<") (decimal (most + 1))) }
{
    write_in_letters(letters, b"<", u64::from(most) + 1, out)
}

fn write_between<W: Write + Drop>(
    letters: Letters,
    low: u32,
    high: u32,
    out: &mut W,
) -> io::Result<()>
    ensures { Writes W.contents out.old out.new result
        (in_letters (letters_of letters) (letters_of letters).sign (decimal low ++ codes ".." ++ decimal high)) }
{
    out.write_all(letters.front)?;
    out.write_all(letters.sign)?;
    write!(out, "{low}..{high}")?;
    out.write_all(letters.end)
}

// ---- lists

fn numbers_in(values: Values<'_>) -> &[u32]
    ensures { result.now ≡ numbers_in (values_seen values.entry) }
{
    match values {
        Values::Numbers(numbers) => numbers,
        _ => &[],
    }
}

fn locales_in(values: Values<'_>) -> &[Locale]
    ensures { locale_numbers result.now ≡ locales_in (values_seen values.entry) }
{
    match values {
        Values::Locales(locales) => locales,
        _ => &[],
    }
}

#[tactic(auto, unfolding(crate::specs::DevicesNotation::choice_text))]
fn write_numbers<W: Write + Drop>(
    coord: Coord,
    all: &[u32],
    numbers: &[u32],
    out: &mut W,
) -> io::Result<()>
    ensures { Writes W.contents out.old out.new result (choice_text (number_word coord) all.now numbers.now) }
{
    if are_most(all.len(), numbers.len()) {
        out.write_all(b"all but ")?;
        write_numbers_but(coord, numbers, all, out)
    } else {
        write_numbers_but(coord, &[], numbers, out)
    }
}

#[tactic(auto, unfolding(crate::specs::DevicesNotation::choice_text))]
fn write_locales<W: Write + Drop>(all: &[Locale], locales: &[Locale], out: &mut W) -> io::Result<()>
    ensures { Writes W.contents out.old out.new result
        (choice_text locale_word (locale_numbers all.now) (locale_numbers locales.now)) }
{
    if are_most(all.len(), locales.len()) {
        out.write_all(b"all but ")?;
        write_locales_but(locales, all, out)
    } else {
        write_locales_but(&[], locales, out)
    }
}

fn are_most(all: usize, part: usize) -> bool
    ensures { (whole some : List ℕ) → length whole ≡ all → length some ≡ part → result ≡ are_most whole some }
{
    all >= LONG_LIST && part > all / 2
}
