//! Lists of words, with commas between them.

ghost use Rattle.std.specs.Prelude.{◌≡◌, length, OnOk};
ghost use Rattle.contract_words.specs.Writes.{Writes};
ghost use Rattle.config_box.specs.box_answers.NumberSet.{locale_numbers};
ghost use Rattle.config_record.specs.locales.LocaleNumber.{locale_number};
ghost use Rattle.notation.specs.Dashes.{WritesBetween};
ghost use Rattle.notation.specs.NumberWord.{number_word};
ghost use Rattle.notation.specs.LocaleWord.{locale_word};
ghost use Rattle.notation.specs.DevicesNotation.{comma, word_unless, listed_but};

use crate::locale_word::write_locale_word;
use crate::number_word::write_number_word;
use crate::separator::write_separator;
use box_answers::{has_locale, has_number};
use config_box::{Coord, Locale};
use std::io::{self, Write};

/// Writes the words of numbers, without those of others.
pub(crate) fn write_numbers_but<W: Write + Drop>(
    coord: Coord,
    others: &[u32],
    numbers: &[u32],
    out: &mut W,
) -> io::Result<()>
    ensures { Writes W.contents out.old out.new result (listed_but (number_word coord) others.now numbers.now) }
{
    let mut due = false;
    for number in numbers {
        write_number_unless(coord, others, *number, &mut due, out)?;
    }
    Ok(())
}

#[tactic(auto, unfolding(crate::specs::DevicesNotation::word_unless, config_record::specs::Separator::continued))]
fn write_number_unless<W: Write + Drop>(
    coord: Coord,
    others: &[u32],
    number: u32,
    due: &mut bool,
    out: &mut W,
) -> io::Result<()>
    ensures { OnOk result (WritesBetween comma due.old due.new (W.contents out.old) (W.contents out.new)
        (word_unless (number_word coord) others.now number)) }
{
    if has_number(others, u64::from(number)) {
        return Ok(());
    }
    write_separator(b',', due, out)?;
    write_number_word(coord, number, out)
}

/// Writes the words of locales, without those of others.
pub(crate) fn write_locales_but<W: Write + Drop>(
    others: &[Locale],
    locales: &[Locale],
    out: &mut W,
) -> io::Result<()>
    ensures { Writes W.contents out.old out.new result
        (listed_but locale_word (locale_numbers others.now) (locale_numbers locales.now)) }
{
    let mut due = false;
    for locale in locales {
        write_locale_unless(others, *locale, &mut due, out)?;
    }
    Ok(())
}

#[tactic(auto, unfolding(crate::specs::DevicesNotation::word_unless, config_record::specs::Separator::continued))]
fn write_locale_unless<W: Write + Drop>(
    others: &[Locale],
    locale: Locale,
    due: &mut bool,
    out: &mut W,
) -> io::Result<()>
    ensures { OnOk result (WritesBetween comma due.old due.new (W.contents out.old) (W.contents out.new)
        (word_unless locale_word (locale_numbers others.now) (locale_number locale))) }
{
    let number = locale.number();
    if has_locale(others, number) {
        return Ok(());
    }
    write_separator(b',', due, out)?;
    write_locale_word(number, out)
}
