//! Tests of one coordinate.

ghost use Rattle.std.specs.Prelude.{◌≡◌};
ghost use Rattle.contract_words.specs.Writes.{Writes};
ghost use Rattle.config_box.specs.Tests.{test_of, choice_of, AmongOf};
ghost use Rattle.config_box.specs.box_answers.NumberSet.{locale_numbers};
ghost use Rattle.notation.specs.NumberWord.{number_word};
ghost use Rattle.notation.specs.LocaleWord.{locale_word};
ghost use Rattle.notation.specs.TestText.{among_text, test_text};

use crate::lists::{write_locales_but, write_numbers_but};
use crate::number_word::letters_at;
use crate::set_text::write_below;
use config_box::{Choice, Coord, Locale, Test};
use std::io::{self, Write};

/// Writes a test: the numbers up to a bound, or a list of words.
///
/// ```text
/// write_test(&test, &mut out)?; // sw<600dp
/// ```
#[tactic(auto, unfolding(crate::specs::TestText::test_text))]
pub fn write_test<W: Write + Drop>(test: &Test, out: &mut W) -> io::Result<()>
    ensures { Writes W.contents out.old out.new result (test_text (test_of test.now)) }
{
    match test {
        Test::AtMost(coord, most) => write_below(letters_at(*coord), *most, out),
        Test::Among(coord, choice) => write_choice(*coord, choice, out),
    }
}

#[tactic(auto, unfolding(crate::specs::TestText::test_text))]
fn write_choice<W: Write + Drop>(coord: Coord, choice: &Choice, out: &mut W) -> io::Result<()>
    ensures { Writes W.contents out.old out.new result (test_text (AmongOf coord (choice_of choice.now))) }
{
    match choice {
        Choice::Numbers(numbers) => write_numbers(coord, numbers.as_slice(), out),
        Choice::Locales(locales) => write_locales(locales.as_slice(), out),
    }
}

#[tactic(auto, unfolding(crate::specs::TestText::among_text))]
fn write_numbers<W: Write + Drop>(coord: Coord, numbers: &[u32], out: &mut W) -> io::Result<()>
    ensures { Writes W.contents out.old out.new result (among_text (number_word coord) numbers.now) }
{
    if numbers.is_empty() {
        return out.write_all(b"nothing");
    }
    write_numbers_but(coord, &[], numbers, out)
}

#[tactic(auto, unfolding(crate::specs::TestText::among_text))]
fn write_locales<W: Write + Drop>(locales: &[Locale], out: &mut W) -> io::Result<()>
    ensures { Writes W.contents out.old out.new result (among_text locale_word (locale_numbers locales.now)) }
{
    if locales.is_empty() {
        return out.write_all(b"nothing");
    }
    write_locales_but(&[], locales, out)
}
