//! Tests, written in words.

ghost use Rattle.std.specs.List.{flat_map};
ghost use Rattle.contract_words.specs.Writes.{Writes};
ghost use Rattle.command_base.specs.cert_tree.config_box.Tests.{choice_of, test_of};
ghost use Rattle.resource_tool.specs.TreeText.{number_item, locale_item, choice_text, test_text, test_in};

use crate::locale_differences::says_nothing;
use answer_text::Form;
use command_base::{Choice, Locale, Test};
use locales::write_locale;
use std::io::{self, Write};

/// Writes a test: `<198dpi`, `de-rAT,de-rDE`.
#[tactic(auto, unfolding(crate::specs::TreeText::test_in))]
pub(crate) fn write_test_in<W: Write + Drop>(form: Form, test: &Test, out: &mut W) -> io::Result<()>
    ensures { Writes W.contents out.old out.new result (test_in form (test_of test.now)) }
{
    match form {
        Form::Android => notation::write_test(test, out),
        Form::Raw => write_test(test, out),
    }
}

// `density at most 197`, `locale one of de-AT de-DE`.
#[tactic(auto, unfolding(crate::specs::TreeText::test_text))]
fn write_test<W: Write + Drop>(test: &Test, out: &mut W) -> io::Result<()>
    ensures { Writes W.contents out.old out.new result (test_text (test_of test.now)) }
{
    match test {
        Test::AtMost(coord, most) => write!(out, "{coord} at most {most}"),
        Test::Among(coord, choice) => {
            write!(out, "{coord} one of")?;
            write_choice(choice, out)
        }
    }
}

#[tactic(auto, unfolding(crate::specs::TreeText::choice_text))]
fn write_choice<W: Write + Drop>(choice: &Choice, out: &mut W) -> io::Result<()>
    ensures { Writes W.contents out.old out.new result (choice_text (choice_of choice.now)) }
{
    match choice {
        Choice::Numbers(numbers) if numbers.is_empty() => out.write_all(b" nothing"),
        Choice::Numbers(numbers) => write_numbers(numbers.as_slice(), out),
        Choice::Locales(locales) if locales.is_empty() => out.write_all(b" nothing"),
        Choice::Locales(locales) => write_locales(locales.as_slice(), out),
    }
}

#[tactic(auto, using(contract_words::proofs::TextSteps::puts))]
fn write_numbers<W: Write + Drop>(numbers: &[u32], out: &mut W) -> io::Result<()>
    ensures { Writes W.contents out.old out.new result (flat_map number_item numbers.now) }
{
    for number in numbers {
        write_number(*number, out)?;
    }
    Ok(())
}

#[tactic(auto, unfolding(crate::specs::TreeText::number_item))]
fn write_number<W: Write + Drop>(number: u32, out: &mut W) -> io::Result<()>
    ensures { Writes W.contents out.old out.new result (number_item number) }
{
    write!(out, " {number}")
}

#[tactic(auto, using(contract_words::proofs::TextSteps::puts))]
fn write_locales<W: Write + Drop>(locales: &[Locale], out: &mut W) -> io::Result<()>
    ensures { Writes W.contents out.old out.new result (flat_map locale_item locales.now) }
{
    for locale in locales {
        write_listed(*locale, out)?;
    }
    Ok(())
}

#[tactic(auto, unfolding(crate::specs::TreeText::locale_item))]
fn write_listed<W: Write + Drop>(locale: Locale, out: &mut W) -> io::Result<()>
    ensures { Writes W.contents out.old out.new result (locale_item locale) }
{
    out.write_all(b" ")?;
    if says_nothing(locale.number()) {
        out.write_all(b"none")
    } else {
        write_locale(locale, out)
    }
}
