//! The test that parts members where they part.

ghost use Rattle.std.specs.Prelude.{◌≡◌, ℕ, ◌<◌, All, List, length, filter, slice_index, IfOk};
ghost use Rattle.cert_checker.specs.config_record.locales.Text.{IsGiven};
ghost use Rattle.cert_checker.specs.config_record.locales.LocaleNumber.{locale_number, locale_of_number};
ghost use Rattle.cert_checker.specs.config_record.Device.{CanHave};
ghost use Rattle.cert_checker.specs.config_record.DeviceSeen.{device_numbers};
ghost use Rattle.cert_checker.specs.box_answers.Members.{IsMember};
ghost use Rattle.cert_checker.specs.box_answers.Sameness.{Separates};
ghost use Rattle.cert_checker.specs.box_trace.Parting.{answer_of};
ghost use Rattle.cert_checker.specs.config_box.Tests.{test_of};
ghost use Rattle.cert_checker.specs.cert_tree.Certificate.{TestAt};
ghost use Rattle.cert_maker.specs.FitsBox.{FitsBox};
ghost use Rattle.cert_maker.specs.Needed.{IsNeededTest};
ghost use Rattle.cert_maker.specs.Listed.{answer_with, answer_in};

use cert_checker::{Choice, ConfigBox, Coord, Locale, OutOfMemory, Parting, Test, Values};
use std::alloc::Global;

/// A test that parts the two members that a parting shows, and asks no more than it needs: of a range for numbers up to
/// the lesser of theirs, of a choice for all values with which the first answers yes.
pub fn parting_test(
    alloc: Global,
    members: &ConfigBox,
    parting: &Parting<'_>,
) -> Result<Test, OutOfMemory>
    requires { Separates members.now (answer_of parting.now) (device_numbers parting.now.pair.yes) (device_numbers parting.now.pair.no) parting.now.pair.coord }
    ensures needed { IfOk result (λ test. IsNeededTest (answer_of parting.now) members.now (IsMember members.now) (test_of test)) }
    ensures fits { IfOk result (λ test. FitsBox members.now (TestAt (test_of test))) }
{
    let coord = parting.pair.coord;
    match members.values(coord) {
        Values::Range(_, _) => {
            let first = parting.pair.yes.compared_number(coord);
            let lesser = first.min(parting.pair.no.compared_number(coord));
            Ok(Test::AtMost(coord, lesser as u32))
        }
        Values::Numbers(numbers) => {
            let listed = listed_numbers(alloc, parting, coord, numbers)?;
            Ok(Test::Among(coord, Choice::Numbers(listed)))
        }
        Values::Locales(locales) => {
            let listed = listed_locales(alloc, parting, locales)?;
            Ok(Test::Among(coord, Choice::Locales(listed)))
        }
    }
}

/// The numbers with which the first member answers yes.
fn listed_numbers(
    alloc: Global,
    parting: &Parting<'_>,
    at: Coord,
    numbers: &[u32],
) -> Result<Vec<u32>, OutOfMemory>
    requires { (k : ℕ) → k < length numbers.now → CanHave at (slice_index numbers.now k) }
    ensures { IfOk result (λ listed. listed.items ≡ filter (answer_with (answer_of parting.now) (device_numbers parting.now.pair.yes) at) numbers.now) }
{
    let mut listed = Vec::new(alloc);
    for number in numbers {
        if answers_yes(parting, at, u64::from(*number)) {
            listed.push(*number)?;
        }
    }
    Ok(listed)
}

/// The locales with which it answers yes.
fn listed_locales(
    alloc: Global,
    parting: &Parting<'_>,
    locales: &[Locale],
) -> Result<Vec<Locale>, OutOfMemory>
    requires { All (λ locale. IsGiven (locale_of_number (locale_number locale))) locales.now }
    ensures listed { IfOk result (λ listed. listed.items ≡ filter (answer_in (answer_of parting.now) (device_numbers parting.now.pair.yes)) locales.now) }
    ensures back { IfOk result (λ listed. All (λ locale. locale_of_number (locale_number locale) ≡ locale) listed.items) }
{
    let mut listed = Vec::new(alloc);
    for locale in locales {
        if answers_yes_in(parting, *locale) {
            listed.push(*locale)?;
        }
    }
    Ok(listed)
}

/// Whether the first member answers yes with another number at a coordinate.
fn answers_yes(parting: &Parting<'_>, at: Coord, number: u64) -> bool
    requires { CanHave at number }
    ensures { result ≡ answer_with (answer_of parting.now) (device_numbers parting.now.pair.yes) at number }
{
    parting.answer(&parting.pair.yes.changed(at, number))
}

/// The same with another locale.
fn answers_yes_in(parting: &Parting<'_>, locale: Locale) -> bool
    requires { IsGiven (locale_of_number (locale_number locale)) }
    ensures value { result ≡ answer_in (answer_of parting.now) (device_numbers parting.now.pair.yes) locale }
    ensures back { locale_of_number (locale_number locale) ≡ locale }
{
    answers_yes(parting, Coord::Locale, locale.number())
}
