//! The half of a set of numbers that gives an answer to a test.

ghost use Rattle.std.specs.Prelude.{◌≡◌, ◌≤◌, filter, IfOk, MatchOption};
ghost use Rattle.box_answers.specs.config_record.locales.LocaleNumber.{locale_number};
ghost use Rattle.box_answers.specs.NumberSet.{RangeOf, set_of, IsProper};
ghost use Rattle.config_box.specs.HalfSets.{gives, IsAskable, NoneAnswers, IsHalfSet};
ghost use Rattle.config_box.specs.Tests.{test_of, passes};

use crate::test::Test;
use box_answers::{Locale, NumberSet};
use std::alloc::{AllocError, Global};
use std::rc::Rc;

/// The numbers of a set that give this answer; none where no number does.
pub(crate) fn half_of(
    alloc: Global,
    set: &NumberSet,
    test: &Test,
    answer: bool,
) -> Result<Option<NumberSet>, AllocError>
    requires proper { IsProper (set_of set.now) }
    requires askable { IsAskable (set_of set.now) (test_of test.now) }
    ensures { IfOk result (λ half. MatchOption half (NoneAnswers (set_of set.now) (test_of test.now) answer) (λ half. IsHalfSet (set_of set.now) (test_of test.now) answer (set_of half))) }
{
    match set {
        NumberSet::Range(low, high) => Ok(half_of_range(*low, *high, test, answer)),
        NumberSet::Numbers(numbers) => {
            let kept = kept_numbers(alloc, numbers.as_ref().as_slice(), test, answer)?;
            if kept.is_empty() {
                Ok(None)
            } else {
                Ok(Some(NumberSet::Numbers(Rc::new(alloc, kept)?)))
            }
        }
        NumberSet::Locales(locales) => {
            let kept = kept_locales(alloc, locales.as_ref().as_slice(), test, answer)?;
            if kept.is_empty() {
                Ok(None)
            } else {
                Ok(Some(NumberSet::Locales(Rc::new(alloc, kept)?)))
            }
        }
    }
}

fn half_of_range(low: u32, high: u32, test: &Test, answer: bool) -> Option<NumberSet>
    requires proper { low ≤ high }
    requires askable { IsAskable (RangeOf low high) (test_of test.now) }
    ensures { MatchOption result (NoneAnswers (RangeOf low high) (test_of test.now) answer) (λ half. IsHalfSet (RangeOf low high) (test_of test.now) answer (set_of half)) }
{
    match test {
        Test::AtMost(_, most) if answer => NumberSet::range(low, high.min(*most)),
        Test::AtMost(_, most) => {
            if *most < high {
                NumberSet::range(low.max(*most + 1), high)
            } else {
                None
            }
        }
        Test::Among(_, _) => unreachable!(),
    }
}

fn kept_numbers(
    alloc: Global,
    numbers: &[u32],
    test: &Test,
    answer: bool,
) -> Result<Vec<u32>, AllocError>
    ensures { IfOk result (λ kept. kept.items ≡ filter (λ n. gives (test_of test.now) answer n) numbers.now) }
{
    let mut kept = Vec::new(alloc);
    for number in numbers {
        if is_kept(test, answer, u64::from(*number)) {
            kept.push(*number)?;
        }
    }
    Ok(kept)
}

fn kept_locales(
    alloc: Global,
    locales: &[Locale],
    test: &Test,
    answer: bool,
) -> Result<Vec<Locale>, AllocError>
    ensures { IfOk result (λ kept. kept.items ≡ filter (λ locale. gives (test_of test.now) answer (locale_number locale)) locales.now) }
{
    let mut kept = Vec::new(alloc);
    for locale in locales {
        if is_kept(test, answer, locale.number()) {
            kept.push(*locale)?;
        }
    }
    Ok(kept)
}

// Whether a number gives this answer.
fn is_kept(test: &Test, answer: bool, number: u64) -> bool
    ensures { result ≡ gives (test_of test.now) answer number }
{
    if answer {
        test.passes(number)
    } else {
        !test.passes(number)
    }
}
