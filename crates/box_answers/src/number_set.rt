//! The numbers that a box allows at a coordinate.

ghost use Rattle.std.specs.Prelude.{◌≡◌, ◌<◌, ◌↔◌, ◌==◌, IsTrue, MatchOption, length, slice_index};
ghost use Rattle.std.specs.List.{list_any};
ghost use Rattle.box_answers.specs.NumberSet.{RangeOf, set_of, locale_numbers, IsIn, named_numbers, IsProper, IsLeastIn};
ghost use Rattle.box_answers.specs.SearchedSet.{IsGreatestIn};

use config_precedence::Locale;
use std::rc::Rc;

/// The numbers that a box allows at a coordinate. The list of a choice is shared by the boxes that have
/// it.
#[derive(Drop)]
pub enum NumberSet {
    /// All from the first to the second.
    Range(u32, u32),
    /// These, in rising order.
    Numbers(Rc<Vec<u32>>),
    /// These locales, in the order of their numbers.
    Locales(Rc<Vec<Locale>>),
}

impl NumberSet {
    /// The range from the first to the second; none where it would be empty.
    pub fn range(low: u32, high: u32) -> Option<NumberSet>
        ensures { MatchOption result (high < low) (λ set. (set_of set ≡ RangeOf low high) × IsProper (set_of set)) }
    {
        if low <= high {
            Some(NumberSet::Range(low, high))
        } else {
            None
        }
    }

    pub fn contains(&self, number: u64) -> bool
        ensures { IsTrue result ↔ IsIn (set_of self.now) number }
    {
        match self {
            NumberSet::Range(low, high) => u64::from(*low) <= number && number <= u64::from(*high),
            NumberSet::Numbers(numbers) => has_number(numbers.as_ref().as_slice(), number),
            NumberSet::Locales(locales) => has_locale(locales.as_ref().as_slice(), number),
        }
    }

    /// How many numbers name the set: the two ends of a range, all numbers of a choice.
    pub(crate) fn named_count(&self) -> usize
        ensures { result ≡ length (named_numbers (set_of self.now)) }
    {
        match self {
            NumberSet::Range(_, _) => 2,
            NumberSet::Numbers(numbers) => numbers.as_ref().len(),
            NumberSet::Locales(locales) => locales.as_ref().len(),
        }
    }

    pub(crate) fn named_number(&self, place: usize) -> u64
        requires { place < length (named_numbers (set_of self.now)) }
        ensures { result ≡ slice_index (named_numbers (set_of self.now)) place }
    {
        match self {
            NumberSet::Range(low, high) => u64::from(if place == 0 { *low } else { *high }),
            NumberSet::Numbers(numbers) => u64::from(numbers.as_ref().as_slice()[place]),
            NumberSet::Locales(locales) => locales.as_ref().as_slice()[place].number(),
        }
    }

    pub(crate) fn least(&self) -> u64
        requires { IsProper (set_of self.now) }
        ensures { IsLeastIn (set_of self.now) result }
    {
        self.named_number(0)
    }

    pub(crate) fn greatest(&self) -> u64
        requires { IsProper (set_of self.now) }
        ensures { IsGreatestIn (set_of self.now) result }
    {
        self.named_number(self.named_count() - 1)
    }
}

/// Whether one of these numbers is this.
pub fn has_number(numbers: &[u32], number: u64) -> bool
    ensures { result ≡ list_any (λ m. m == number) numbers.now }
{
    numbers.iter().any(|other| u64::from(*other) == number)
}

/// Whether one of these locales has the number.
pub fn has_locale(locales: &[Locale], number: u64) -> bool
    ensures { result ≡ list_any (λ m. m == number) (locale_numbers locales.now) }
{
    for locale in locales {
        if locale.number() == number {
            return true;
        }
    }
    false
}
