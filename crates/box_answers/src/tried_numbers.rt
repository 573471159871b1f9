//! The numbers of a set at which a rule is tried.

ghost use Rattle.std.specs.Prelude.{◌≡◌, ℕ, ◌<◌, ◌≤◌, length, slice_index};
ghost use Rattle.box_answers.specs.NumberSet.{SetOf, RangeOf, set_of};
ghost use Rattle.box_answers.specs.TriedNumbers.{clamped, tried_numbers};

use crate::number_set::NumberSet;
use config_precedence::SOFT_KEYS;

/// How many numbers of a range are tried: `tried_numbers` in `specs/` says which, and why these.
const OF_A_RANGE: usize = 7;

impl NumberSet {
    /// At how many numbers a rule is tried: at a few of a range, at all of a choice.
    pub(crate) fn tried_count(&self) -> usize
        ensures { (a b : ℕ) → result ≡ length (tried_numbers (set_of self.now) a b) }
    {
        match self {
            NumberSet::Range(_, _) => OF_A_RANGE,
            _ => self.named_count(),
        }
    }

    /// One of these numbers; `a` and `b` are the numbers of the two records.
    pub(crate) fn tried_number(&self, place: usize, a: u64, b: u64) -> u64
        requires { place < length (tried_numbers (set_of self.now) a b) }
        ensures { result ≡ slice_index (tried_numbers (set_of self.now) a b) place }
    {
        match self {
            NumberSet::Range(low, high) => tried_between(
                u64::from(*low),
                u64::from(*high),
                place,
                a,
                b,
            ),
            _ => self.named_number(place),
        }
    }
}

fn tried_between(low: u64, high: u64, place: usize, a: u64, b: u64) -> u64
    requires { place < 7 }
    ensures { result ≡ slice_index (tried_numbers (RangeOf low high) a b) place }
{
    match place {
        0 => low,
        1 => high,
        2 => clamped(low, high, low.saturating_add(1)),
        3 => clamped(low, high, low.saturating_add(2)),
        4 => clamped(low, high, a),
        5 => clamped(low, high, b),
        _ => clamped(low, high, SOFT_KEYS),
    }
}

/// The number itself, or the end of the range that is nearer.
fn clamped(low: u64, high: u64, number: u64) -> u64
    ensures { result ≡ clamped low high number }
{
    low.max(number.min(high))
}
