//! The values that a box has at a coordinate.

ghost use Rattle.std.specs.Prelude.{◌≡◌, length};
ghost use Rattle.box_answers.specs.Members.{sets_of, set_at};

use box_answers::{Coord, Locale, NumberSet, set_at};

/// The values that a box has at a coordinate.
#[derive(Clone, Copy)]
pub enum Values<'a> {
    /// All numbers from the first to the second.
    Range(u32, u32),
    /// These numbers, in rising order.
    Numbers(&'a [u32]),
    /// These locales, in the order of their bytes.
    Locales(&'a [Locale]),
}

ghost use Rattle.config_box.specs.BoxSeen.{values_seen};

pub(crate) fn values_of(sets: &[NumberSet], at: Coord) -> Values<'_>
    requires { length sets.now ≡ 25 }
    ensures { values_seen result ≡ set_at (sets_of sets.now) at }
{
    match set_at(sets, at) {
        NumberSet::Range(low, high) => Values::Range(*low, *high),
        NumberSet::Numbers(numbers) => Values::Numbers(numbers.as_ref().as_slice()),
        NumberSet::Locales(locales) => Values::Locales(locales.as_ref().as_slice()),
    }
}
