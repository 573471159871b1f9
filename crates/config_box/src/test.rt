//! Tests of one coordinate.

ghost use Rattle.std.specs.Prelude.{◌≡◌};

use box_answers::{Coord, Locale, has_locale, has_number};

/// A test of one coordinate. It is answered by each device.
#[derive(Drop)]
pub enum Test {
    /// Is the number at most this?
    AtMost(Coord, u32),
    /// Is the value one of these? A list of another kind than the coordinate holds none of its values.
    Among(Coord, Choice),
}

/// Values of a coordinate, as they are written: in any order, and perhaps more than once.
#[derive(Drop)]
pub enum Choice {
    Numbers(Vec<u32>),
    Locales(Vec<Locale>),
}

impl Test {
    ghost use Rattle.config_box.specs.Tests.{test_of, coord_of, passes};

    pub fn coord(&self) -> Coord
        ensures { result ≡ coord_of (test_of self.now) }
    {
        match self {
            Test::AtMost(coord, _) => *coord,
            Test::Among(coord, _) => *coord,
        }
    }

    /// The answer of a number at the coordinate.
    pub(crate) fn passes(&self, number: u64) -> bool
        ensures { result ≡ passes (test_of self.now) number }
    {
        match self {
            Test::AtMost(_, most) => number <= u64::from(*most),
            Test::Among(coord, choice) => choice.has(*coord, number),
        }
    }
}

impl Choice {
    ghost use Rattle.config_box.specs.Tests.{choice_of, is_listed};

    #[tactic(auto, unfolding(crate::specs::Tests::is_listed))]
    fn has(&self, at: Coord, number: u64) -> bool
        ensures { result ≡ is_listed at (choice_of self.now) number }
    {
        match (at, self) {
            (Coord::Locale, Choice::Numbers(_)) => false,
            (Coord::Locale, Choice::Locales(locales)) => has_locale(locales.as_slice(), number),
            (_, Choice::Numbers(numbers)) => has_number(numbers.as_slice(), number),
            (_, Choice::Locales(_)) => false,
        }
    }
}
