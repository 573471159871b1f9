//! The conditions, in the order of the coordinates.

ghost use Rattle.std.specs.Prelude.{◌≡◌};
ghost use Rattle.config_match.specs.Reads.{AreReadInOrder};
ghost use Rattle.config_match.specs.Conditions.{all_conditions};

use crate::kind::Kind;
use crate::rule::Rule;
use config_record::{COORD_COUNT, Coord};

const CONDITIONS: [Rule; COORD_COUNT] = [
    Rule {
        kind: Kind::Equal,
        coord: Coord::Mcc,
    },
    Rule {
        kind: Kind::Equal,
        coord: Coord::Mnc,
    },
    Rule {
        kind: Kind::LocaleSuits,
        coord: Coord::Locale,
    },
    Rule {
        kind: Kind::Equal,
        coord: Coord::LayoutDirection,
    },
    Rule {
        kind: Kind::AtMost,
        coord: Coord::SmallestWidthDp,
    },
    Rule {
        kind: Kind::AtMost,
        coord: Coord::WidthDp,
    },
    Rule {
        kind: Kind::AtMost,
        coord: Coord::HeightDp,
    },
    Rule {
        kind: Kind::AtMost,
        coord: Coord::ScreenSize,
    },
    Rule {
        kind: Kind::Equal,
        coord: Coord::Long,
    },
    Rule {
        kind: Kind::Equal,
        coord: Coord::Round,
    },
    Rule {
        kind: Kind::Equal,
        coord: Coord::WideColor,
    },
    Rule {
        kind: Kind::Equal,
        coord: Coord::Hdr,
    },
    Rule {
        kind: Kind::Equal,
        coord: Coord::Orientation,
    },
    Rule {
        kind: Kind::Equal,
        coord: Coord::UiType,
    },
    Rule {
        kind: Kind::Equal,
        coord: Coord::Night,
    },
    Rule {
        kind: Kind::Always,
        coord: Coord::Density,
    },
    Rule {
        kind: Kind::Equal,
        coord: Coord::Touchscreen,
    },
    Rule {
        kind: Kind::KeysSuit,
        coord: Coord::KeysHidden,
    },
    Rule {
        kind: Kind::Equal,
        coord: Coord::NavHidden,
    },
    Rule {
        kind: Kind::Equal,
        coord: Coord::Keyboard,
    },
    Rule {
        kind: Kind::Equal,
        coord: Coord::Navigation,
    },
    Rule {
        kind: Kind::AtMost,
        coord: Coord::Width,
    },
    Rule {
        kind: Kind::AtMost,
        coord: Coord::Height,
    },
    Rule {
        kind: Kind::AtMost,
        coord: Coord::Sdk,
    },
    Rule {
        kind: Kind::Equal,
        coord: Coord::Minor,
    },
];

/// The condition at each coordinate, in the order in which they are read.
#[tactic(auto, unfolding(crate::specs::Conditions::all_conditions))]
pub fn conditions() -> &'static [Rule]
    ensures value { result.now ≡ all_conditions }
    ensures in_order { AreReadInOrder result.now }
{
    &CONDITIONS
}
