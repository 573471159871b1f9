//! The rules of precedence, in their order.

ghost use Rattle.std.specs.Prelude.{◌≡◌, length};
ghost use Rattle.config_match.specs.Reads.{AreReadInOrder};
ghost use Rattle.config_precedence.specs.Rules.{all_rules};

use config_match::{Coord, Kind, Rule};

const RULES: [Rule; 23] = [
    // P1
    Rule {
        kind: Kind::Given,
        coord: Coord::Mcc,
    },
    // P2
    Rule {
        kind: Kind::Given,
        coord: Coord::Mnc,
    },
    // P3
    Rule {
        kind: Kind::LocaleRank,
        coord: Coord::Locale,
    },
    // P4
    Rule {
        kind: Kind::Larger,
        coord: Coord::LayoutDirection,
    },
    // P5
    Rule {
        kind: Kind::AlwaysLarger,
        coord: Coord::SmallestWidthDp,
    },
    // P6
    Rule {
        kind: Kind::Dimensions,
        coord: Coord::WidthDp,
    },
    // P7
    Rule {
        kind: Kind::ScreenSize,
        coord: Coord::ScreenSize,
    },
    // P8
    Rule {
        kind: Kind::Given,
        coord: Coord::Long,
    },
    // P9
    Rule {
        kind: Kind::Given,
        coord: Coord::Round,
    },
    // P10
    Rule {
        kind: Kind::Given,
        coord: Coord::WideColor,
    },
    // P11
    Rule {
        kind: Kind::Given,
        coord: Coord::Hdr,
    },
    // P12
    Rule {
        kind: Kind::Given,
        coord: Coord::Orientation,
    },
    // P13
    Rule {
        kind: Kind::Given,
        coord: Coord::UiType,
    },
    // P14
    Rule {
        kind: Kind::Given,
        coord: Coord::Night,
    },
    // P15
    Rule {
        kind: Kind::Density,
        coord: Coord::Density,
    },
    // P16
    Rule {
        kind: Kind::Given,
        coord: Coord::Touchscreen,
    },
    // P17
    Rule {
        kind: Kind::KeysHidden,
        coord: Coord::KeysHidden,
    },
    // P18
    Rule {
        kind: Kind::NavHidden,
        coord: Coord::NavHidden,
    },
    // P19
    Rule {
        kind: Kind::Given,
        coord: Coord::Keyboard,
    },
    // P20
    Rule {
        kind: Kind::Given,
        coord: Coord::Navigation,
    },
    // P21
    Rule {
        kind: Kind::Dimensions,
        coord: Coord::Width,
    },
    // P22
    Rule {
        kind: Kind::Larger,
        coord: Coord::Sdk,
    },
    // P23
    Rule {
        kind: Kind::Given,
        coord: Coord::Minor,
    },
];

/// The rules; the first has the number 1.
#[tactic(auto, unfolding(crate::specs::Rules::all_rules))]
pub fn rules() -> &'static [Rule]
    ensures value { result.now ≡ all_rules }
    ensures count { length result.now ≡ 23 }
    ensures in_order { AreReadInOrder result.now }
{
    &RULES
}
