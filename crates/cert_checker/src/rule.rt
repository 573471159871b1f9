//! The rules of which one fails where a certificate is rejected.

ghost use Rattle.std.specs.Prelude.{◌≡◌};
ghost use Rattle.cert_checker.specs.Rule.{number_of, name_of};

/// A rule that fails. The first of a goal's nodes at which one fails is named, and there the rule of the lowest
/// number.
#[derive(Clone, Copy)]
pub enum Rule {
    /// N1: the certificate's goals are not the ones that are asked, in their order.
    GoalList,
    /// N2: the list of nodes ends before the tree is whole.
    EndsEarly,
    /// N3: a node stands after the whole tree.
    LeftOver,
    /// N4: an `at most` test of the locale, or a test of listed values where the box has a range.
    TestKind,
    /// N5: all devices at a test answer alike.
    EmptyHalf,
    /// N6: two devices at a leaf have different traces.
    MixedTrace,
    /// N7: all devices at a leaf have one trace, and it ends at no value and no bag.
    NoValue,
    /// N8: all devices at a leaf have one trace, and it ends at another value or bag than the leaf's.
    OtherValue,
}

impl Rule {
    /// Its number, from 1 to 8.
    pub fn number(self) -> u8
        ensures { result ≡ number_of self }
    {
        match self {
            Rule::GoalList => 1,
            Rule::EndsEarly => 2,
            Rule::LeftOver => 3,
            Rule::TestKind => 4,
            Rule::EmptyHalf => 5,
            Rule::MixedTrace => 6,
            Rule::NoValue => 7,
            Rule::OtherValue => 8,
        }
    }

    /// Its name, as it is printed after the number.
    #[tactic(auto, unfolding(crate::specs::Rule::name_of))]
    pub fn name(self) -> &'static str
        ensures { result.now ≡ name_of self }
    {
        match self {
            Rule::GoalList => "GoalList",
            Rule::EndsEarly => "EndsEarly",
            Rule::LeftOver => "LeftOver",
            Rule::TestKind => "TestKind",
            Rule::EmptyHalf => "EmptyHalf",
            Rule::MixedTrace => "MixedTrace",
            Rule::NoValue => "NoValue",
            Rule::OtherValue => "OtherValue",
        }
    }
}
