//! The kinds of questions that rules ask.

ghost use Rattle.std.specs.Prelude.{◌≡◌};
ghost use Rattle.config_match.specs.Kind.{kind_answer};

use crate::answer::Answer;
use crate::condition::{is_at_most, is_equal, keys_suit, locale_suits};
use crate::density::by_density;
use crate::dimensions::by_dimensions;
use crate::given::{always_larger, given, larger};
use crate::hidden::{by_keys, by_navigation};
use crate::locale::by_locale;
use crate::screen_size::by_screen_size;

/// What a rule may look at in a configuration.
#[derive(Clone, Copy, PartialEq, Eq)]
pub struct Numbers {
    /// The number at its coordinate.
    pub first: u64,
    /// The one beside it: of two dimensions the second.
    pub second: u64,
}

/// What a rule asks of two records at a device. The comparisons say which of two records is better,
/// the conditions whether the first suits the device.
#[derive(Clone, Copy)]
pub enum Kind {
    /// Where the two differ and the device says something: the one that says something is better.
    Given,
    /// Where the two differ and the device says something: the larger is better.
    Larger,
    /// Where the two differ: the larger is better.
    AlwaysLarger,
    /// By language and region the locale with more parts is better; on a phone the one that is nearer to the device's, and
    /// else nothing is said.
    LocaleRank,
    /// The pair of dimensions that leaves less of the device's is better.
    Dimensions,
    /// The larger screen is better; on a device of at least normal size no size counts as normal, and
    /// loses to it.
    ScreenSize,
    /// The density that is scaled better is better.
    Density,
    /// The one that says something is better, and of two such the one that says what the device
    /// says.
    KeysHidden,
    /// Where one says nothing: the other is better.
    NavHidden,
    /// A condition: the record says nothing, or what the device says.
    Equal,
    /// A condition: the record asks for no more than the device has.
    AtMost,
    /// A condition: the record's keys are the device's; exposed keys suit keys on the screen.
    KeysSuit,
    /// A condition: the record says nothing, or the device's language and, where it has a region, the
    /// device's region too; one with a script or a variant suits no device. On a phone the script counts, and the region
    /// only where that is not known. A region alone suits no device.
    LocaleSuits,
    /// A condition that always holds.
    Always,
}

impl Kind {
    /// What is answered to this question.
    #[tactic(auto, unfolding(crate::specs::Kind::kind_answer))]
    pub fn answer(self, a: Numbers, b: Numbers, device: Numbers) -> Answer
        ensures { result ≡ kind_answer self a b device }
    {
        let (x, y, d) = (a.first, b.first, device.first);
        match self {
            Kind::Given => given(x, y, d),
            Kind::Larger => larger(x, y, d),
            Kind::AlwaysLarger => always_larger(x, y),
            Kind::LocaleRank => by_locale(x, y, d),
            Kind::Dimensions => by_dimensions(a, b, device),
            Kind::ScreenSize => by_screen_size(x, y, d),
            Kind::Density => by_density(x, y, d),
            Kind::KeysHidden => by_keys(x, y, d),
            Kind::NavHidden => by_navigation(x, y, d),
            Kind::Equal => Answer::of_condition(is_equal(x, d)),
            Kind::AtMost => Answer::of_condition(is_at_most(x, d)),
            Kind::KeysSuit => Answer::of_condition(keys_suit(x, d)),
            Kind::LocaleSuits => Answer::of_condition(locale_suits(x, d)),
            Kind::Always => Answer::Pass,
        }
    }
}
