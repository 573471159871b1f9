//! Conditions of candidates that some members of a box meet and others do not.

ghost use Rattle.std.specs.Prelude.{◌≡◌, ℕ, ◌<◌, ◌≤◌, All, length, slice_index, IfSome};
ghost use Rattle.bags_themes.specs.config_record.locales.LocaleNumber.{locale_number};
ghost use Rattle.bags_themes.specs.config_record.Device.{CanHave};
ghost use Rattle.bags_themes.specs.config_record.DeviceSeen.{device_numbers};
ghost use Rattle.box_trace.specs.OpenCondition.{AreAlikeBut, DifferAt};

use bags_themes::{Cand, Device, Step};
use config_box::{ConfigBox, Coord, Locale, MemberPair, Values};

/// A condition of a candidate that parts two members: the candidate matches the first and not the second.
#[derive(Clone, Copy)]
pub(crate) struct OpenCondition {
    pub(crate) pair: MemberPair,
    pub(crate) unmet: Unmet,
}

/// On which sides of the number that a condition asks for it is not met by the number beside it. In a choice no number stands
/// beside another one.
#[derive(Clone, Copy, Default)]
pub(crate) struct Unmet {
    pub(crate) below: bool,
    pub(crate) above: bool,
}

/// The condition of a candidate at a coordinate, where it is open. The candidate matches this member. That the
/// two of the pair are members, and what they answer, is for the caller to check.
pub(crate) fn open_condition(
    members: &ConfigBox,
    candidate: &Cand<'_>,
    matching: &Device,
    at: Coord,
) -> Option<OpenCondition>
    ensures { IfSome result (λ condition. DifferAt at condition.pair) }
{
    if candidate.row.config.compared_number(at) == 0 {
        return None;
    }
    match members.values(at) {
        Values::Range(low, high) => {
            open_in_range(candidate, matching, at, u64::from(low), u64::from(high))
        }
        Values::Numbers(numbers) => open_among(candidate, matching, at, numbers),
        Values::Locales(locales) => open_among_locales(candidate, matching, at, locales),
    }
}

/// In a range the number that the record asks for is parted from those beside it.
fn open_in_range(
    candidate: &Cand<'_>,
    matching: &Device,
    at: Coord,
    low: u64,
    high: u64,
) -> Option<OpenCondition>
    requires { (n : ℕ) → low ≤ n → n ≤ high → CanHave at n }
    ensures { IfSome result (λ condition. DifferAt at condition.pair) }
{
    let number = candidate.row.config.compared_number(at);
    if number < low || high < number {
        return None;
    }
    let yes = matching.changed(at, number);
    let mut below = None;
    if low < number {
        below = unmatched(candidate, &yes, at, number - 1);
    }
    let mut above = None;
    if number < high {
        above = unmatched(candidate, &yes, at, number + 1);
    }
    let unmet = Unmet {
        below: below.is_some(),
        above: above.is_some(),
    };
    let no = below.or(above)?;
    Some(OpenCondition {
        pair: MemberPair { yes, no, coord: at },
        unmet,
    })
}

/// In a choice the member is parted from the first other one that the candidate does not match.
fn open_among(
    candidate: &Cand<'_>,
    matching: &Device,
    at: Coord,
    numbers: &[u32],
) -> Option<OpenCondition>
    requires { (k : ℕ) → k < length numbers.now → CanHave at (slice_index numbers.now k) }
    ensures { IfSome result (λ condition. DifferAt at condition.pair) }
{
    for number in numbers {
        if let Some(no) = unmatched(candidate, matching, at, u64::from(*number)) {
            return Some(in_choice(matching, no, at));
        }
    }
    None
}

/// The same of locales.
fn open_among_locales(
    candidate: &Cand<'_>,
    matching: &Device,
    at: Coord,
    locales: &[Locale],
) -> Option<OpenCondition>
    requires { All (λ locale. CanHave at (locale_number locale)) locales.now }
    ensures { IfSome result (λ condition. DifferAt at condition.pair) }
{
    for locale in locales {
        if let Some(no) = unmatched(candidate, matching, at, locale.number()) {
            return Some(in_choice(matching, no, at));
        }
    }
    None
}

/// A condition of a choice.
fn in_choice(matching: &Device, no: Device, at: Coord) -> OpenCondition
    requires { AreAlikeBut at (device_numbers matching.now) (device_numbers no) }
    ensures { DifferAt at result.pair }
{
    OpenCondition {
        pair: MemberPair {
            yes: *matching,
            no,
            coord: at,
        },
        unmet: Unmet::default(),
    }
}

/// The same device with another number at a coordinate, where a candidate does not match that.
fn unmatched(candidate: &Cand<'_>, device: &Device, at: Coord, number: u64) -> Option<Device>
    requires { CanHave at number }
    ensures { IfSome result (λ other. AreAlikeBut at (device_numbers device.now) (device_numbers other)) }
{
    let other = device.changed(at, number);
    match Step::of(&None, candidate, &other) {
        Step::NoMatch => Some(other),
        Step::KeptOut | Step::TookOver => None,
    }
}
