//! Two members that differ in one coordinate alone, from two that answer differently.

ghost use Rattle.std.specs.Prelude.{◌≡◌, ℕ, ◌+◌, ◌<◌, ◌≤◌, min, max, true, false, IfSome, IfNone};
ghost use Rattle.config_precedence.specs.config_record.Coord.{all_coords};
ghost use Rattle.config_precedence.specs.config_record.ComparedNumber.{device_number};
ghost use Rattle.config_precedence.specs.config_record.DeviceSeen.{device_numbers};
ghost use Rattle.box_answers.specs.NumberSet.{IsIn};
ghost use Rattle.box_answers.specs.Members.{sets_of, set_at, IsMember, IsBox};
ghost use Rattle.box_answers.specs.Question.{answered};
ghost use Rattle.box_answers.specs.MemberAnswers.{IsOneThatAnswers};
ghost use Rattle.box_answers.specs.Sameness.{Parts, DifferByOne, Separates};
ghost use Rattle.box_answers.specs.SearchedSet.{IsConvex};

use crate::member_pair::MemberPair;
use crate::members::set_at;
use crate::number_set::NumberSet;
use crate::question::{Question, answered};
use config_precedence::{Coord, Device};

/// Two members side by side, and the coordinate in which they differ. Coordinate by coordinate the member
/// that answers yes is changed into the one that answers no.
#[tactic(auto, unfolding(crate::specs::Unfolded::all_coords))]
pub(crate) fn neighbours(
    sets: &[NumberSet],
    question: &Question,
    yes: &Device,
    no: &Device,
) -> MemberPair
    requires sets { IsBox (sets_of sets.now) }
    requires yes { IsOneThatAnswers (IsMember (sets_of sets.now)) (answered question.now) true (device_numbers yes.now) }
    requires no { IsOneThatAnswers (IsMember (sets_of sets.now)) (answered question.now) false (device_numbers no.now) }
    ensures { Separates (sets_of sets.now) (answered question.now) (device_numbers result.yes) (device_numbers result.no) result.coord }
{
    neighbours_among(sets, question, yes, no, &Coord::ALL)
}

fn neighbours_among(
    sets: &[NumberSet],
    question: &Question,
    yes: &Device,
    no: &Device,
    coords: &[Coord],
) -> MemberPair
    requires sets { IsBox (sets_of sets.now) }
    requires yes { IsOneThatAnswers (IsMember (sets_of sets.now)) (answered question.now) true (device_numbers yes.now) }
    requires no { IsOneThatAnswers (IsMember (sets_of sets.now)) (answered question.now) false (device_numbers no.now) }
    requires coords { coords.now ≡ all_coords }
    ensures { Separates (sets_of sets.now) (answered question.now) (device_numbers result.yes) (device_numbers result.no) result.coord }
{
    let mut device = *yes;
    for coord in coords {
        let next = device.changed(*coord, no.compared_number(*coord));
        if !answered(question, &next) {
            let pair = MemberPair {
                yes: device,
                no: next,
                coord: *coord,
            };
            return nearest(sets, question, pair);
        }
        device = next;
    }
    unreachable!()
}

/// In a range the two are brought together.
fn nearest(sets: &[NumberSet], question: &Question, pair: MemberPair) -> MemberPair
    requires sets { IsBox (sets_of sets.now) }
    requires parts { Parts (sets_of sets.now) (answered question.now) (device_numbers pair.yes) (device_numbers pair.no) pair.coord }
    ensures { Separates (sets_of sets.now) (answered question.now) (device_numbers result.yes) (device_numbers result.no) result.coord }
{
    match set_at(sets, pair.coord) {
        NumberSet::Range(_, _) => halved(sets, question, pair),
        _ => pair,
    }
}

/// The distance is halved until there is no number between them.
fn halved(sets: &[NumberSet], question: &Question, pair: MemberPair) -> MemberPair
    requires sets { IsBox (sets_of sets.now) }
    requires parts { Parts (sets_of sets.now) (answered question.now) (device_numbers pair.yes) (device_numbers pair.no) pair.coord }
    requires range { IsConvex (set_at (sets_of sets.now) pair.coord) }
    ensures coord { result.coord ≡ pair.coord }
    ensures parts { Parts (sets_of sets.now) (answered question.now) (device_numbers result.yes) (device_numbers result.no) result.coord }
    ensures near { DifferByOne (device_number (device_numbers result.yes) result.coord) (device_number (device_numbers result.no) result.coord) }
{
    let MemberPair {
        mut yes,
        mut no,
        coord,
    } = pair;
    while let Some(middle) = between(yes.compared_number(coord), no.compared_number(coord)) {
        let device = yes.changed(coord, middle);
        if answered(question, &device) {
            yes = device;
        } else {
            no = device;
        }
    }
    MemberPair { yes, no, coord }
}

/// A number strictly between two, if there is one.
pub(crate) fn between(x: u64, y: u64) -> Option<u64>
    ensures found { IfSome result (λ n. (min x y < n) × (n < max x y)) }
    ensures none { IfNone result ((x ≤ y + 1) × (y ≤ x + 1)) }
{
    let low = x.min(y);
    let high = x.max(y);
    let half = (high - low) / 2;
    if half == 0 { None } else { Some(low + half) }
}
