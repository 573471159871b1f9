//! Whether a record matches all members: one pass over its conditions.

ghost use Rattle.std.specs.Prelude.{◌≡◌, IfSome, IfNone};
ghost use Rattle.config_precedence.specs.config_record.Record.{record_bytes};
ghost use Rattle.config_precedence.specs.config_record.ComparedNumber.{record_number, device_number};
ghost use Rattle.config_precedence.specs.config_record.DeviceSeen.{device_numbers};
ghost use Rattle.config_precedence.specs.config_match.Reads.{AreReadInOrder};
ghost use Rattle.box_answers.specs.Members.{sets_of, set_at, IsMember, IsBox};
ghost use Rattle.box_answers.specs.NumberSet.{IsIn};
ghost use Rattle.box_answers.specs.Sameness.{IsExact};
ghost use Rattle.box_answers.specs.Condition.{AreOfOne, all_pass, IsChangedAt};
ghost use Rattle.box_answers.specs.Facts.{OneFails};
ghost use Rattle.box_answers.specs.TriedNumbers.{StandInPlace};

use crate::condition::{Condition, Suiting};
use crate::members::{corner, set_at};
use crate::number_set::NumberSet;
use crate::sameness::Sameness;
use config_precedence::{Coord, Device, Record, Rule};

/// A member at which all conditions so far pass. With another number at one coordinate one of them fails.
#[derive(Clone, Copy)]
pub(crate) struct Parted {
    pub(crate) matching: Device,
    pub(crate) coord: Coord,
    pub(crate) failing: u64,
}

/// Do all conditions pass at all members, is there one that fails at each, or neither? Most say nothing, since
/// records say little, and are not looked at further.
pub(crate) fn pass_all(sets: &[NumberSet], conditions: &[Rule], stored: &Record) -> Sameness
    requires sets { IsBox (sets_of sets.now) }
    requires in_order { AreReadInOrder conditions.now }
    requires one { AreOfOne conditions.now }
    requires in_place { StandInPlace conditions.now }
    ensures value { IsExact result (sets_of sets.now) (all_pass conditions.now (record_number (record_bytes stored.now))) }
    ensures one_side { result ≡ Sameness.Never → OneFails (sets_of sets.now) conditions.now (record_number (record_bytes stored.now)) (record_number (record_bytes stored.now)) }
{
    let mut parted: Option<Parted> = None;
    for rule in conditions {
        let number = stored.compared_number(rule.coord);
        if number == 0 {
            continue;
        }
        let numbers = rule.numbers_of_record(stored);
        let condition = Condition {
            kind: rule.kind,
            stored: numbers,
            set: set_at(sets, rule.coord),
        };
        match condition.suiting() {
            Suiting::Always => continue,
            Suiting::Never => return Sameness::Never,
            Suiting::Mixed(passing, failing) => {
                parted = Some(parted_by(sets, parted, rule.coord, passing, failing));
            }
        }
    }
    match parted {
        Some(found) => {
            let other = found.matching.changed(found.coord, found.failing);
            Sameness::Mixed(found.matching, other, found.coord)
        }
        None => Sameness::Always,
    }
}

/// One condition more that does not pass at all members: the member is changed into one at which it passes too.
fn parted_by(
    sets: &[NumberSet],
    parted: Option<Parted>,
    at: Coord,
    passing: u64,
    failing: u64,
) -> Parted
    requires sets { IsBox (sets_of sets.now) }
    requires passing { IsIn (set_at (sets_of sets.now) at) passing }
    ensures first { IfNone parted (IsMember (sets_of sets.now) (device_numbers result.matching) × (device_number (device_numbers result.matching) at ≡ passing)
        × (result.coord ≡ at) × (result.failing ≡ failing)) }
    ensures further { IfSome parted (λ before. IsChangedAt (device_numbers before.matching) (device_numbers result.matching) at passing
        × (result.coord ≡ before.coord) × (result.failing ≡ before.failing)) }
{
    match parted {
        Some(parted) => Parted {
            matching: parted.matching.changed(at, passing),
            ..parted
        },
        None => Parted {
            matching: corner(sets).changed(at, passing),
            coord: at,
            failing,
        },
    }
}
