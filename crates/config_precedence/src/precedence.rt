//! Which of two records is better, and by which rule.

ghost use Rattle.std.specs.Prelude.{◌≡◌, IsNone, IsFalse};
ghost use Rattle.config_match.specs.config_record.Record.{record_bytes};
ghost use Rattle.config_match.specs.config_record.DeviceSeen.{device_numbers};
ghost use Rattle.config_precedence.specs.Precedence.{is_better, deciding_of, keeping_out_of};
ghost use Rattle.config_precedence.specs.Laws.{DecidesInEitherOrder, KeepsOutByDeciding, BothOrNeitherIsBetter, AtMostOneIsBetter, IsTransitiveFrom};

use crate::table::rules;
use config_match::{Device, Record, deciding_place, place_keeping_out, table_answer};

/// Whether the first of two records is better for a device (AOSP: `ResTable_config::isBetterThan`). The first rule
/// that decides answers; where none does it is not.
///
/// Among records that match a device that is compared by language and region this is an order: of two at most one is better
/// than the other, and one that is better than a second is better than a third than which the second is better. Only
/// a density of 0 against one of 160 is no part of that order where no earlier rule decides: then both
/// are better at a device of density 160 and more, and neither is below.
#[tactic(auto, unfolding(crate::specs::Precedence::is_better))]
pub fn better(a: &Record, b: &Record, device: &Device) -> bool
    ensures value { result ≡
        is_better (record_bytes a.now) (record_bytes b.now) (device_numbers device.now) }
    ensures at_most_one { AtMostOneIsBetter
        (record_bytes a.now) (record_bytes b.now) (device_numbers device.now) }
    ensures both_or_neither { BothOrNeitherIsBetter
        (record_bytes a.now) (record_bytes b.now) (device_numbers device.now) }
    ensures transitive { IsTransitiveFrom
        (record_bytes a.now) (record_bytes b.now) (device_numbers device.now) }
{
    table_answer(rules(), a, b, device).is_yes()
}

/// The number of the rule that decides between two records, 1 to 23. By language and region it is the same in either order
/// of the two.
#[tactic(auto, unfolding(crate::specs::Precedence::deciding_of, crate::specs::Precedence::is_better))]
pub fn deciding(a: &Record, b: &Record, device: &Device) -> Option<u8>
    ensures value { result ≡
        deciding_of (record_bytes a.now) (record_bytes b.now) (device_numbers device.now) }
    ensures either_order { DecidesInEitherOrder
        (record_bytes a.now) (record_bytes b.now) (device_numbers device.now) }
    ensures none { IsNone result →
        IsFalse (is_better (record_bytes a.now) (record_bytes b.now) (device_numbers device.now)) }
{
    let place = deciding_place(rules(), a, b, device)?;
    Some(place as u8 + 1)
}

/// The number of the rule that keeps the first of two records out where it is not better, 1 to 23. On a phone the rule of
/// locales may say that the second is better, and nothing of the first.
#[tactic(auto, unfolding(crate::specs::Precedence::keeping_out_of))]
pub fn keeping_out(a: &Record, b: &Record, device: &Device) -> Option<u8>
    ensures value { result ≡
        keeping_out_of (record_bytes a.now) (record_bytes b.now) (device_numbers device.now) }
    ensures by_deciding { KeepsOutByDeciding
        (record_bytes a.now) (record_bytes b.now) (device_numbers device.now) }
{
    let place = place_keeping_out(rules(), a, b, device)?;
    Some(place as u8 + 1)
}
