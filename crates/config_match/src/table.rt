//! Tables of rules: the first rule that does not pass decides.

ghost use Rattle.std.specs.Prelude.{◌≡◌, ◌<◌, length, IfSome, is_none};
ghost use Rattle.config_record.specs.Record.{record_bytes};
ghost use Rattle.config_record.specs.ComparedNumber.{record_number, device_number};
ghost use Rattle.config_record.specs.DeviceSeen.{device_numbers};
ghost use Rattle.config_match.specs.Answer.{is_pass};
ghost use Rattle.config_match.specs.Table.{answer_of_table, place_of_table, place_keeping_out};

use crate::answer::Answer;
use crate::rule::Rule;
use config_record::{Device, Record};

/// What the rule that decides says of two records at a device; `Pass` where all pass.
pub fn table_answer<'a>(rules: &[Rule], a: &Record<'a>, b: &Record<'a>, device: &Device) -> Answer
    ensures { result ≡ answer_of_table rules.now (record_number (record_bytes a.now))
        (record_number (record_bytes b.now)) (device_number (device_numbers device.now)) }
{
    for rule in rules {
        let answer = rule.answer(a, b, device);
        if !answer.is_pass() {
            return answer;
        }
    }
    Answer::Pass
}

/// The place of the rule that decides.
pub fn deciding_place<'a>(
    rules: &[Rule],
    a: &Record<'a>,
    b: &Record<'a>,
    device: &Device,
) -> Option<usize>
    ensures value { result ≡ place_of_table rules.now (record_number (record_bytes a.now))
        (record_number (record_bytes b.now)) (device_number (device_numbers device.now)) }
    ensures none { is_none result ≡ is_pass (answer_of_table rules.now
        (record_number (record_bytes a.now)) (record_number (record_bytes b.now))
        (device_number (device_numbers device.now))) }
    ensures within { IfSome result (λ place. place < length rules.now) }
{
    for (place, rule) in rules.iter().enumerate() {
        if !rule.answer(a, b, device).is_pass() {
            return Some(place);
        }
    }
    None
}

/// The place of the rule that keeps the first record out, where it is not better: the first that decides, or by which the second
/// is better than the first.
pub fn place_keeping_out<'a>(
    rules: &[Rule],
    a: &Record<'a>,
    b: &Record<'a>,
    device: &Device,
) -> Option<usize>
    ensures value { result ≡ place_keeping_out rules.now (record_number (record_bytes a.now))
        (record_number (record_bytes b.now)) (device_number (device_numbers device.now)) }
    ensures within { IfSome result (λ place. place < length rules.now) }
{
    for (place, rule) in rules.iter().enumerate() {
        if !rule.answer(a, b, device).is_pass() || rule.answer(b, a, device).is_yes() {
            return Some(place);
        }
    }
    None
}
