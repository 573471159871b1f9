//! Rules that pass at every device.

ghost use Rattle.std.specs.Prelude.{IsTrue};
ghost use Rattle.config_precedence.specs.config_record.Record.{record_bytes};
ghost use Rattle.config_precedence.specs.config_record.ComparedNumber.{record_number};
ghost use Rattle.box_answers.specs.Changes.{PassesEverywhere};

use config_precedence::{Kind, Record, Rule};

/// Whether the two records alone show that a rule passes at every device: a comparison of records that say the
/// same passes, and so does a condition of a record that says nothing.
#[tactic(auto, unfolding(crate::specs::Unfolded::rule_answer, crate::specs::Unfolded::kind_answer))]
pub(crate) fn passes_everywhere(rule: Rule, a: &Record, b: &Record) -> bool
    ensures { IsTrue result → PassesEverywhere rule (record_number (record_bytes a.now)) (record_number (record_bytes b.now)) }
{
    let (x, y) = (rule.numbers_of_record(a), rule.numbers_of_record(b));
    match rule.kind {
        Kind::Always => true,
        Kind::Equal | Kind::AtMost | Kind::KeysSuit | Kind::LocaleSuits => x.first == 0,
        _ => x == y,
    }
}
