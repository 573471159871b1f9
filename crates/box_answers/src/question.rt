//! What is asked of all members of a box.

ghost use Rattle.std.specs.Prelude.{◌≡◌};
ghost use Rattle.config_precedence.specs.config_record.DeviceSeen.{device_numbers};
ghost use Rattle.box_answers.specs.Question.{answered};

use config_precedence::{Device, Record, Rule, table_answer};

/// Is the first of two records better? It is where the first rule of a table that decides says so.
#[derive(Clone, Copy)]
pub(crate) struct Question<'r, 'a, 'b> {
    pub(crate) rules: &'r [Rule],
    pub(crate) a: Record<'a>,
    pub(crate) b: Record<'b>,
}

/// The answer at one device.
pub(crate) fn answered(question: &Question, device: &Device) -> bool
    ensures { result ≡ answered question.now (device_numbers device.now) }
{
    table_answer(question.rules, &question.a, &question.b, device).is_yes()
}
