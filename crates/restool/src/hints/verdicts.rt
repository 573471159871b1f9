//! Certificates that are rejected.

use crate::hints::Asked;
use crate::hints::again::Again;
use crate::hints::text::{Hint, first_line};
use command_base::{Inputs, LocaleRule, Status};
use resource_tool::{Check, Form, LineForm};
use std::io::sink;

/// How the first line of a verdict ends where goals are others than those of the certificate.
const OTHER_GOALS: &[u8] = b" N1 GoalList";

/// The same in Android's notation.
const OTHER_GOALS_IN_WORDS: &[u8] = b" N1 GoalList: the certificate is for other goals";

/// The same as JSON.
const OTHER_GOALS_IN_JSON: &[u8] = b"\"rule\":\"N1\",\"ruleName\":\"GoalList\"}";

impl<I: Inputs> Asked<'_, '_, I> {
    /// Says where its goals are others; or by which other rule of locales it is true.
    pub(crate) fn say_verdict(&self, check: &Check<'_>, said: &[u8], hint: &mut Hint) {
        let Some(line) = first_line(said) else {
            return;
        };
        let line = line.as_bytes();
        if !line.ends_with(OTHER_GOALS)
            && !line.ends_with(OTHER_GOALS_IN_WORDS)
            && !line.ends_with(OTHER_GOALS_IN_JSON)
        {
            return self.say_other_rule(check, hint);
        }
        self.say_goals(check, hint);
        if hint.is_empty() {
            hint.say_text(check.certificate);
            hint.say(b" is of other goals than these");
        }
    }

    // Says by which other rule of locales it is true, where it is.
    fn say_other_rule(&self, check: &Check<'_>, hint: &mut Hint) {
        let (locales, said): (LocaleRule, &[u8]) = match check.locales {
            LocaleRule::LanguageAndRegion => (
                LocaleRule::Android,
                b"it is true with --locales android: was it made so?",
            ),
            LocaleRule::Android => (
                LocaleRule::LanguageAndRegion,
                b"it is true without --locales android: was it made so?",
            ),
        };
        let Ok(goals) = check.goals.clone() else {
            return;
        };
        let other = Check {
            layers: check.layers,
            box_path: check.box_path,
            certificate: check.certificate,
            locales,
            names: false,
            all: false,
            form: LineForm::Text(Form::Raw),
            goals,
        };
        let again = Again {
            inputs: self.inputs,
        };
        let answered = other.answer(self.alloc, &again, &mut sink(), &mut sink());
        if let Some(Status::Done) = answered.ok() {
            hint.say(said);
        }
    }
}
