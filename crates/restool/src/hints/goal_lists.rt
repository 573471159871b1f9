//! Goals that are others than those of a certificate.

use crate::hints::Asked;
use crate::hints::again::Again;
use crate::hints::goal_words::{GoalWords, goal_words};
use crate::hints::text::Hint;
use command_base::Inputs;
use resource_tool::Check;

impl<I: Inputs> Asked<'_, '_, I> {
    /// Says where the goals that are asked for and those of the certificate differ first, and whether it is their order alone.
    pub(crate) fn say_goals(&self, check: &Check<'_>, hint: &mut Hint) {
        let again = Again {
            inputs: self.inputs,
        };
        let Some(words) = goal_words(self.alloc, &again, check) else {
            return;
        };
        say_difference(check.certificate, &words, hint);
        if !hint.is_empty() {
            say_why(words, hint);
            hint.say(b": restool show ");
            hint.say_text(check.layers);
            hint.say(b" ");
            hint.say_text(check.certificate);
        }
    }
}

fn say_difference(path: &str, words: &GoalWords, hint: &mut Hint) {
    let place = first_difference(&words.asked, &words.certified);
    match (words.certified.get(place), words.asked.get(place)) {
        (Some(certified), Some(asked)) => {
            hint.say(b"goal ");
            hint.say_number(place as u64);
            hint.say(b" of ");
            hint.say_text(path);
            say_behind(b" is ", certified.as_str(), hint);
            say_behind(b", and ", asked.as_str(), hint);
            hint.say(b" is asked for");
        }
        (Some(certified), None) => {
            hint.say_text(path);
            hint.say(b" has more goals, goal ");
            hint.say_number(place as u64);
            say_behind(b" is ", certified.as_str(), hint);
        }
        (None, Some(asked)) => {
            hint.say_text(path);
            hint.say(b" has no goal ");
            hint.say_number(place as u64);
            say_behind(b", for which ", asked.as_str(), hint);
            hint.say(b" is asked");
        }
        (None, None) => {}
    }
}

fn say_behind(before: &[u8], words: &str, hint: &mut Hint) {
    hint.say(before);
    hint.say_text(words);
}

// What may be the reason.
fn say_why(words: GoalWords, hint: &mut Hint) {
    let mut words = words;
    match (words.asked.sort(), words.certified.sort()) {
        (Ok(()), Ok(())) if words.asked == words.certified => {
            hint.say(b"; the same goals stand there in another order");
        }
        (Ok(()), Ok(())) => {
            hint.say(b"; maybe it is of another build, whose ids differ; its own");
        }
        _ => hint.say(b"; its own"),
    }
}

// The first place at which they differ, or the end of the shorter list.
fn first_difference(asked: &[String], certified: &[String]) -> usize {
    for (place, text) in asked.iter().enumerate() {
        if certified.get(place) != Some(text) {
            return place;
        }
    }
    asked.len()
}
