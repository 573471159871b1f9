//! The search for a member at which a question has a given answer.

ghost use Rattle.std.specs.Prelude.{◌≡◌, ◌≢◌, ℕ, List, IfSome, IfNone};
ghost use Rattle.config_precedence.specs.config_record.DeviceSeen.{device_numbers};
ghost use Rattle.config_precedence.specs.config_match.Reads.{AreReadInOrder};
ghost use Rattle.box_answers.specs.Members.{sets_of, IsMember, IsBox};
ghost use Rattle.box_answers.specs.Question.{table_says, answered};
ghost use Rattle.box_answers.specs.MemberAnswers.{IsOneThatAnswers};
ghost use Rattle.box_answers.specs.TriedNumbers.{StandInPlace};

use crate::members::corner;
use crate::number_set::NumberSet;
use crate::passing::passes_everywhere;
use crate::question::Question;
use crate::rule_search::RuleSearch;
use config_precedence::{Answer, Device};

/// A member at which the answer is yes, or one at which it is no; none where no member has that answer.
pub(crate) fn member_where(sets: &[NumberSet], question: &Question, wanted: bool) -> Option<Device>
    requires sets { IsBox (sets_of sets.now) }
    requires in_order { AreReadInOrder question.now.rules.now }
    requires in_place { StandInPlace question.now.rules.now }
    ensures found { IfSome result (λ device. IsOneThatAnswers (IsMember (sets_of sets.now)) (answered question.now) wanted (device_numbers device)) }
    ensures none { IfNone result ((d : List ℕ) → IsMember (sets_of sets.now) d → answered question.now d ≢ wanted) }
{
    if wanted {
        return member_of_answer(sets, question, Answer::Yes);
    }
    if let Some(device) = member_of_answer(sets, question, Answer::No) {
        return Some(device);
    }
    member_of_answer(sets, question, Answer::Pass)
}

/// A member at which the table says this. Rule by rule the member so far is changed into one at which
/// that rule passes, until one says what is wanted. Most rules pass at every device, since records say
/// little, and are not looked at further.
fn member_of_answer(sets: &[NumberSet], question: &Question, want: Answer) -> Option<Device>
    requires sets { IsBox (sets_of sets.now) }
    requires in_order { AreReadInOrder question.now.rules.now }
    requires in_place { StandInPlace question.now.rules.now }
    ensures found { IfSome result (λ device. IsMember (sets_of sets.now) (device_numbers device) × (table_says question.now (device_numbers device) ≡ want)) }
    ensures none { IfNone result ((d : List ℕ) → IsMember (sets_of sets.now) d → table_says question.now d ≢ want) }
{
    let (a, b) = (question.a, question.b);
    let mut device = corner(sets);
    for rule in question.rules {
        if passes_everywhere(*rule, &a, &b) {
            continue;
        }
        let search = RuleSearch {
            sets,
            rule: *rule,
            a,
            b,
            from: device,
        };
        if let Some(found) = search.find_deciding(want) {
            return Some(found);
        }
        match search.find(Answer::Pass) {
            Some(passing) => device = passing,
            None => return None,
        }
    }
    if want.is_pass() { Some(device) } else { None }
}
