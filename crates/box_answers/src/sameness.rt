//! The two questions, asked of all members of a box at once.

ghost use Rattle.std.specs.Prelude.{◌≡◌};
ghost use Rattle.config_precedence.specs.config_record.Record.{record_bytes};
ghost use Rattle.config_precedence.specs.config_record.ComparedNumber.{record_number};
ghost use Rattle.config_precedence.specs.config_match.Matching.{is_match};
ghost use Rattle.config_precedence.specs.Precedence.{is_better};
ghost use Rattle.config_precedence.specs.config_match.Reads.{AreReadInOrder};
ghost use Rattle.box_answers.specs.Members.{sets_of, IsBox};
ghost use Rattle.box_answers.specs.Question.{answered};
ghost use Rattle.box_answers.specs.TriedNumbers.{StandInPlace};
ghost use Rattle.box_answers.specs.Facts.{DensityTurnsOnce, SizesFromNormalUpAreAlike, DimensionsAskWhichAreZero, FailsOnOneSide};

use crate::matching::pass_all;
use crate::neighbours::neighbours;
use crate::number_set::NumberSet;
use crate::question::Question;
use crate::search::member_where;
use config_precedence::{Coord, Device, Record, conditions, rules};

/// What all members of a box answer.
#[derive(Clone, Copy)]
pub enum Sameness {
    /// All answer yes.
    Always,
    /// All answer no.
    Never,
    /// Two members that differ in this coordinate alone, and by one where it is a range; the first answers
    /// yes, the second no.
    Mixed(Device, Device, Coord),
}

ghost use Rattle.box_answers.specs.Sameness.{IsExact};

/// Does a record match all members, none, or some?
#[tactic(auto, unfolding(crate::specs::Unfolded::is_match))]
pub fn match_all(sets: &[NumberSet], stored: &Record) -> Sameness
    requires { IsBox (sets_of sets.now) }
    ensures value { IsExact result (sets_of sets.now) (is_match (record_bytes stored.now)) }
    ensures one_side { result ≡ Sameness.Never → FailsOnOneSide (sets_of sets.now) (record_bytes stored.now) }
{
    pass_all(sets, conditions(), stored)
}

/// Is the first of two records better than the second for all members, for none, or for some?
#[tactic(auto, unfolding(config_precedence::specs::Precedence::is_better))]
pub fn better_all(sets: &[NumberSet], a: &Record, b: &Record) -> Sameness
    requires { IsBox (sets_of sets.now) }
    ensures value { IsExact result (sets_of sets.now) (is_better (record_bytes a.now) (record_bytes b.now)) }
    ensures density { DensityTurnsOnce (record_number (record_bytes a.now)) (record_number (record_bytes b.now)) }
    ensures sizes { SizesFromNormalUpAreAlike (record_number (record_bytes a.now)) (record_number (record_bytes b.now)) }
    ensures dimensions { DimensionsAskWhichAreZero (record_number (record_bytes a.now)) (record_number (record_bytes b.now)) }
{
    let question = Question {
        rules: rules(),
        a: *a,
        b: *b,
    };
    answer_of_all(sets, &question)
}

fn answer_of_all(sets: &[NumberSet], question: &Question) -> Sameness
    requires sets { IsBox (sets_of sets.now) }
    requires in_order { AreReadInOrder question.now.rules.now }
    requires in_place { StandInPlace question.now.rules.now }
    ensures { IsExact result (sets_of sets.now) (answered question.now) }
{
    let Some(yes) = member_where(sets, question, true) else {
        return Sameness::Never;
    };
    let Some(no) = member_where(sets, question, false) else {
        return Sameness::Always;
    };
    let pair = neighbours(sets, question, &yes, &no);
    Sameness::Mixed(pair.yes, pair.no, pair.coord)
}
