//! The words of goals, in their parts.

ghost use Rattle.std.specs.Prelude.{◌≡◌, map, MatchOption, IfOk, false, true};
ghost use Rattle.std.specs.List.{list_any, before_first, after_first, slice_split};
ghost use Rattle.contract_words.specs.Exact.{GivesOr};
ghost use Rattle.res_value.specs.declared.goal_fault.GoalFault.TheVariants.{OutOfMemory};
ghost use Rattle.res_value.specs.Goal.{is_at_sign, is_comma, goal_word_of, goal_word_in, under_styles, is_id_list};

use crate::goal::MOST_STYLES;
use crate::goal_fault::GoalFault;
use crate::res_id::ResId;
use std::alloc::{AllocError, Global};

/// Stands between the attribute and its styles.
const AT_SIGN: char = '@';

/// Stands between two styles.
const COMMA: char = ',';

/// The parts of a word that asks for a goal, whatever each of them is.
#[derive(Drop)]
pub enum GoalWord<'a> {
    /// A word without `@`.
    Plain(&'a str),
    /// `ATTR@STYLE,STYLE` with 1 to 64 styles.
    UnderStyles { attr: &'a str, styles: Vec<&'a str> },
}

impl<'a> GoalWord<'a> {
    /// The parts of a word. Malformed where it has more than 64 styles.
    #[tactic(auto, unfolding(crate::specs::Goal::goal_word_in))]
    pub fn read(alloc: Global, word: &'a str) -> Result<GoalWord<'a>, GoalFault>
        ensures { GivesOr OutOfMemory goal_word_of result (goal_word_in word.entry.now) }
    {
        match cut_at_sign(word) {
            Some((attr, styles)) => under_styles(attr, parts_at_commas(alloc, styles)?),
            None => Ok(GoalWord::Plain(word)),
        }
    }
}

fn cut_at_sign(word: &str) -> Option<(&str, &str)>
    ensures { MatchOption result (list_any is_at_sign word.now ≡ false)
        (λ parts. (list_any is_at_sign word.now ≡ true)
        × (parts.0.now ≡ before_first is_at_sign word.now) × (parts.1.now ≡ after_first is_at_sign word.now)) }
{
    word.split_once(AT_SIGN)
}

#[tactic(auto, unfolding(crate::specs::Goal::under_styles))]
fn under_styles<'a>(attr: &'a str, styles: Vec<&'a str>) -> Result<GoalWord<'a>, GoalFault>
    ensures { GivesOr OutOfMemory goal_word_of result (under_styles attr.entry.now (map (λ style. style.now) styles.entry.items)) }
{
    if styles.len() > MOST_STYLES {
        return Err(GoalFault::Malformed);
    }
    Ok(GoalWord::UnderStyles { attr, styles })
}

fn parts_at_commas(alloc: Global, text: &str) -> Result<Vec<&str>, AllocError>
    ensures { IfOk result (λ parts. map (λ part. part.now) parts.items ≡ slice_split is_comma text.now) }
{
    text.split(COMMA).collect(alloc)
}

/// Whether a text is of ids alone, with commas between them: `0x7f010000`, or `0x7f010000,0x7f010001`.
#[tactic(auto, unfolding(crate::specs::Goal::is_id_list))]
pub fn is_id_list(text: &str) -> bool
    ensures { result ≡ is_id_list text.now }
{
    text.split(COMMA).all(|part| ResId::read(part).is_some())
}
