//! Goals of certificates.

ghost use Rattle.std.specs.Prelude.{map};
ghost use Rattle.contract_words.specs.Exact.{GivesOr};
ghost use Rattle.json_input.specs.Each.{each};
ghost use Rattle.res_value.specs.declared.goal_fault.GoalFault.TheVariants.{OutOfMemory};
ghost use Rattle.names.specs.Named.{named_of};
ghost use Rattle.res_value.specs.Goal.{goal_word_of};
ghost use Rattle.names.specs.NamedGoal.{named_goal_of, named_goal_in, with_names_in, attr_of_parts, style_in};

use crate::named::Named;
use crate::named_set::NamedSet;
use res_value::{Goal, GoalFault, GoalWord};
use std::alloc::Global;

/// What one word asks of a certificate.
#[derive(Drop)]
pub enum NamedGoal<'a> {
    /// A goal in which nothing is named.
    Ids(Goal),
    /// Where each of these ends.
    Resources(NamedSet<'a>),
    /// Where an attribute ends under styles.
    Attr {
        attr: Named<'a>,
        styles: Vec<Named<'a>>,
    },
}

impl<'a> NamedGoal<'a> {
    /// The goals that a word asks for: a goal of ids, those of a set, or `ATTR@STYLE,STYLE` with 1 to 64 styles.
    #[tactic(auto, unfolding(crate::specs::NamedGoal::named_goal_in))]
    pub fn read(alloc: Global, word: &'a str) -> Result<NamedGoal<'a>, GoalFault>
        ensures { GivesOr OutOfMemory named_goal_of result (named_goal_in word.entry.now) }
    {
        match Goal::read(alloc, word) {
            Ok(goal) => Ok(NamedGoal::Ids(goal)),
            Err(GoalFault::Malformed) => with_names(alloc, word),
            Err(GoalFault::OutOfMemory) => Err(GoalFault::OutOfMemory),
        }
    }
}

#[tactic(auto, unfolding(crate::specs::NamedGoal::with_names_in))]
fn with_names<'a>(alloc: Global, word: &'a str) -> Result<NamedGoal<'a>, GoalFault>
    ensures { GivesOr OutOfMemory named_goal_of result (with_names_in word.entry.now) }
{
    match NamedSet::read(word) {
        Some(set) => Ok(NamedGoal::Resources(set)),
        None => attr_of_parts(alloc, GoalWord::read(alloc, word)?),
    }
}

#[tactic(auto, unfolding(crate::specs::NamedGoal::attr_of_parts))]
fn attr_of_parts<'a>(alloc: Global, word: GoalWord<'a>) -> Result<NamedGoal<'a>, GoalFault>
    ensures { GivesOr OutOfMemory named_goal_of result (attr_of_parts (goal_word_of word.entry)) }
{
    match word {
        GoalWord::Plain(_) => Err(GoalFault::Malformed),
        GoalWord::UnderStyles { attr, styles } => {
            let attr = style_in(attr)?;
            let styles = each_named(alloc, &styles)?;
            Ok(NamedGoal::Attr { attr, styles })
        }
    }
}

#[tactic(auto, using(json_input::proofs::EachSteps::each_item_steps))]
fn each_named<'a>(alloc: Global, texts: &[&'a str]) -> Result<Vec<Named<'a>>, GoalFault>
    ensures { GivesOr OutOfMemory (λ named. map named_of named.items) result (each style_in (map (λ text. text.now) texts.now)) }
{
    let mut all = Vec::new(alloc);
    for text in texts {
        let named = style_in(*text)?;
        all.push(named)?;
    }
    Ok(all)
}

#[tactic(auto, unfolding(crate::specs::NamedGoal::style_in))]
fn style_in(text: &str) -> Result<Named<'_>, GoalFault>
    ensures { GivesOr OutOfMemory named_of result (style_in text.now) }
{
    match Named::read(text) {
        Some(named) => Ok(named),
        None => Err(GoalFault::Malformed),
    }
}
