//! The goals of words.

ghost use Rattle.std.specs.Prelude.{◌≡◌, ◌++◌, ◌∷◌, [], List, map, IfOk, OnOk};
ghost use Rattle.std.specs.List.{flat_map};
ghost use Rattle.overlay_map.specs.Layer.{LayerOf};
ghost use Rattle.res_value.specs.Goal.{goal_seen, IdGoal};
ghost use Rattle.names.specs.Names.{WantedOf};
ghost use Rattle.names.specs.NamedGoal.{named_goal_of};
ghost use Rattle.names.specs.NameFault.{GivesNamed};
ghost use Rattle.names.specs.NamedGoals.{first_goals, goals_of_word};
ghost use Rattle.names.specs.AskedNames.{names_in_goal};
ghost use Rattle.names.specs.Finder.{Tells};
ghost use Rattle.names.specs.WordGoals.{goals_in, IsFirst};

use crate::asked_names::names_in_goals;
use crate::fault::NameFault;
use crate::finder::Finder;
use crate::named_goal::NamedGoal;
use overlay_map::{ResId, Stack};
use res_value::Goal;
use std::alloc::{AllocError, Global};
use std::rc::Rc;

/// The goals that words ask for, one word after the other: one for each id of a set, or for an attribute under styles; of all
/// these the first, at most so many. What is not there is told wherever it stands. All names are looked up in one walk over the
/// rows of the base layers; each set of several resources takes one more.
pub fn first_goals(
    alloc: Global,
    stack: &Stack<'_>,
    goals: &[NamedGoal<'_>],
    most: usize,
) -> Result<Vec<Goal>, NameFault>
    ensures { GivesNamed (λ first. map goal_seen first.items) result (first_goals stack.now (map named_goal_of goals.now) most) }
{
    let names = names_in_goals(alloc, goals)?;
    let mut finder = Finder::new(alloc, stack, &names)?;
    let first = first_found(alloc, &mut finder, goals, most);
    drop(finder);
    first
}

// The first of them, where their names are looked up.
fn first_found<'n>(
    alloc: Global,
    finder: &mut Finder<'_, '_, 'n>,
    goals: &[NamedGoal<'n>],
    most: usize,
) -> Result<Vec<Goal>, NameFault>
    ensures { (layers : List LayerOf) → Tells layers (flat_map (λ goal. names_in_goal (named_goal_of goal)) goals.now) finder.old → GivesNamed (λ first. map goal_seen first.items) result (first_goals layers (map named_goal_of goals.now) most) }
{
    let mut first = Vec::new(alloc);
    for goal in goals {
        let found = goals_of_word(alloc, finder, goal)?;
        found.push_first(most, &mut first)?;
    }
    Ok(first)
}

/// The goals of a word.
#[derive(Drop)]
enum WordGoals {
    One(Goal),
    /// One for each of these ids.
    Each(Rc<Vec<ResId>>),
}

impl WordGoals {
    // Puts them behind others, as long as there are not so many.
    fn push_first(self, most: usize, first: &mut Vec<Goal>) -> Result<(), AllocError>
        ensures { OnOk result (IsFirst most (map goal_seen first.old.items) (goals_in self) (map goal_seen first.new.items)) }
    {
        match self {
            WordGoals::One(goal) => push_one(goal, most, first),
            WordGoals::Each(ids) => push_ids(&ids, most, first),
        }
    }
}

fn push_one(goal: Goal, most: usize, first: &mut Vec<Goal>) -> Result<(), AllocError>
    ensures { OnOk result (IsFirst most (map goal_seen first.old.items) (goal_seen goal ∷ []) (map goal_seen first.new.items)) }
{
    if first.len() < most {
        first.push(goal)?;
    }
    Ok(())
}

fn push_ids(ids: &[ResId], most: usize, first: &mut Vec<Goal>) -> Result<(), AllocError>
    ensures { OnOk result (IsFirst most (map goal_seen first.old.items) (map (λ id. IdGoal id) ids.now) (map goal_seen first.new.items)) }
{
    for id in ids {
        if first.len() >= most {
            return Ok(());
        }
        first.push(Goal::Id(*id))?;
    }
    Ok(())
}

fn goals_of_word<'n>(
    alloc: Global,
    finder: &mut Finder<'_, '_, 'n>,
    word: &NamedGoal<'n>,
) -> Result<WordGoals, NameFault>
    ensures { (layers : List LayerOf) (names : List WantedOf) → Tells layers (names_in_goal (named_goal_of word.now) ++ names) finder.old
        → OnOk result (Tells layers names finder.new) × GivesNamed goals_in result (goals_of_word layers (named_goal_of word.now)) }
{
    match word {
        NamedGoal::Ids(goal) => {
            let goal = copied(goal)?;
            Ok(WordGoals::One(goal))
        }
        NamedGoal::Resources(set) => {
            let ids = finder.ids(alloc, set)?;
            Ok(WordGoals::Each(ids))
        }
        NamedGoal::Attr { attr, styles } => {
            let attr = finder.id(alloc, attr)?;
            let styles = finder.each_id(alloc, styles)?;
            Ok(WordGoals::One(Goal::Attr { attr, styles }))
        }
    }
}

// The same goal, with styles of its own.
fn copied(goal: &Goal) -> Result<Goal, AllocError>
    ensures { IfOk result (λ copied. goal_seen copied ≡ goal_seen goal.now) }
{
    goal.clone()
}
