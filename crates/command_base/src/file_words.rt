//! The words of an argument that takes several.

ghost use Rattle.std.specs.Prelude.{◌++◌, map, IfSome, Ok, string_bytes};
ghost use Rattle.contract_words.specs.Sequences.{joined_each, with_front};
ghost use Rattle.json_input.specs.Each.{each};
ghost use Rattle.command_base.specs.FileWords.{words_at, words_of_file, set_asked, goal_asked, strings_held, sets_held, goals_held};
ghost use Rattle.command_base.specs.Stop.{GivesOrStops};
ghost use Rattle.names.specs.NamedGoal.{named_goal_of};
ghost use Rattle.names.specs.NamedSet.{named_set_of};

use crate::fault::ToolFault;
use crate::inputs::{Inputs, file_bytes};
use crate::stop::Stop;
use names::{GoalFault, NamedGoal, NamedSet, file_path, words_in_text};
use std::alloc::Global;
use std::str;

/// The words of an argument that takes several, and in the place of each that names a file those of the file, which has to
/// have some.
pub fn asked_words<'a, I: Inputs>(
    alloc: Global,
    inputs: &I,
    words: &[&'a str],
) -> Result<Vec<String>, Stop<'a>>
    ensures { IfSome (I.places inputs.now) (λ places. GivesOrStops strings_held result
        (joined_each (words_at places) (map (λ word. word.now) words.now))) }
{
    let mut asked = Vec::new(alloc);
    for word in words {
        push_words(alloc, inputs, *word, &mut asked)?;
    }
    Ok(asked)
}

#[tactic(auto, unfolding(crate::specs::FileWords::words_at))]
fn push_words<'a, I: Inputs>(
    alloc: Global,
    inputs: &I,
    word: &'a str,
    asked: &mut Vec<String>,
) -> Result<(), Stop<'a>>
    ensures { IfSome (I.places inputs.now) (λ places. GivesOrStops (λ _. strings_held asked.new) result
        (with_front (strings_held asked.old) (words_at places word.entry.now))) }
{
    match file_path(word) {
        Some(path) => {
            let bytes = file_bytes(inputs, path)?;
            push_words_of_file(alloc, path, &bytes, asked)
        }
        None => push_each(alloc, &[word], asked),
    }
}

fn push_words_of_file<'a>(
    alloc: Global,
    path: &'a str,
    bytes: &[u8],
    asked: &mut Vec<String>,
) -> Result<(), Stop<'a>>
    ensures { GivesOrStops (λ _. strings_held asked.new) result
        (with_front (strings_held asked.old) (words_of_file path.entry.now bytes.now)) }
{
    match str::from_utf8(bytes) {
        Ok(text) => {
            let words = words_in_text(alloc, text)?;
            if words.is_empty() {
                return Err(Stop::NoWords(path));
            }
            push_each(alloc, &words, asked)
        }
        Err(_) => Err(Stop::NotText),
    }
}

fn push_each<'a>(alloc: Global, words: &[&str], asked: &mut Vec<String>) -> Result<(), Stop<'a>>
    ensures { GivesOrStops (λ _. strings_held asked.new) result
        (Ok (strings_held asked.old ++ map (λ word. word.now) words.now)) }
{
    for word in words {
        asked.push(String::from_str(alloc, *word)?)?;
    }
    Ok(())
}

/// The resources that each word asks for, or a stop at the first that asks for none.
#[tactic(auto, using(json_input::proofs::EachSteps::each_item_steps))]
pub fn asked_sets(alloc: Global, words: &[String]) -> Result<Vec<NamedSet<'_>>, Stop<'static>>
    ensures { GivesOrStops sets_held result (each set_asked (map string_bytes words.now)) }
{
    let mut sets = Vec::new(alloc);
    for word in words {
        let set = set_asked(alloc, word)?;
        sets.push(set)?;
    }
    Ok(sets)
}

fn set_asked(alloc: Global, word: &String) -> Result<NamedSet<'_>, Stop<'static>>
    ensures { GivesOrStops named_set_of result (set_asked (string_bytes word.now)) }
{
    match NamedSet::read(word.as_str()) {
        Some(set) => Ok(set),
        None => Err(Stop::WordOfFile(word.clone()?)),
    }
}

/// The goals that each word asks for, or a stop at the first that asks for none.
#[tactic(auto, using(json_input::proofs::EachSteps::each_item_steps))]
pub fn asked_goals(alloc: Global, words: &[String]) -> Result<Vec<NamedGoal<'_>>, Stop<'static>>
    ensures { GivesOrStops goals_held result (each goal_asked (map string_bytes words.now)) }
{
    let mut goals = Vec::new(alloc);
    for word in words {
        let goal = goal_asked(alloc, word)?;
        goals.push(goal)?;
    }
    Ok(goals)
}

fn goal_asked(alloc: Global, word: &String) -> Result<NamedGoal<'_>, Stop<'static>>
    ensures { GivesOrStops named_goal_of result (goal_asked (string_bytes word.now)) }
{
    match NamedGoal::read(alloc, word.as_str()) {
        Ok(goal) => Ok(goal),
        Err(GoalFault::Malformed) => Err(Stop::WordOfFile(word.clone()?)),
        Err(GoalFault::OutOfMemory) => Err(Stop::Tool(ToolFault::OutOfMemory)),
    }
}
