//! Words that ask for resources or for goals.

ghost use Rattle.std.specs.Prelude.{map};
ghost use Rattle.json_input.specs.Each.{each};
ghost use Rattle.restool.specs.AskedWords.{ReadsNamed, ReadsWord, ReadsWords, asked_word, named_word};

use crate::argument_fault::ArgumentFault;
use names::file_path;
use resource_tool::{GoalFault, Named, NamedGoal, NamedSet};
use std::alloc::Global;

/// What each word is to ask for some of, where several words may stand.
#[derive(Clone, Copy)]
pub(crate) enum Asks {
    Resources,
    Goals,
}

/// The resource that a word asks for.
pub(crate) fn named_word<'a>(word: &'a str) -> Result<Named<'a>, ArgumentFault<'a>>
    ensures { ReadsNamed result (named_word word.entry.now) }
{
    match Named::read(word) {
        Some(named) => Ok(named),
        None => Err(ArgumentFault::BadId(word)),
    }
}

/// These words, each of which asks for some resources or goals, or the first that asks for none.
#[tactic(auto, using(json_input::proofs::EachSteps::each_item_steps))]
pub(crate) fn asked_words<'a>(
    alloc: Global,
    words: &[&'a str],
    asks: Asks,
) -> Result<Vec<&'a str>, ArgumentFault<'a>>
    ensures { ReadsWords result (each (asked_word asks) (map (λ word. word.now) words.now)) }
{
    let mut read = Vec::new(alloc);
    for word in words {
        read.push(asked_word(alloc, *word, asks)?)?;
    }
    Ok(read)
}

fn asked_word<'a>(alloc: Global, word: &'a str, asks: Asks) -> Result<&'a str, ArgumentFault<'a>>
    ensures { ReadsWord result (asked_word asks word.entry.now) }
{
    if file_path(word).is_some() {
        return Ok(word);
    }
    match asks {
        Asks::Resources => match NamedSet::read(word) {
            Some(_) => Ok(word),
            None => Err(ArgumentFault::BadId(word)),
        },
        Asks::Goals => match NamedGoal::read(alloc, word) {
            Ok(_) => Ok(word),
            Err(GoalFault::Malformed) => Err(ArgumentFault::BadId(word)),
            Err(GoalFault::OutOfMemory) => Err(ArgumentFault::OutOfMemory),
        },
    }
}
