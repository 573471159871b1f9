//! The goals of a check in words.

use answer_text::StackNames;
use command_base::{CertGoal, Goal, Inputs};
use resource_tool::{Check, CheckFiles, OpenCheck, OpenedCert, write_named_words};
use std::alloc::Global;

/// The words of the goals that are asked for, and of those of the certificate, with the names of their ids.
#[derive(Drop)]
pub(crate) struct GoalWords {
    pub asked: Vec<String>,
    pub certified: Vec<String>,
}

/// Reads what the words of a check name, for the goals in it. Where more goals are asked for than the certificate has, the one
/// behind as many is the last.
pub(crate) fn goal_words<I: Inputs>(
    alloc: Global,
    inputs: &I,
    check: &Check<'_>,
) -> Option<GoalWords> {
    let files = CheckFiles::read(
        alloc,
        inputs,
        check.layers,
        check.box_path,
        check.certificate,
        &check.goals,
    );
    match files {
        Ok(files) => words_of_files(alloc, &files, check),
        Err(_) => None,
    }
}

fn words_of_files(alloc: Global, files: &CheckFiles, check: &Check<'_>) -> Option<GoalWords> {
    match OpenCheck::open(alloc, files, check.locales) {
        Ok(open) => words_of_goals(alloc, &open.opened, &open.goals),
        Err(_) => None,
    }
}

fn words_of_goals(alloc: Global, opened: &OpenedCert<'_>, goals: &[Goal]) -> Option<GoalWords> {
    let Ok(names) = StackNames::of(alloc, &opened.stack) else {
        return None;
    };
    let mut words = GoalWords {
        asked: Vec::new(alloc),
        certified: Vec::new(alloc),
    };
    match push_both(alloc, &names, goals, &opened.certificate.goals, &mut words) {
        Some(()) => Some(words),
        None => None,
    }
}

fn push_both(
    alloc: Global,
    names: &StackNames<'_, '_>,
    goals: &[Goal],
    certified_goals: &[CertGoal],
    words: &mut GoalWords,
) -> Option<()> {
    for goal in goals {
        push_words(alloc, names, goal, &mut words.asked)?;
    }
    for certified in certified_goals {
        push_words(alloc, names, &certified.goal, &mut words.certified)?;
    }
    Some(())
}

fn push_words(
    alloc: Global,
    names: &StackNames<'_, '_>,
    goal: &Goal,
    words: &mut Vec<String>,
) -> Option<()> {
    let mut text = Vec::new(alloc);
    if write_named_words(names, goal, &mut text).is_err() {
        return None;
    }
    match String::from_utf8(text) {
        Ok(text) => words.push(text).ok(),
        Err(_) => None,
    }
}
