//! Which of the open conditions of candidates is asked next. No promise depends on it: it is a guess at the smallest tree.

use crate::waiting::Waiting;
use config_box::OutOfMemory;
use std::alloc::Global;
use std::cmp::Reverse;

/// What speaks for a condition, the weightiest first. No two have the same.
#[derive(Clone, Copy, PartialEq, PartialOrd)]
struct Weight {
    /// How many conditions ask its coordinate, and how many of those alike are the only ones of their candidates.
    askers: usize,
    /// How many ask for the same.
    alike: usize,
    /// Whether one test parts it off. Inside a range it takes two.
    is_one_test: bool,
    /// The first candidate, and of its conditions the first.
    place: Reverse<usize>,
    coord: Reverse<usize>,
}

#[derive(Clone, Copy)]
pub(crate) struct Weighed {
    weight: Weight,
    pub(crate) condition: Waiting,
}

/// The weightiest of some conditions. They are sorted, so that those stand together that ask for the same.
pub(crate) fn weightiest(
    alloc: Global,
    waiting: &[Waiting],
) -> Result<Option<Weighed>, OutOfMemory> {
    let mut sorted = Vec::from_slice(alloc, waiting)?;
    sorted.sort_unstable_by_key(|condition| (condition.coord.place(), condition.number));
    let mut chosen = None;
    for of_coord in sorted.chunk_by(|a, b| a.coord == b.coord) {
        for alike in of_coord.chunk_by(|a, b| a.number == b.number) {
            chosen = weightier(chosen, alike, of_coord.len());
        }
    }
    Ok(chosen)
}

/// The one that was chosen before, or a weightier one of those that ask for the same. So many ask their coordinate.
fn weightier(before: Option<Weighed>, alike: &[Waiting], askers: usize) -> Option<Weighed> {
    let mut askers = askers;
    for condition in alike {
        if condition.is_only {
            askers = askers.saturating_add(1);
        }
    }
    let mut chosen = before;
    for condition in alike {
        let weight = Weight {
            askers,
            alike: alike.len(),
            is_one_test: !(condition.unmet.below && condition.unmet.above),
            place: Reverse(condition.place),
            coord: Reverse(condition.coord.place()),
        };
        match chosen {
            Some(best) if best.weight >= weight => {}
            _ => {
                chosen = Some(Weighed {
                    weight,
                    condition: *condition,
                });
            }
        }
    }
    chosen
}
