//! The open conditions of the candidates ahead. No promise depends on them.

use crate::open_condition::{Unmet, open_condition};
use bags_themes::Cand;
use config_box::{ConfigBox, Coord, OutOfMemory, Sameness, Values};
use std::alloc::Global;

/// An open condition of one of several candidates.
#[derive(Clone, Copy)]
pub(crate) struct Waiting {
    /// Which candidate.
    pub(crate) place: usize,
    pub(crate) coord: Coord,
    /// What its record asks for there.
    pub(crate) number: u64,
    pub(crate) unmet: Unmet,
    /// Whether it is the only open condition of the candidate.
    pub(crate) is_only: bool,
}

/// A part of a box by tests of one coordinate.
#[derive(Clone, Copy)]
pub(crate) struct Part<'b> {
    pub(crate) members: &'b ConfigBox,
    pub(crate) at: Coord,
}

/// What became of a condition in a part of a box.
enum Left {
    Open(Unmet),
    /// All members meet it.
    Met,
    /// No member matches the candidate, or all do.
    Settled,
}

/// The open conditions of the candidates ahead, of which the first stands at a place. They are in the order of the places, and
/// those of one candidate in that of the coordinates.
pub(crate) fn open_conditions(
    alloc: Global,
    ahead: &[(Cand<'_>, bool)],
    first: usize,
    members: &ConfigBox,
) -> Result<Vec<Waiting>, OutOfMemory> {
    let mut waiting = Vec::new(alloc);
    for (place, live) in ahead.iter().enumerate() {
        if !live.1 {
            add_open(&mut waiting, first.saturating_add(place), &live.0, members)?;
        }
    }
    Ok(waiting)
}

/// Adds those of one candidate.
fn add_open(
    waiting: &mut Vec<Waiting>,
    place: usize,
    candidate: &Cand<'_>,
    members: &ConfigBox,
) -> Result<(), OutOfMemory> {
    let Sameness::Mixed(matching, _, _) = members.match_all(&candidate.row.config) else {
        return Ok(());
    };
    let before = waiting.len();
    for coord in &Coord::ALL {
        if let Some(condition) = open_condition(members, candidate, &matching, *coord) {
            waiting.push(Waiting {
                place,
                coord: *coord,
                number: candidate.row.config.compared_number(*coord),
                unmet: condition.unmet,
                is_only: false,
            })?;
        }
    }
    mark_only(waiting, before);
    Ok(())
}

/// Those that are left in a part of a box, where those of the box are known. Only what they ask of its coordinate is asked again.
pub(crate) fn still_open(
    alloc: Global,
    known: &[Waiting],
    ahead: &[(Cand<'_>, bool)],
    first: usize,
    part: Part<'_>,
) -> Result<Vec<Waiting>, OutOfMemory> {
    let mut waiting = Vec::new(alloc);
    for of_one in known.chunk_by(|a, b| a.place == b.place) {
        if let Some(live) = candidate_of(of_one, ahead, first) {
            add_still_open(&mut waiting, of_one, &live.0, part)?;
        }
    }
    Ok(waiting)
}

/// The candidate of some conditions, where it is ahead.
fn candidate_of<'l, 'a>(
    of_one: &[Waiting],
    ahead: &'l [(Cand<'a>, bool)],
    first: usize,
) -> Option<&'l (Cand<'a>, bool)> {
    ahead.get(of_one.first()?.place.checked_sub(first)?)
}

/// Adds those of one candidate that are left.
fn add_still_open(
    waiting: &mut Vec<Waiting>,
    of_one: &[Waiting],
    candidate: &Cand<'_>,
    part: Part<'_>,
) -> Result<(), OutOfMemory> {
    let before = waiting.len();
    for condition in of_one {
        if condition.coord != part.at {
            waiting.push(*condition)?;
            continue;
        }
        match left_of(condition, candidate, part) {
            Left::Open(unmet) => waiting.push(Waiting {
                unmet,
                ..*condition
            })?,
            Left::Met => {}
            Left::Settled => {
                waiting.truncate(before);
                return Ok(());
            }
        }
    }
    mark_only(waiting, before);
    Ok(())
}

/// What is left of the condition at the coordinate of a part. Some member matches the candidate where the number is in its range.
fn left_of(condition: &Waiting, candidate: &Cand<'_>, part: Part<'_>) -> Left {
    if let Values::Range(low, high) = part.members.values(part.at) {
        let (low, high) = (u64::from(low), u64::from(high));
        if low <= condition.number && condition.number <= high {
            return left_within(condition, low, high);
        }
    }
    let Sameness::Mixed(matching, _, _) = part.members.match_all(&candidate.row.config) else {
        return Left::Settled;
    };
    match open_condition(part.members, candidate, &matching, part.at) {
        Some(open) => Left::Open(open.unmet),
        None => Left::Met,
    }
}

/// The same in a range that has its number.
fn left_within(condition: &Waiting, low: u64, high: u64) -> Left {
    let unmet = Unmet {
        below: condition.unmet.below && low < condition.number,
        above: condition.unmet.above && condition.number < high,
    };
    if unmet.below || unmet.above {
        Left::Open(unmet)
    } else {
        Left::Met
    }
}

/// Marks the last condition where it is the only one from a place on.
fn mark_only(waiting: &mut Vec<Waiting>, from: usize) {
    if waiting.len().checked_sub(from) == Some(1) {
        waiting[from].is_only = true;
    }
}
