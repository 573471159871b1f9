//! Leaves that tell the same difference, as one change.

ghost use Rattle.std.specs.Prelude.{[], ◌∷◌, ◌++◌, IfOk};
ghost use Rattle.std.specs.List.{AllZip};
ghost use Rattle.stack_diff.specs.Grouped.{AddsLeafTo, GatherLeaves, JoinsBoxes, Groups};

use crate::change::Change;
use crate::difference::Difference;
use crate::tree::Leaf;
use cert_maker::OutOfMemory;
use std::alloc::Global;

/// A change for each difference, with the boxes of all leaves that tell them, joined where they make one box.
pub(crate) fn grouped<'a>(
    alloc: Global,
    told: Vec<Leaf<'a>>,
) -> Result<Vec<Change<'a>>, OutOfMemory>
    ensures { IfOk result (λ changes. Groups told.entry.items changes.items) }
{
    let gathered = gathered(alloc, told)?;
    let changes = joined_each(alloc, gathered)?;
    Ok(changes)
}

// A change for each difference, with the boxes of all leaves that tell them.
fn gathered<'a>(alloc: Global, told: Vec<Leaf<'a>>) -> Result<Vec<Change<'a>>, OutOfMemory>
    ensures { IfOk result (λ changes. GatherLeaves told.entry.items changes.items) }
{
    let mut told = told;
    // Those of the same difference stand side by side, the greatest first, since leaves are taken from the end.
    told.sort_by(|leaf, other| Difference::cmp(&other.difference, &leaf.difference))?;
    let mut changes = Vec::new(alloc);
    'leaves: while let Some(leaf) = told.pop() {
        add_leaf(alloc, &mut changes, leaf)?;
    }
    Ok(changes)
}

// Adds a leaf to the last change, if that tells the same, or as a new one.
fn add_leaf<'a>(
    alloc: Global,
    changes: &mut Vec<Change<'a>>,
    leaf: Leaf<'a>,
) -> Result<(), OutOfMemory>
    ensures { IfOk result (λ _. AddsLeafTo leaf.entry changes.old.items changes.new.items) }
{
    match changes.pop() {
        Some(last) => add_behind(alloc, changes, last, leaf),
        None => {
            changes.push(Change::of(alloc, leaf)?)?;
            Ok(())
        }
    }
}

// The same, where this is the last change, which was taken.
fn add_behind<'a>(
    alloc: Global,
    changes: &mut Vec<Change<'a>>,
    last: Change<'a>,
    leaf: Leaf<'a>,
) -> Result<(), OutOfMemory>
    ensures { IfOk result (λ _. AddsLeafTo leaf.entry (changes.old.items ++ last.entry ∷ []) changes.new.items) }
{
    if last.difference.tells_same(&leaf.difference) {
        changes.push(last.with_box(leaf.members)?)?;
        return Ok(());
    }
    changes.push(last)?;
    changes.push(Change::of(alloc, leaf)?)?;
    Ok(())
}

// Joins the boxes of each change. All its leaves are there now.
fn joined_each<'a>(alloc: Global, changes: Vec<Change<'a>>) -> Result<Vec<Change<'a>>, OutOfMemory>
    ensures { IfOk result (λ joined. AllZip JoinsBoxes changes.entry.items joined.items) }
{
    let mut joined = Vec::with_capacity(alloc, changes.len())?;
    for change in changes {
        joined.push(change.joined(alloc)?)?;
    }
    Ok(joined)
}
