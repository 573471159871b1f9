//! Lists of boxes that are joined.

ghost use Rattle.std.specs.Prelude.{◌≡◌, ◌<◌, ◌≤◌, length, IfOk, OnOk, MatchBool};
ghost use Rattle.config_box.specs.config_record.Coord.{all_coords};
ghost use Rattle.config_box.specs.Devices.{KeepDevices};
ghost use Rattle.config_box.specs.Kinds.{KeepKinds};
ghost use Rattle.config_box.specs.Least.{HasOneSet, IsLeast};
ghost use Rattle.config_box.specs.ListsJoined.{IsAdded, AreJoinedInOrder, AreJoinedAt};

use crate::config_box::ConfigBox;
use crate::split::OutOfMemory;
use box_answers::Coord;
use std::alloc::Global;

/// The boxes, joined where two make one. Boxes that are alike but at one coordinate stand side by side when
/// that coordinate is looked at, and each is joined with the one before where that is possible.
#[tactic(auto, unfolding(crate::specs::Unfolded::all_coords))]
pub fn join_boxes(alloc: Global, boxes: Vec<ConfigBox>) -> Result<Vec<ConfigBox>, OutOfMemory>
    ensures devices { IfOk result (λ joined. KeepDevices boxes.items joined.items) }
    ensures no_more { IfOk result (λ joined. length joined.items ≤ length boxes.items) }
    ensures some { IfOk result (λ joined. 0 < length boxes.items → 0 < length joined.items) }
    ensures kinds { IfOk result (λ joined. KeepKinds boxes.items joined.items) }
    ensures least { IfOk result (λ joined. IsLeast boxes.items joined.items) }
{
    joined_along(alloc, boxes, &Coord::ALL)
}

fn joined_along(
    alloc: Global,
    boxes: Vec<ConfigBox>,
    coords: &[Coord],
) -> Result<Vec<ConfigBox>, OutOfMemory>
    requires { coords.now ≡ all_coords }
    ensures devices { IfOk result (λ joined. KeepDevices boxes.items joined.items) }
    ensures no_more { IfOk result (λ joined. length joined.items ≤ length boxes.items) }
    ensures some { IfOk result (λ joined. 0 < length boxes.items → 0 < length joined.items) }
    ensures kinds { IfOk result (λ joined. KeepKinds boxes.items joined.items) }
    ensures least { IfOk result (λ joined. IsLeast boxes.items joined.items) }
{
    let mut joined = boxes;
    for at in coords {
        joined = joined_at(alloc, joined, *at)?;
    }
    Ok(joined)
}

// Joined along one coordinate.
fn joined_at(
    alloc: Global,
    mut boxes: Vec<ConfigBox>,
    at: Coord,
) -> Result<Vec<ConfigBox>, OutOfMemory>
    ensures { IfOk result (λ joined. AreJoinedAt at boxes.items joined.items) }
{
    if !vary(boxes.as_slice(), at) {
        return Ok(boxes);
    }
    boxes.sort_by(|one, other| one.order_but(other, at))?;
    joined_in_order(alloc, boxes)
}

// Whether a box has another set there than the first.
fn vary(boxes: &[ConfigBox], at: Coord) -> bool
    ensures { MatchBool result (HasOneSet at boxes.now → ⊥) (HasOneSet at boxes.now) }
{
    let Some((first, others)) = boxes.split_first() else {
        return false;
    };
    for other in others {
        if !first.is_alike_at(other, at) {
            return true;
        }
    }
    false
}

fn joined_in_order(alloc: Global, boxes: Vec<ConfigBox>) -> Result<Vec<ConfigBox>, OutOfMemory>
    ensures { IfOk result (λ joined. AreJoinedInOrder boxes.items joined.items) }
{
    let mut joined = Vec::with_capacity(alloc, boxes.len())?;
    for next in boxes {
        add(alloc, &mut joined, next)?;
    }
    Ok(joined)
}

// Joins the box with the last of the list, or puts it behind.
fn add(alloc: Global, boxes: &mut Vec<ConfigBox>, next: ConfigBox) -> Result<(), OutOfMemory>
    ensures { OnOk result (IsAdded boxes.old.items next boxes.new.items) }
{
    let Some(last) = boxes.pop() else {
        boxes.push(next)?;
        return Ok(());
    };
    if let Some(both) = last.joined(alloc, &next)? {
        boxes.push(both)?;
        return Ok(());
    }
    boxes.push(last)?;
    boxes.push(next)?;
    Ok(())
}
