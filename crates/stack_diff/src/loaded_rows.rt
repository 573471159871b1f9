//! The rows that members of a box load for an id.

ghost use Rattle.std.specs.Prelude.{◌≡◌, ◌++◌, ◌∷◌, [], ℕ, List, All, IfOk, IfSome};
ghost use Rattle.config_box.specs.box_answers.NumberSet.{SetOf};
ghost use Rattle.config_box.specs.box_answers.Members.{IsMember, IsBox};
ghost use Rattle.cert_maker.specs.cert_checker.box_trace.Halving.{OpensHalves};
ghost use Rattle.cert_maker.specs.cert_checker.box_trace.OpenBox.{boxes_of};
ghost use Rattle.reference_resolver.specs.overlay_map.Layer.{LayerOf};
ghost use Rattle.stack_diff.specs.declared.look_up.LookUp.{LookUp};
ghost use Rattle.config_box.specs.Tests.{test_of};
ghost use Rattle.cert_maker.specs.Growth.{CanBeAsked};
ghost use Rattle.stack_diff.specs.LayersSeen.{loads_of};
ghost use Rattle.stack_diff.specs.Raising.{level_of, cells_of, KeepsReach, no_more, loaded_more};
ghost use Rattle.stack_diff.specs.Parting.{IsParted};
ghost use Rattle.stack_diff.specs.AddedNode.{AddsNode};
ghost use Rattle.stack_diff.specs.LookUpBoxes.{trace_of_look_up, IsOpenFor};

use crate::look_up::LookUp;
use crate::row_use::RowUse;
use crate::uses::Uses;
use box_trace::Halving;
use cert_maker::{
    CommonTrace, ConfigBox, OpenBox, OpenBoxes, OutOfMemory, Stack, Test, parting_test,
};
use std::alloc::Global;

/// Raises the rows of a look-up that some member of a box loads, and tells how many nodes may still be looked at; none where
/// that takes more than `left`. Each box that is looked at is a node of the tree that parts them.
pub(crate) fn raise_loaded<'a>(
    alloc: Global,
    stack: &Stack<'a>,
    look_up: &LookUp<'a>,
    members: &ConfigBox,
    to: RowUse,
    left: usize,
    uses: &mut Uses,
) -> Result<Option<usize>, OutOfMemory>
    ensures keeps { IfOk result (λ found. IfSome found (λ _. KeepsReach (cells_of uses.old) (loaded_more (loads_of look_up.now) (level_of to) (members.now ∷ [])) (cells_of uses.new) no_more)) }
    ensures tree { IfOk result (IsParted (trace_of_look_up look_up.now) members.now left) }
{
    let members = members.shared(alloc)?;
    let whole = OpenBox::whole_among(alloc, &look_up.candidates, members)?;
    let mut open_boxes = OpenBoxes::of(alloc, whole)?;
    let raised = raise_in_boxes(alloc, stack, look_up, to, left, uses, &mut open_boxes);
    open_boxes.close();
    raised
}

// The same of the members of some open boxes.
fn raise_in_boxes<'a, 's>(
    alloc: Global,
    stack: &Stack<'a>,
    look_up: &LookUp<'a>,
    to: RowUse,
    left: usize,
    uses: &mut Uses,
    open_boxes: &mut OpenBoxes<'a, 's>,
) -> Result<Option<usize>, OutOfMemory>
    requires { All (IsOpenFor stack.now look_up.now) open_boxes.old }
    ensures keeps { IfOk result (λ found. IfSome found (λ _. KeepsReach (cells_of uses.old) (loaded_more (loads_of look_up.now) (level_of to) (boxes_of open_boxes.old)) (cells_of uses.new) no_more)) }
    ensures tree { IfOk result (λ found. (sets : List SetOf) → IsBox sets → boxes_of open_boxes.old ≡ sets ∷ [] → IsParted (trace_of_look_up look_up.now) sets left found) }
{
    let mut left = left;
    'boxes: while let Some(mut part) = open_boxes.pop() {
        let looked = look_at(alloc, stack, look_up, to, &mut part, uses, open_boxes);
        part.close();
        looked?;
        if left == 0 {
            return Ok(None);
        }
        left -= 1;
    }
    Ok(Some(left))
}

// Looks at an open box: where all members have one trace, the row that they load is raised; else its halves are opened.
fn look_at<'a, 's>(
    alloc: Global,
    stack: &Stack<'a>,
    look_up: &LookUp<'a>,
    to: RowUse,
    part: &mut OpenBox<'a, 's>,
    uses: &mut Uses,
    open_boxes: &mut OpenBoxes<'a, 's>,
) -> Result<(), OutOfMemory>
    requires { IsOpenFor stack.now look_up.now part.old }
    ensures keeps { IfOk result (λ _. KeepsReach (cells_of uses.old) (loaded_more (loads_of look_up.now) (level_of to) (boxes_of open_boxes.old ++ part.old.members ∷ [])) (cells_of uses.new) (loaded_more (loads_of look_up.now) (level_of to) (boxes_of open_boxes.new))) }
    ensures node { IfOk result (λ _. AddsNode (trace_of_look_up look_up.now) part.old.members (boxes_of open_boxes.old) (boxes_of open_boxes.new)) }
    ensures open { IfOk result (λ _. All (IsOpenFor stack.now look_up.now) open_boxes.old → All (IsOpenFor stack.now look_up.now) open_boxes.new) }
{
    let common = part.common_trace(alloc, stack)?;
    match common {
        CommonTrace::One(_) => {
            raise_row(look_up, &part.members, to, uses);
            Ok(())
        }
        CommonTrace::Mixed(first) => {
            let parting = part.weightiest_parting(alloc, first)?;
            let test = parting_test(alloc, &part.members, &parting)?;
            open_halves(alloc, part, &test, open_boxes)
        }
    }
}

// Raises the row that all members load, if they load one.
fn raise_row(look_up: &LookUp<'_>, members: &ConfigBox, to: RowUse, uses: &mut Uses)
    requires { (d e : List ℕ) → IsMember members.now d → IsMember members.now e → loads_of look_up.now d ≡ loads_of look_up.now e }
    ensures { (boxes : List (List SetOf)) → KeepsReach (cells_of uses.old) (loaded_more (loads_of look_up.now) (level_of to) (boxes ++ members.now ∷ [])) (cells_of uses.new) (loaded_more (loads_of look_up.now) (level_of to) boxes) }
{
    match look_up.loaded_row(&members.corner()) {
        Some(row) => uses.raise(&row, to),
        None => {}
    }
}

// Opens the halves of a box by a test.
fn open_halves<'a, 's>(
    alloc: Global,
    whole: &OpenBox<'a, 's>,
    test: &Test,
    open_boxes: &mut OpenBoxes<'a, 's>,
) -> Result<(), OutOfMemory>
    requires { CanBeAsked whole.now.members (test_of test.now) }
    ensures halves { IfOk result (λ _. OpensHalves whole.now.members (test_of test.now) (boxes_of open_boxes.old) (boxes_of open_boxes.new)) }
    ensures open { IfOk result (λ _. (stack : List LayerOf) (look_up : LookUp) → IsOpenFor stack look_up whole.now → All (IsOpenFor stack look_up) open_boxes.old → All (IsOpenFor stack look_up) open_boxes.new) }
{
    let halving = open_boxes.push_halves(alloc, whole, test)?;
    match halving {
        Halving::Opened => Ok(()),
        // The test is one that can be asked of these members, and parts two of them.
        Halving::WrongKind => unreachable!(),
        Halving::EmptyHalf => unreachable!(),
    }
}
