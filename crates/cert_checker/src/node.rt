//! One node of a tree.

ghost use Rattle.std.specs.Prelude.{ℕ, List, IfOk};
ghost use Rattle.std.specs.List.{All};
ghost use Rattle.box_trace.specs.reference_resolver.Trace.{Trace};
ghost use Rattle.box_trace.specs.OpenBox.{boxes_of, IsReached};
ghost use Rattle.cert_tree.specs.config_box.Tests.{test_of};
ghost use Rattle.cert_tree.specs.Certificate.{node_of};
ghost use Rattle.cert_checker.specs.OpenBoxes.{TakesNode, TakesTest};

use crate::failure::Failure;
use crate::leaf::take_leaf;
use crate::rule::Rule;
use box_trace::{End, Halving, OpenBox, OpenBoxes, Stack};
use cert_tree::{Node, OutOfMemory, Test};
use std::alloc::Global;

/// Takes the next node, to which the members of the last open box come: why it fails, if it does. Else the boxes
/// are those that are open after it.
pub(crate) fn take_node<'a, 's>(
    alloc: Global,
    stack: &Stack<'a>,
    node: &Node,
    open_boxes: &mut OpenBoxes<'a, 's>,
) -> Result<Option<Failure>, OutOfMemory>
    ensures outcome { IfOk result (λ outcome. (trace : List ℕ → Trace) → All (IsReached stack.now trace) open_boxes.old → TakesNode trace (node_of node.now) (boxes_of open_boxes.old) (boxes_of open_boxes.new) outcome) }
    ensures reached { IfOk result (λ _. (trace : List ℕ → Trace) → All (IsReached stack.now trace) open_boxes.old → All (IsReached stack.now trace) open_boxes.new) }
{
    let Some(mut part) = open_boxes.pop() else {
        return Ok(Some(Failure::of(Rule::LeftOver)));
    };
    let outcome = match node {
        Node::Test(test) => take_test(alloc, stack, &mut part, test, open_boxes),
        Node::Value { layer, value } => {
            let claimed = End::Value {
                layer: *layer,
                value: *value,
            };
            take_leaf(alloc, stack, &mut part, claimed)
        }
        Node::Bag { id } => take_leaf(alloc, stack, &mut part, End::Bag { id: *id }),
    };
    part.close();
    outcome
}

/// Why a test fails to which these members come; else its halves are opened, the one with yes last. What all members do
/// alike is asked before they part, and in neither half again.
fn take_test<'a, 's>(
    alloc: Global,
    stack: &Stack<'a>,
    whole: &mut OpenBox<'a, 's>,
    test: &Test,
    open_boxes: &mut OpenBoxes<'a, 's>,
) -> Result<Option<Failure>, OutOfMemory>
    ensures outcome { IfOk result (λ outcome. TakesTest (test_of test.now) whole.old.members (boxes_of open_boxes.old) (boxes_of open_boxes.new) outcome) }
    ensures reached { IfOk result (λ _. (trace : List ℕ → Trace) → IsReached stack.now trace whole.old → All (IsReached stack.now trace) open_boxes.old → All (IsReached stack.now trace) open_boxes.new) }
{
    let _ = whole.common_trace(alloc, stack)?;
    let halving = open_boxes.push_halves(alloc, whole, test)?;
    match halving {
        Halving::Opened => Ok(None),
        Halving::WrongKind => Ok(Some(Failure::of(Rule::TestKind))),
        Halving::EmptyHalf => Ok(Some(Failure::of(Rule::EmptyHalf))),
    }
}
