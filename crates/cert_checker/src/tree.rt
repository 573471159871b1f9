//! The tree of one goal.

ghost use Rattle.std.specs.Prelude.{ℕ, List, IfOk, map};
ghost use Rattle.box_trace.specs.reference_resolver.Trace.{Trace};
ghost use Rattle.cert_tree.specs.box_answers.NumberSet.{SetOf};
ghost use Rattle.cert_tree.specs.Certificate.{node_of, goal_of};
ghost use Rattle.cert_checker.specs.FirstFault.{goal_trace};
ghost use Rattle.cert_checker.specs.OpenBoxes.{IsWholeBox, IsOutcome};

use crate::failure::Failure;
use crate::node::take_node;
use crate::rule::Rule;
use crate::whole_box::goal_boxes;
use box_trace::{OpenBoxes, Stack};
use cert_tree::{CertGoal, ConfigBox, Node, OutOfMemory};
use std::alloc::Global;

/// The first of a tree's nodes that fails, with its place, if one does. The open boxes are kept in a list, the next one
/// last.
pub(crate) fn check_tree(
    alloc: Global,
    stack: &Stack<'_>,
    members: &ConfigBox,
    tree: &CertGoal,
) -> Result<Option<(usize, Failure)>, OutOfMemory>
    ensures { IfOk result (IsOutcome (goal_trace stack.now (goal_of tree.now).goal) members.now (goal_of tree.now).nodes) }
{
    let mut open_boxes = goal_boxes(alloc, stack, &tree.goal, members)?;
    let outcome = check_nodes(alloc, stack, tree.nodes.as_slice(), &mut open_boxes);
    open_boxes.close();
    outcome
}

// The same of nodes, where all members of a whole box come to the first.
fn check_nodes<'a, 's>(
    alloc: Global,
    stack: &Stack<'a>,
    nodes: &[Node],
    open_boxes: &mut OpenBoxes<'a, 's>,
) -> Result<Option<(usize, Failure)>, OutOfMemory>
    ensures { IfOk result (λ outcome. (trace : List ℕ → Trace) (sets : List SetOf) → IsWholeBox stack.now trace sets open_boxes.old → IsOutcome trace sets (map node_of nodes.now) outcome) }
{
    for (place, node) in nodes.iter().enumerate() {
        if let Some(failure) = take_node(alloc, stack, node, open_boxes)? {
            return Ok(Some((place, failure)));
        }
    }
    if open_boxes.len() == 0 {
        Ok(None)
    } else {
        Ok(Some((nodes.len(), Failure::of(Rule::EndsEarly))))
    }
}
