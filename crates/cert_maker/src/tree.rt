//! The tree of one goal.

ghost use Rattle.std.specs.Prelude.{List, IfOk};
ghost use Rattle.cert_checker.specs.box_answers.NumberSet.{SetOf};
ghost use Rattle.cert_checker.specs.res_value.Goal.{GoalSeen, goal_seen};
ghost use Rattle.cert_checker.specs.FirstFault.{goal_trace};
ghost use Rattle.cert_checker.specs.OpenBoxes.{IsWholeBox};
ghost use Rattle.cert_maker.specs.Growth.{IsGrown};

use crate::growth::add_node;
use cert_checker::{ConfigBox, Device, End, Goal, Node, OpenBoxes, OutOfMemory, Stack, goal_boxes};
use std::alloc::Global;

/// What became of a tree.
#[derive(Drop)]
pub(crate) enum Grown {
    /// A tree of which no rule fails.
    Tree(Vec<Node>),
    /// A device for which the goal ends at no value and no bag, and where it ends.
    Counterexample(Device, End),
    /// The tree has more nodes than allowed.
    TooLarge,
}

/// The tree of a goal for a box, of at most so many nodes. The boxes of open paths are kept in a list, the next one
/// last.
pub(crate) fn grow_tree(
    alloc: Global,
    stack: &Stack<'_>,
    goal: &Goal,
    members: &ConfigBox,
    most: usize,
) -> Result<Grown, OutOfMemory>
    ensures { IfOk result (IsGrown (goal_trace stack.now (goal_seen goal.now)) members.now most) }
{
    let mut open_boxes = goal_boxes(alloc, stack, goal, members)?;
    let grown = grow_nodes(alloc, stack, most, &mut open_boxes);
    open_boxes.close();
    grown
}

// The same from a whole box on. Each open box needs at least one node, so a tree is given up where its nodes and the open
// boxes together exceed the limit.
fn grow_nodes<'a, 's>(
    alloc: Global,
    stack: &Stack<'a>,
    most: usize,
    open_boxes: &mut OpenBoxes<'a, 's>,
) -> Result<Grown, OutOfMemory>
    ensures { IfOk result (λ grown. (goal : GoalSeen) (sets : List SetOf) → IsWholeBox stack.now (goal_trace stack.now goal) sets open_boxes.old → IsGrown (goal_trace stack.now goal) sets most grown) }
{
    let mut nodes = Vec::new(alloc);
    'boxes: while let Some(mut part) = open_boxes.pop() {
        let found = add_node(alloc, stack, &mut part, &mut nodes, open_boxes);
        part.close();
        if let Some((device, end)) = found? {
            return Ok(Grown::Counterexample(device, end));
        }
        if nodes.len() as u128 + open_boxes.len() as u128 > most as u128 {
            return Ok(Grown::TooLarge);
        }
    }
    Ok(Grown::Tree(nodes))
}
