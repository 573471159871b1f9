//! The whole box, for a goal of either kind.

ghost use Rattle.std.specs.Prelude.{◌≡◌, IfOk};
ghost use Rattle.box_trace.specs.OpenBox.{IsReached};
ghost use Rattle.cert_tree.specs.res_value.Goal.{goal_seen};
ghost use Rattle.cert_checker.specs.FirstFault.{goal_trace};
ghost use Rattle.cert_checker.specs.OpenBoxes.{IsWholeBox};

use box_trace::{OpenBox, OpenBoxes, Stack};
use cert_tree::{ConfigBox, Goal, OutOfMemory};
use std::alloc::Global;

/// The whole box of a goal, and no other.
pub fn goal_boxes<'a, 's>(
    alloc: Global,
    stack: &Stack<'a>,
    goal: &'s Goal,
    members: &ConfigBox,
) -> Result<OpenBoxes<'a, 's>, OutOfMemory>
    ensures { IfOk result (IsWholeBox stack.now (goal_trace stack.now (goal_seen goal.now)) members.now) }
{
    let whole = goal_box(alloc, stack, goal, members.shared(alloc)?)?;
    OpenBoxes::of(alloc, whole)
}

/// A whole box, where nothing of a goal is asked yet.
pub(crate) fn goal_box<'a, 's>(
    alloc: Global,
    stack: &Stack<'a>,
    goal: &'s Goal,
    members: ConfigBox,
) -> Result<OpenBox<'a, 's>, OutOfMemory>
    ensures members { IfOk result (λ part. part.members ≡ members) }
    ensures reached { IfOk result (IsReached stack.now (goal_trace stack.now (goal_seen goal.now))) }
{
    match goal {
        Goal::Id(id) => OpenBox::whole(alloc, stack, *id, members),
        Goal::Attr { attr, styles } => {
            OpenBox::whole_of_attribute(alloc, stack, *attr, styles.as_slice(), members)
        }
    }
}
