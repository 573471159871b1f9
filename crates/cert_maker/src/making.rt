//! A certificate for all goals.

ghost use Rattle.std.specs.Prelude.{IfOk, map};
ghost use Rattle.cert_checker.specs.res_value.Goal.{goal_seen};
ghost use Rattle.cert_maker.specs.Made.{IsMade, CanBeWritten};
ghost use Rattle.cert_maker.specs.Least.{IsLeast};

use crate::made::Made;
use crate::trees::Trees;
use cert_checker::{Cert, ConfigBox, Goal, OutOfMemory, Progress, Stack, Unwatched};
use std::alloc::Global;

/// A certificate for goals and all devices of a box, with at most so many nodes in all; or a device for which one of
/// the goals ends at no value and no bag; or that there would be more nodes. Where both of these hold, either may be
/// the answer.
pub fn make(
    alloc: Global,
    stack: &Stack<'_>,
    members: &ConfigBox,
    asked: &[Goal],
    max_nodes: u32,
) -> Result<Made, OutOfMemory>
    ensures made { IfOk result (IsMade stack.now members.now (map goal_seen asked.now) max_nodes) }
    ensures least { IfOk result (IsLeast stack.now members.now (map goal_seen asked.now) max_nodes) }
    ensures fits { IfOk result (CanBeWritten members.now) }
{
    make_watched(alloc, stack, members, asked, max_nodes, &mut Unwatched)
}

/// The same, where the caller comes to know after each goal how far the work is.
pub fn make_watched<P: Progress>(
    alloc: Global,
    stack: &Stack<'_>,
    members: &ConfigBox,
    asked: &[Goal],
    max_nodes: u32,
    progress: &mut P,
) -> Result<Made, OutOfMemory>
    ensures made { IfOk result (IsMade stack.now members.now (map goal_seen asked.now) max_nodes) }
    ensures least { IfOk result (IsLeast stack.now members.now (map goal_seen asked.now) max_nodes) }
    ensures fits { IfOk result (CanBeWritten members.now) }
{
    // The tree of each goal has one node at least.
    let Some(spare) = (max_nodes as usize).checked_sub(asked.len()) else {
        return Ok(Made::NodeLimit);
    };
    let mut trees = Trees {
        grown: Vec::new(alloc),
        spare,
    };
    for (place, goal) in asked.iter().enumerate() {
        if let Some(made) = trees.add(alloc, stack, members, goal)? {
            return Ok(made);
        }
        progress.goals_done(place + 1, asked.len());
    }
    Ok(Made::Cert(Cert { goals: trees.grown }))
}
