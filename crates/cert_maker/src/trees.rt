//! The trees of all goals.

ghost use Rattle.std.specs.Prelude.{◌≡◌, ◌<◌, ◌^◌, IfOk};
ghost use Rattle.cert_checker.specs.res_value.Goal.{goal_seen};
ghost use Rattle.cert_maker.specs.Trees.{TakesGoal};

use crate::made::Made;
use crate::tree::{Grown, grow_tree};
use cert_checker::{CertGoal, ConfigBox, Goal, OutOfMemory, Stack};
use std::alloc::Global;

/// The trees of the first goals.
#[derive(Drop)]
pub(crate) struct Trees {
    pub(crate) grown: Vec<CertGoal>,
    /// How many nodes the trees of the other goals may have together, above one each.
    pub(crate) spare: usize,
}

impl Trees {
    /// Adds the tree of the next goal. `Some` ends the work: a device without a value, or the limit.
    pub(crate) fn add(
        &mut self,
        alloc: Global,
        stack: &Stack<'_>,
        members: &ConfigBox,
        goal: &Goal,
    ) -> Result<Option<Made>, OutOfMemory>
        requires { self.old.spare < 2 ^ 32 }
        ensures { IfOk result (TakesGoal stack.now members.now (goal_seen goal.now) self.old self.new) }
    {
        match grow_tree(alloc, stack, goal, members, self.spare + 1)? {
            Grown::Tree(nodes) => {
                self.spare = self.spare + 1 - nodes.len();
                let goal = copied(goal)?;
                self.grown.push(CertGoal { goal, nodes })?;
                Ok(None)
            }
            Grown::Counterexample(device, ending) => {
                let goal = self.grown.len();
                Ok(Some(Made::Counter {
                    goal,
                    device,
                    ending,
                }))
            }
            Grown::TooLarge => Ok(Some(Made::NodeLimit)),
        }
    }
}

/// The same goal, with styles of its own.
pub(crate) fn copied(goal: &Goal) -> Result<Goal, OutOfMemory>
    ensures { IfOk result (λ copied. goal_seen copied ≡ goal_seen goal.now) }
{
    goal.clone()
}
