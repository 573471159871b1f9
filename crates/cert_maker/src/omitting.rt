//! A certificate for those goals that have a value at all devices.

ghost use Rattle.std.specs.Prelude.{IfOk, map};
ghost use Rattle.cert_checker.specs.res_value.Goal.{goal_seen};
ghost use Rattle.cert_maker.specs.Omitting.{IsOmitting};
ghost use Rattle.cert_maker.specs.Judged.{Judges};

use crate::omitted::{Omitted, Omitting};
use crate::tree::{Grown, grow_tree};
use crate::trees::copied;
use cert_checker::{Cert, CertGoal, ConfigBox, Goal, OutOfMemory, Progress, Stack};
use std::alloc::Global;

/// A certificate for the goals that end at a value or a bag at all devices of a box, with at most so many nodes in
/// all, and for each other goal a device that shows it; or that there would be more nodes. A goal that is left out
/// counts no node, but where its tree passes the limit before such a device is found.
pub fn make_omitting<P: Progress>(
    alloc: Global,
    stack: &Stack<'_>,
    members: &ConfigBox,
    asked: &[Goal],
    max_nodes: u32,
    progress: &mut P,
) -> Result<Omitting, OutOfMemory>
    ensures { IfOk result (IsOmitting stack.now members.now (map goal_seen asked.now) max_nodes) }
{
    let mut judged = Judged {
        grown: Vec::new(alloc),
        omitted: Vec::new(alloc),
        spare: max_nodes as usize,
    };
    for (place, goal) in asked.iter().enumerate() {
        if !judged.add(alloc, stack, members, place, goal)? {
            return Ok(Omitting::NodeLimit);
        }
        progress.goals_done(place + 1, asked.len());
    }
    Ok(Omitting::Cert {
        certificate: Cert {
            goals: judged.grown,
        },
        omitted: judged.omitted,
    })
}

/// The first goals: some have their trees, and the others are left out.
#[derive(Drop)]
struct Judged {
    grown: Vec<CertGoal>,
    omitted: Vec<Omitted>,
    /// How many nodes the trees of the other goals may have together.
    spare: usize,
}

impl Judged {
    /// Adds the tree of the goal at a place, or leaves it out. It answers no where the tree is too large.
    fn add(
        &mut self,
        alloc: Global,
        stack: &Stack<'_>,
        members: &ConfigBox,
        place: usize,
        goal: &Goal,
    ) -> Result<bool, OutOfMemory>
        ensures { IfOk result (Judges stack.now members.now place (goal_seen goal.now) self.old self.new) }
    {
        match grow_tree(alloc, stack, goal, members, self.spare)? {
            Grown::Tree(nodes) => {
                self.spare -= nodes.len();
                let goal = copied(goal)?;
                self.grown.push(CertGoal { goal, nodes })?;
                Ok(true)
            }
            Grown::Counterexample(device, ending) => {
                self.omitted.push(Omitted {
                    goal: place,
                    device,
                    ending,
                })?;
                Ok(true)
            }
            Grown::TooLarge => Ok(false),
        }
    }
}
