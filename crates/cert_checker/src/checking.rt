//! The check of a certificate.

ghost use Rattle.std.specs.Prelude.{IfOk, map};
ghost use Rattle.cert_tree.specs.Certificate.{goals_of};
ghost use Rattle.cert_tree.specs.res_value.Goal.{goal_seen};
ghost use Rattle.cert_checker.specs.Verdict.{IsVerdict};
ghost use Rattle.cert_checker.specs.Headline.{Headline};

use crate::goals::first_difference;
use crate::rule::Rule;
use crate::tree::check_tree;
use crate::verdict::{Shown, Verdict};
use box_trace::Stack;
use cert_tree::{Cert, ConfigBox, Goal, OutOfMemory};
use std::alloc::Global;

/// Whether a certificate is true for these goals and all devices of a box; or the first node at which a rule
/// fails, with the devices that show it.
pub fn check(
    alloc: Global,
    stack: &Stack<'_>,
    members: &ConfigBox,
    asked: &[Goal],
    certificate: &Cert,
) -> Result<Verdict, OutOfMemory>
    ensures verdict { IfOk result (IsVerdict stack.now members.now (map goal_seen asked.now) (goals_of certificate.now)) }
    ensures headline { IfOk result (Headline stack.now members.now (map goal_seen asked.now) (goals_of certificate.now)) }
{
    if let Some(goal) = first_difference(certificate.goals.as_slice(), asked) {
        return Ok(Verdict::Rejected {
            goal,
            node: 0,
            rule: Rule::GoalList,
            shown: Shown::Nothing,
        });
    }
    for (goal, tree) in certificate.goals.iter().enumerate() {
        if let Some((node, failure)) = check_tree(alloc, stack, members, tree)? {
            return Ok(Verdict::Rejected {
                goal,
                node,
                rule: failure.rule,
                shown: failure.shown,
            });
        }
    }
    Ok(Verdict::Accepted)
}
