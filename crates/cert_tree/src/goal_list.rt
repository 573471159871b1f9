//! The goals of a certificate, as they are read. They can stand before the version, so they are read as those of both
//! versions.

ghost use Rattle.std.specs.Prelude.{◌≡◌, ◌<◌, ◌≤◌, length, if◌then◌else◌, OnOk};
ghost use Rattle.json_tokens.specs.Standing.{value_at};
ghost use Rattle.json_tokens.specs.Reads.{ReadsOr};
ghost use Rattle.cert_tree.specs.declared.cert_fault.CertFault.TheVariants.{Syntax, OutOfMemory};
ghost use Rattle.cert_tree.specs.Certificate.{most_nodes};
ghost use Rattle.cert_tree.specs.KeptCert.{goal_kept, goal_read_seen, goals_in_both, no_goals, goals_read_seen, goals_result_seen, other_after};

use crate::cert::CertGoal;
use crate::cert_fault::CertFault;
use crate::goal_members::{GoalPlace, read_goal_members};
use config_box::LocaleRule;
use json_tokens::Tokens;
use std::alloc::Global;

/// A goal that was read.
#[derive(Drop)]
pub(crate) struct GoalRead {
    /// It has no member but of a goal of an id.
    pub(crate) of_id: bool,
    /// What it means where goals of attributes can be there.
    pub(crate) goal: Result<CertGoal, CertFault>,
}

/// What a list of goals means in both versions.
#[derive(Drop)]
pub(crate) struct GoalsRead {
    /// Where goals of attributes can be there.
    pub(crate) goals: Result<Vec<CertGoal>, CertFault>,
    /// The place of the first goal that is none of an id, up to the first that has a fault. In version 1 it is the fault.
    pub(crate) first_other: Option<usize>,
}

impl GoalsRead {
    /// Where there is no list.
    pub(crate) fn missing() -> GoalsRead
        ensures { goals_read_seen result ≡ no_goals }
    {
        GoalsRead {
            goals: Err(CertFault::Shape(0, 0)),
            first_other: None,
        }
    }

    /// The goals, where goals of attributes can be there or can't.
    pub(crate) fn into_goals(self, attributes: bool) -> Result<Vec<CertGoal>, CertFault>
        ensures { goals_result_seen result ≡ if attributes then (goals_read_seen self).in_version_2 else (goals_read_seen self).in_version_1 }
    {
        match self.first_other {
            Some(place) if !attributes => Err(CertFault::Shape(place, 0)),
            _ => self.goals,
        }
    }
}

/// Reads the list of the goals.
pub(crate) fn read_goals(
    tokens: &mut Tokens<'_>,
    alloc: Global,
    depth: usize,
    rule: LocaleRule,
) -> Result<GoalsRead, CertFault>
    ensures value { ReadsOr Syntax OutOfMemory goals_read_seen (goals_in_both rule) (value_at depth tokens.old) result tokens.new }
    ensures shorter { OnOk result (length tokens.new < length tokens.old) }
{
    if !tokens.enter_list(depth)? {
        return Ok(GoalsRead::missing());
    }
    let mut goals = Vec::new(alloc);
    let mut nodes_before = 0;
    let mut first_other = None;
    'goals: while tokens.next_item() {
        let at = GoalPlace {
            goal: goals.len(),
            nodes_before,
            rule,
        };
        let GoalRead { of_id, goal } = read_goal(tokens, alloc, depth - 1, at)?;
        first_other = other_after(first_other, of_id, goals.len());
        match goal {
            Ok(goal) => {
                nodes_before += goal.nodes.len();
                goals.push(goal)?;
            }
            Err(fault) => {
                tokens.pass_items(depth - 1)?;
                let goals = Err(fault);
                return Ok(GoalsRead { goals, first_other });
            }
        }
    }
    let goals = Ok(goals);
    Ok(GoalsRead { goals, first_other })
}

// The place of the first goal that is none of an id, where this is the next.
fn other_after(before: Option<usize>, of_id: bool, place: usize) -> Option<usize>
    ensures { result ≡ other_after before of_id place }
{
    match before {
        Some(first) => Some(first),
        None if of_id => None,
        None => Some(place),
    }
}

fn read_goal(
    tokens: &mut Tokens<'_>,
    alloc: Global,
    depth: usize,
    at: GoalPlace,
) -> Result<GoalRead, CertFault>
    requires { at.nodes_before ≤ most_nodes }
    ensures value { ReadsOr Syntax OutOfMemory goal_read_seen (goal_kept at) (value_at depth tokens.old) result tokens.new }
    ensures shorter { OnOk result (length tokens.new < length tokens.old) }
{
    let members = read_goal_members(tokens, alloc, depth, at)?;
    let of_id = members.of_id;
    let goal = members.into_goal(CertFault::Shape(at.goal, 0));
    Ok(GoalRead { of_id, goal })
}
