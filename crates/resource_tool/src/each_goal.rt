//! Each goal of a certificate by itself.

ghost use Rattle.std.specs.Prelude.{◌≡◌, ◌∷◌, [], ◌++◌, ◌+◌, ◌<◌, ◌^◌, List, length, map, drop, IfOk, OnOk};
ghost use Rattle.resource_text.specs.cert_maker.cert_tree.Certificate.{goal_of};
ghost use Rattle.resource_text.specs.VerdictForms.{claim_at};
ghost use Rattle.resource_text.specs.declared.rejection.Rejection.{Rejection};
ghost use Rattle.resource_tool.specs.EachGoal.{IsGoalVerdict, AreRejections, IsWith, at_place, goes_on};

use cert_checker::{CertGoal, Rule, check};
use command_base::Stack;
use resource_text::{Cert, ConfigBox, Rejection, Verdict};
use std::alloc::{AllocError, Global};
use std::slice::from_ref;

/// The goal at which a certificate is rejected, where all rejections are asked for. A certificate for other goals is rejected at
/// none.
pub(crate) fn goes_on(all: bool, verdict: &Verdict) -> Option<usize>
    ensures { result ≡ goes_on all verdict.now }
{
    match verdict {
        Verdict::Accepted
        | Verdict::Rejected {
            rule: Rule::GoalList,
            ..
        } => None,
        Verdict::Rejected { goal, .. } => all.then_some(*goal),
    }
}

/// The rejection of one of these goals, and those of the goals behind it that are rejected too.
pub(crate) fn all_rejections(
    alloc: Global,
    stack: &Stack<'_>,
    members: &ConfigBox,
    trees: Vec<CertGoal>,
    goal: usize,
    first: Rejection,
) -> Result<Vec<Rejection>, AllocError>
    requires { goal < length trees.items }
    ensures { IfOk result (λ rejections. (others : List Rejection) × (rejections.items ≡ first ∷ others)
        × AreRejections stack.now members.now (goal + 1) (drop (goal + 1) (map goal_of trees.items)) others) }
{
    let mut trees = trees;
    let behind = trees.split_off(goal + 1)?;
    let first = vec![in alloc; first]?;
    let rejections = with_rejections(alloc, stack, members, first, goal + 1, behind)?;
    Ok(rejections)
}

// Adds to rejections those of these goals, of which the first stands at this place of a list.
fn with_rejections(
    alloc: Global,
    stack: &Stack<'_>,
    members: &ConfigBox,
    before: Vec<Rejection>,
    place: usize,
    trees: Vec<CertGoal>,
) -> Result<Vec<Rejection>, AllocError>
    requires { place + length trees.items < 2 ^ 64 }
    ensures { IfOk result (λ rejections. IsWith stack.now members.now before.items place (map goal_of trees.items) rejections.items) }
{
    let mut rejections = before;
    let mut place = place;
    for tree in trees {
        let rejection = check_alone(alloc, stack, members, tree)?;
        push_rejection(&mut rejections, place, rejection)?;
        place += 1;
    }
    Ok(rejections)
}

// The verdict on a goal, with what its leaf claims.
fn check_alone(
    alloc: Global,
    stack: &Stack<'_>,
    members: &ConfigBox,
    tree: CertGoal,
) -> Result<Rejection, AllocError>
    ensures { IfOk result (λ rejection. IsGoalVerdict stack.now members.now (goal_of tree) rejection.verdict
        × (rejection.claimed ≡ claim_at (goal_of tree ∷ []) rejection.verdict)) }
{
    let alone = Cert {
        goals: vec![in alloc; tree]?,
    };
    let verdict = check(
        alloc,
        stack,
        members,
        from_ref(&alone.goals[0].goal),
        &alone,
    )?;
    Ok(Rejection::of(verdict, &alone))
}

fn push_rejection(
    rejections: &mut Vec<Rejection>,
    place: usize,
    rejection: Rejection,
) -> Result<(), AllocError>
    ensures { OnOk result (rejections.new.items ≡ rejections.old.items ++ at_place place rejection.verdict rejection.claimed) }
{
    let Verdict::Rejected {
        node,
        rule,
        shown,
        ..
    } = rejection.verdict
    else {
        return Ok(());
    };
    let verdict = Verdict::Rejected {
        goal: place,
        node,
        rule,
        shown,
    };
    rejections.push(Rejection {
        verdict,
        claimed: rejection.claimed,
    })?;
    Ok(())
}
