//! The list of goals.

ghost use Rattle.std.specs.Prelude.{◌≡◌, ◌≢◌, map, slice_get, MatchBool, MatchOption};
ghost use Rattle.cert_tree.specs.Certificate.{goal_of};
ghost use Rattle.cert_tree.specs.res_value.Goal.{goal_seen};
ghost use Rattle.cert_checker.specs.FirstFault.{goals_in, DifferFirstAt};

use cert_tree::{CertGoal, Goal};

/// The first place at which the goals of trees are not the ones that are asked.
pub(crate) fn first_difference(trees: &[CertGoal], asked: &[Goal]) -> Option<usize>
    ensures { MatchOption result
        (goals_in (map goal_of trees.now) ≡ map goal_seen asked.now)
        (DifferFirstAt (goals_in (map goal_of trees.now)) (map goal_seen asked.now)) }
{
    for (place, tree) in trees.iter().enumerate() {
        if !stands_at(asked, place, &tree.goal) {
            return Some(place);
        }
    }
    if trees.len() < asked.len() {
        Some(trees.len())
    } else {
        None
    }
}

fn stands_at(goals: &[Goal], place: usize, goal: &Goal) -> bool
    ensures { MatchBool result
        (slice_get (map goal_seen goals.now) place ≡ Some (goal_seen goal.now))
        (slice_get (map goal_seen goals.now) place ≢ Some (goal_seen goal.now)) }
{
    match goals.get(place) {
        Some(found) => found.asks_same(goal),
        None => false,
    }
}
