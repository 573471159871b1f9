//! The look-ups of what an id says.

ghost use Rattle.std.specs.Prelude.{◌+◌};
ghost use Rattle.std.specs.Option.{option_map};
ghost use Rattle.reference_resolver.specs.overlay_map.Candidates.{cand_of};
ghost use Rattle.bags_themes.specs.BagIds.{most_bags};
ghost use Rattle.bags_themes.specs.Course.{after_content, after_end, after_parent, IsWay};

use crate::bag_ids::parent_id;
use crate::bags::MOST_BAGS;
use crate::course::{Course, CourseStep};
use reference_resolver::{Cand, End, Next, ResId};

/// What comes after a look-up of an id, for which this was selected.
pub(crate) fn after_content<'a, 's>(
    id: ResId,
    best: &Option<Cand<'a>>,
    left: u8,
) -> CourseStep<'a, 's>
    ensures { IsWay (λ stack. after_content stack left id.0 (option_map cand_of best.now)) (left + most_bags) result }
{
    match Next::of(id, best).cut_off(left) {
        Next::LookUp(target) => CourseStep::LookUp(target, Course::Content { left: left - 1 }),
        Next::EndsAt(end) => after_end(end, best),
    }
}

// What comes after this was selected for the id at which references end so.
#[tactic(auto, unfolding(crate::specs::Course::trace_from))]
fn after_end<'a, 's>(end: End, best: &Option<Cand<'a>>) -> CourseStep<'a, 's>
    ensures { IsWay (λ stack. after_end stack end (option_map cand_of best.now)) most_bags result }
{
    match end {
        End::Bag { id } => after_parent(id, best, MOST_BAGS),
        End::Value { .. } | End::Absent { .. } | End::TooLong { .. } => CourseStep::EndsAt(end),
    }
}

/// What comes after this was selected for a bag, or for a parent of it.
pub(crate) fn after_parent<'a, 's>(
    bag: ResId,
    best: &Option<Cand<'a>>,
    left: u8,
) -> CourseStep<'a, 's>
    ensures { IsWay (λ stack. after_parent stack bag left (option_map cand_of best.now)) left result }
{
    match parent_id(best, left) {
        Some(parent) => CourseStep::LookUp(
            parent,
            Course::Parents {
                bag,
                left: left - 1,
            },
        ),
        None => CourseStep::EndsAt(End::Bag { id: bag }),
    }
}
