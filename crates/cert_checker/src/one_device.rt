//! Where a goal ends at one device.

ghost use Rattle.std.specs.Prelude.{IfOk};
ghost use Rattle.box_trace.specs.config_record.DeviceSeen.{device_numbers};
ghost use Rattle.cert_tree.specs.res_value.Goal.{goal_seen};
ghost use Rattle.cert_checker.specs.Headline.{RulesEndAt};

use bags_themes::attribute_under;
use box_trace::{Device, End, Stack};
use cert_tree::{Goal, OutOfMemory};
use reference_resolver::resolve;
use std::alloc::Global;

/// Where a goal ends at a device. No box is asked.
pub fn goal_end(
    alloc: Global,
    stack: &Stack<'_>,
    goal: &Goal,
    device: &Device,
) -> Result<End, OutOfMemory>
    ensures { IfOk result (RulesEndAt stack.now (goal_seen goal.now) (device_numbers device.now)) }
{
    match goal {
        Goal::Id(id) => Ok(resolve(stack, *id, device)),
        Goal::Attr { attr, styles } => {
            attribute_under(alloc, stack, *attr, styles.as_slice(), device)
        }
    }
}
