//! Where goals end, as JSON values.

ghost use Rattle.std.specs.Prelude.{◌≡◌, IfOk, OnOk};
ghost use Rattle.serde_json.specs.View.{view, members_view};
ghost use Rattle.reference_resolver.specs.config_precedence.config_record.DeviceSeen.{device_numbers};
ghost use Rattle.res_value.specs.Goal.{goal_seen};
ghost use Rattle.resource_text.specs.GoalEndJson.{slot_end_data, with_goal_end, with_layer_of};

use crate::end_json::{put_end, put_end_at};
use crate::naming::Naming;
use bags_themes::{Course, Device, End};
use res_value::Goal;
use serde_json::{Map, Value, put};
use std::alloc::AllocError;

/// Puts where a goal ends at a device beside other members.
#[tactic(auto, unfolding(crate::specs::GoalEndJson::with_goal_end))]
pub(crate) fn put_goal_end(
    naming: &Naming<'_, '_, '_>,
    goal: &Goal,
    device: &Device,
    members: &mut Map<String, Value>,
) -> Result<(), AllocError>
    ensures { OnOk result (members_view members.new.entries
        ≡ with_goal_end naming.now (device_numbers device.now) (goal_seen goal.now) (members_view members.old.entries)) }
{
    match goal {
        Goal::Id(id) => put_end_at(naming, device, *id, members),
        Goal::Attr { attr, styles } => {
            let alloc = naming.alloc();
            let way = Course::of_attribute(alloc, *attr, styles)?;
            let end = way.end(alloc, naming.stack(), device)?;
            put(members, alloc, "end", slot_end_json(naming, end)?)
        }
    }
}

/// Where an attribute ends, or a leaf says that a goal does.
#[tactic(auto, unfolding(crate::specs::GoalEndJson::slot_end_data))]
pub(crate) fn slot_end_json(naming: &Naming<'_, '_, '_>, end: End) -> Result<Value, AllocError>
    ensures { IfOk result (λ json. view json ≡ slot_end_data naming.now end) }
{
    let mut members = Map::new(naming.alloc());
    put_layer_of(naming, end, &mut members)?;
    put_end(naming, end, &mut members)?;
    Ok(Value::Object(members))
}

#[tactic(auto, unfolding(crate::specs::GoalEndJson::with_layer_of))]
fn put_layer_of(
    naming: &Naming<'_, '_, '_>,
    end: End,
    members: &mut Map<String, Value>,
) -> Result<(), AllocError>
    ensures { OnOk result (members_view members.new.entries ≡ with_layer_of naming.now end (members_view members.old.entries)) }
{
    let End::Value { layer, .. } = end else {
        return Ok(());
    };
    naming.put_from_layer(layer, members)
}
