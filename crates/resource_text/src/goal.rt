//! Goals by their names, and where they end.

ghost use Rattle.std.specs.List.{flat_map};
ghost use Rattle.contract_words.specs.Writes.{Writes};
ghost use Rattle.reference_resolver.specs.config_precedence.config_record.DeviceSeen.{device_numbers};
ghost use Rattle.res_value.specs.Goal.{goal_seen};
ghost use Rattle.resource_text.specs.GoalNotation.{claimed_end, goal_end, goal_notation, next_style};

use crate::attribute::write_slot_end;
use crate::ends::write_end_within;
use crate::naming::Naming;
use bags_themes::{Course, Device, End, REFERENCES_FOLLOWED, ResId};
use res_value::Goal;
use std::io::{self, Write};

/// Writes a goal by its name.
#[tactic(auto, unfolding(crate::specs::GoalNotation::goal_notation))]
pub(crate) fn write_goal<W: Write + Drop>(
    naming: &Naming<'_, '_, '_>,
    goal: &Goal,
    out: &mut W,
) -> io::Result<()>
    ensures { Writes W.contents out.old out.new result (goal_notation naming.now (goal_seen goal.now)) }
{
    match goal {
        Goal::Id(id) => naming.write_id(*id, out),
        Goal::Attr { attr, styles } => {
            naming.write_id(*attr, out)?;
            out.write_all(b" under")?;
            write_styles(naming, styles, out)
        }
    }
}

#[tactic(auto, using(answer_text::proofs::ItemSteps::item_steps))]
fn write_styles<W: Write + Drop>(
    naming: &Naming<'_, '_, '_>,
    styles: &[ResId],
    out: &mut W,
) -> io::Result<()>
    ensures { Writes W.contents out.old out.new result (flat_map (next_style naming.now) styles.now) }
{
    for style in styles {
        out.write_all(b" ")?;
        naming.write_id(*style, out)?;
    }
    Ok(())
}

/// Writes where a goal ends at a device.
#[tactic(auto, unfolding(crate::specs::GoalNotation::goal_end))]
pub(crate) fn write_goal_end<W: Write + Drop>(
    naming: &Naming<'_, '_, '_>,
    goal: &Goal,
    device: &Device,
    out: &mut W,
) -> io::Result<()>
    ensures { Writes W.contents out.old out.new result (goal_end naming.now (device_numbers device.now) (goal_seen goal.now)) }
{
    match goal {
        Goal::Id(id) => write_end_within(naming, device, *id, REFERENCES_FOLLOWED, out),
        Goal::Attr { attr, styles } => {
            let alloc = naming.alloc();
            let way = Course::of_attribute(alloc, *attr, styles)?;
            let end = way.end(alloc, naming.stack(), device)?;
            write_slot_end(naming, end, out)
        }
    }
}

/// Writes where a certificate says that a goal ends.
#[tactic(auto, unfolding(crate::specs::GoalNotation::claimed_end))]
pub(crate) fn write_claimed_end<W: Write + Drop>(
    naming: &Naming<'_, '_, '_>,
    end: End,
    out: &mut W,
) -> io::Result<()>
    ensures { Writes W.contents out.old out.new result (claimed_end naming.now end) }
{
    match end {
        End::Bag { id } => {
            out.write_all(b"bag ")?;
            naming.write_id(id, out)
        }
        End::Value { .. } | End::Absent { .. } | End::TooLong { .. } => {
            write_slot_end(naming, end, out)
        }
    }
}
