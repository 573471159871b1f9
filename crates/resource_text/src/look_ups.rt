//! The ids that are looked up for goals, and the qualifiers of their rows.

ghost use Rattle.std.specs.Prelude.{◌≡◌, ◌≢◌, ◌++◌, ℕ, List, true, map, IfOk, OnOk};
ghost use Rattle.std.specs.List.{list_any};
ghost use Rattle.reference_resolver.specs.config_precedence.config_record.DeviceSeen.{device_numbers};
ghost use Rattle.reference_resolver.specs.config_precedence.config_record.Record.{record_bytes};
ghost use Rattle.reference_resolver.specs.Trace.{look_ups_of};
ghost use Rattle.res_value.specs.Goal.{goal_seen};
ghost use Rattle.res_value.specs.declared.res_id.ResId.{ResId};
ghost use Rattle.answer_text.specs.bags_themes.declared.bag_fault.BagFault.TheVariants.{OutOfMemory};
ghost use Rattle.answer_text.specs.bags_themes.BagIds.{bag_ids};
ghost use Rattle.answer_text.specs.bags_themes.Styles.{values_after_styles};
ghost use Rattle.answer_text.specs.bags_themes.Theme.{unset};
ghost use Rattle.resource_text.specs.GoalLookUps.{goal_ids, has_qualifier, id_has, slot_ids, style_ids, theme_ids};

use answer_text::{BagFault, Stack, bag};
use bags_themes::{Coord, Device, Next, REFERENCES_FOLLOWED, Record, ResId, Slot, Theme, chain};
use reference_resolver::select;
use res_value::Goal;
use std::alloc::{AllocError, Global};

/// How many references are followed after that of a slot, at most: that is the first.
pub(crate) const AFTER_SLOT: u8 = REFERENCES_FOLLOWED - 1;

/// What stands in no number of a locale without a language or a region.
const LANGUAGE: u32 = 32;

/// Notes the ids that are looked up for a goal at a device.
#[tactic(auto, unfolding(crate::specs::GoalLookUps::goal_ids))]
pub(crate) fn push_goal(
    alloc: Global,
    stack: &Stack<'_>,
    goal: &Goal,
    device: &Device,
    ids: &mut Vec<ResId>,
) -> Result<(), AllocError>
    ensures { OnOk result (map (λ id. id.0) ids.new.items ≡ map (λ id. id.0) ids.old.items
        ++ goal_ids stack.now (goal_seen goal.now) (device_numbers device.now)) }
{
    match goal {
        Goal::Id(id) => push_references(stack, *id, device, REFERENCES_FOLLOWED, ids),
        Goal::Attr { attr, styles } => {
            push_styles(alloc, stack, styles, device, ids)?;
            push_theme(alloc, stack, *attr, styles, device, ids)
        }
    }
}

// Those of an id and of what it refers to, where at most so many references are followed.
fn push_references(
    stack: &Stack<'_>,
    id: ResId,
    device: &Device,
    most: u8,
    ids: &mut Vec<ResId>,
) -> Result<(), AllocError>
    ensures { OnOk result (map (λ id. id.0) ids.new.items ≡ map (λ id. id.0) ids.old.items
        ++ look_ups_of stack.now most id.0 (device_numbers device.now)) }
{
    let mut id = id;
    let mut left = most;
    'chain: loop {
        ids.push(id)?;
        match Next::of(id, &select(stack, id, device)).cut_off(left) {
            Next::EndsAt(_) => return Ok(()),
            Next::LookUp(target) => id = target,
        }
        left -= 1;
    }
}

// Those of styles and their parents, up to the first style that is refused.
fn push_styles(
    alloc: Global,
    stack: &Stack<'_>,
    styles: &[ResId],
    device: &Device,
    ids: &mut Vec<ResId>,
) -> Result<(), AllocError>
    ensures { OnOk result (map (λ id. id.0) ids.new.items ≡ map (λ id. id.0) ids.old.items
        ++ style_ids stack.now (device_numbers device.now) styles.now) }
{
    for style in styles {
        push_bag(stack, *style, device, ids)?;
        match bag(alloc, stack, *style, device) {
            Ok(_) => {}
            Err(fault) => {
                refused(fault)?;
                return Ok(());
            }
        }
    }
    Ok(())
}

fn push_bag(
    stack: &Stack<'_>,
    id: ResId,
    device: &Device,
    ids: &mut Vec<ResId>,
) -> Result<(), AllocError>
    ensures { OnOk result (map (λ id. id.0) ids.new.items ≡ map (λ id. id.0) ids.old.items
        ++ bag_ids stack.now id.0 (device_numbers device.now)) }
{
    for id in chain(stack, id, device) {
        ids.push(id)?;
    }
    Ok(())
}

// Want of memory alone is a fault here.
fn refused(fault: BagFault) -> Result<(), AllocError>
    ensures { OnOk result (fault ≢ OutOfMemory) }
{
    match fault {
        BagFault::OutOfMemory => Err(AllocError),
        BagFault::Absent | BagFault::Plain | BagFault::BagDepth => Ok(()),
    }
}

// Those of the reference that an attribute is in the theme that styles build, if none is refused.
fn push_theme(
    alloc: Global,
    stack: &Stack<'_>,
    attr: ResId,
    styles: &[ResId],
    device: &Device,
    ids: &mut Vec<ResId>,
) -> Result<(), AllocError>
    ensures { OnOk result (map (λ id. id.0) ids.new.items ≡ map (λ id. id.0) ids.old.items
        ++ theme_ids stack.now attr.0 (device_numbers device.now) (values_after_styles stack.now true styles.now unset (device_numbers device.now))) }
{
    match Theme::of_styles(alloc, stack, styles, true, device) {
        Ok(theme) => push_slot(stack, theme.slot(attr), device, ids),
        Err(fault) => refused(fault),
    }
}

fn push_slot(
    stack: &Stack<'_>,
    slot: Slot,
    device: &Device,
    ids: &mut Vec<ResId>,
) -> Result<(), AllocError>
    ensures { OnOk result (map (λ id. id.0) ids.new.items ≡ map (λ id. id.0) ids.old.items
        ++ slot_ids stack.now (device_numbers device.now) slot) }
{
    match slot {
        Slot::Refers(target) => push_references(stack, target, device, AFTER_SLOT, ids),
        Slot::Ends(_) => Ok(()),
    }
}

/// Whether a row that may stand for one of these ids has this qualifier.
pub(crate) fn some_has(stack: &Stack<'_>, ids: &[ResId], coord: Coord) -> bool
    ensures { result ≡ list_any (id_has stack.now coord) (map (λ id. id.0) ids.now) }
{
    'ids: for id in ids {
        if id_has(stack, *id, coord) {
            return true;
        }
    }
    false
}

fn id_has(stack: &Stack<'_>, id: ResId, coord: Coord) -> bool
    ensures { result ≡ id_has stack.now coord id.0 }
{
    for candidate in stack.candidates(id) {
        if has_qualifier(&candidate.row.config, coord) {
            return true;
        }
    }
    false
}

#[tactic(auto, unfolding(crate::specs::GoalLookUps::has_qualifier))]
fn has_qualifier(config: &Record<'_>, coord: Coord) -> bool
    ensures { result ≡ has_qualifier (record_bytes config.now) coord }
{
    match coord {
        Coord::Locale => 1 << LANGUAGE <= config.compared_number(coord),
        _ => config.get(coord) != 0,
    }
}
