//! The verdict on a certificate as lines of JSON.

ghost use Rattle.std.specs.Prelude.{◌≡◌, ◌++◌, codes, map, slice_get, IfOk, OnOk};
ghost use Rattle.std.specs.Fmt.{decimal};
ghost use Rattle.std.specs.Option.{option_map};
ghost use Rattle.contract_words.specs.Writes.{Writes};
ghost use Rattle.serde_json.specs.View.{view, members_view};
ghost use Rattle.cert_maker.specs.cert_checker.Rule.{number_of};
ghost use Rattle.cert_maker.specs.res_value.Goal.{AttrGoal, goal_seen};
ghost use Rattle.command_base.specs.answer_text.config_record.DeviceSeen.{device_numbers};
ghost use Rattle.resource_text.specs.EndJson.{resource_data};
ghost use Rattle.resource_text.specs.TextJson.{text_data};
ghost use Rattle.resource_text.specs.VerdictJson.{accepted_json, failed_json, goal_data, shown_device_data, shown_data, with_fault, claim_shown, with_claimed, with_goal, rejected_json, rejection_json};

use crate::device_json::device_json;
use crate::goal_end_json::{put_goal_end, slot_end_json};
use crate::line_json::{line_members, write_line};
use crate::naming::Naming;
use crate::text_json::text_json;
use bags_themes::ResId;
use cert_maker::{Goal, Rule, Shown, Verdict};
use command_base::{Device, End};
use serde_json::{Map, Value, put};
use std::alloc::{AllocError, Global};
use std::io::{self, Write};

// ---- counts

/// Writes how many goals and nodes a certificate has that is accepted.
#[tactic(auto, unfolding(crate::specs::VerdictJson::accepted_json))]
pub(crate) fn write_accepted_json<W: Write + Drop>(
    goals: usize,
    nodes: u128,
    out: &mut W,
) -> io::Result<()>
    ensures { Writes W.contents out.old out.new result (accepted_json goals nodes) }
{
    writeln!(
        out,
        "{{\"goals\":{goals},\"line\":\"accepted\",\"nodes\":{nodes}}}"
    )
}

/// Writes how many goals of a list are rejected.
#[tactic(auto, unfolding(crate::specs::VerdictJson::failed_json))]
pub(crate) fn write_failed_json<W: Write + Drop>(
    failed: usize,
    goals: usize,
    out: &mut W,
) -> io::Result<()>
    ensures { Writes W.contents out.old out.new result (failed_json failed goals) }
{
    writeln!(
        out,
        "{{\"failed\":{failed},\"goals\":{goals},\"line\":\"failed\"}}"
    )
}

// ---- a rejection

/// Writes a rejection of these goals, where the node says this end.
#[tactic(auto, unfolding(crate::specs::VerdictJson::rejection_json))]
pub(crate) fn write_rejection_json<W: Write + Drop>(
    naming: &Naming<'_, '_, '_>,
    goals: &[Goal],
    claimed: Option<End>,
    verdict: &Verdict,
    out: &mut W,
) -> io::Result<()>
    ensures { Writes W.contents out.old out.new result (rejection_json naming.now (map goal_seen goals.now) claimed verdict.now) }
{
    match verdict {
        Verdict::Accepted => Ok(()),
        Verdict::Rejected {
            goal,
            node,
            rule,
            shown,
        } => {
            let asked = goals.get(*goal);
            write_rejected(naming, asked, claimed, *goal, *node, *rule, shown, out)
        }
    }
}

#[tactic(auto, unfolding(crate::specs::VerdictJson::rejected_json))]
fn write_rejected<W: Write + Drop>(
    naming: &Naming<'_, '_, '_>,
    asked: Option<&Goal>,
    claimed: Option<End>,
    goal: usize,
    node: usize,
    rule: Rule,
    shown: &Shown,
    out: &mut W,
) -> io::Result<()>
    ensures { Writes W.contents out.old out.new result
        (rejected_json naming.now (option_map (λ goal. goal_seen goal.now) asked.entry) claimed goal node rule shown.now) }
{
    let mut members = line_members(naming.alloc(), "rejected")?;
    put_fault(naming.alloc(), goal, node, rule, &mut members)?;
    put_goal(naming, asked, claimed, shown, &mut members)?;
    write_line(naming.alloc(), members, out)
}

#[tactic(auto, unfolding(crate::specs::VerdictJson::with_fault))]
fn put_fault(
    alloc: Global,
    goal: usize,
    node: usize,
    rule: Rule,
    members: &mut Map<String, Value>,
) -> Result<(), AllocError>
    ensures { OnOk result (members_view members.new.entries ≡ with_fault goal node rule (members_view members.old.entries)) }
{
    put(members, alloc, "place", Value::from(goal))?;
    put(members, alloc, "node", Value::from(node))?;
    put(members, alloc, "rule", rule_json(alloc, rule)?)?;
    let name = text_json(alloc, rule.name().as_bytes())?;
    put(members, alloc, "ruleName", name)
}

fn rule_json(alloc: Global, rule: Rule) -> Result<Value, AllocError>
    ensures { IfOk result (λ text. view text ≡ text_data (codes "N" ++ decimal (number_of rule))) }
{
    let number = rule.number();
    let mut text = Vec::new(alloc);
    match write!(text, "N{number}") {
        Ok(()) => text_json(alloc, &text),
        // To a `Vec` only a want of memory is a fault.
        Err(_) => Err(AllocError),
    }
}

// What the node says, if it is a leaf of which devices show something.
fn claim_shown(shown: &Shown, claimed: Option<End>) -> Option<End>
    ensures { result ≡ claim_shown shown.now claimed }
{
    match shown {
        Shown::Nothing => None,
        Shown::Two(..) | Shown::One(..) => claimed,
    }
}

#[tactic(auto, unfolding(crate::specs::VerdictJson::with_claimed))]
fn put_claimed(
    naming: &Naming<'_, '_, '_>,
    claimed: Option<End>,
    members: &mut Map<String, Value>,
) -> Result<(), AllocError>
    ensures { OnOk result (members_view members.new.entries ≡ with_claimed naming.now claimed (members_view members.old.entries)) }
{
    let Some(end) = claimed else {
        return Ok(());
    };
    put(
        members,
        naming.alloc(),
        "claimed",
        slot_end_json(naming, end)?,
    )
}

#[tactic(auto, unfolding(crate::specs::VerdictJson::with_goal))]
fn put_goal(
    naming: &Naming<'_, '_, '_>,
    goal: Option<&Goal>,
    claimed: Option<End>,
    shown: &Shown,
    members: &mut Map<String, Value>,
) -> Result<(), AllocError>
    ensures { OnOk result (members_view members.new.entries
        ≡ with_goal naming.now (option_map (λ goal. goal_seen goal.now) goal.entry) claimed shown.now (members_view members.old.entries)) }
{
    let Some(goal) = goal else {
        return Ok(());
    };
    put(members, naming.alloc(), "goal", goal_json(naming, goal)?)?;
    put_claimed(naming, claim_shown(shown, claimed), members)?;
    let devices = shown_json(naming, goal, shown)?;
    put(members, naming.alloc(), "devices", Value::Array(devices))
}

// ---- goals

#[tactic(auto, unfolding(crate::specs::VerdictJson::goal_data))]
fn goal_json(naming: &Naming<'_, '_, '_>, goal: &Goal) -> Result<Value, AllocError>
    ensures { IfOk result (λ json. view json ≡ goal_data naming.now (goal_seen goal.now)) }
{
    match goal {
        Goal::Id(id) => naming.resource_json(*id),
        Goal::Attr { attr, styles } => attribute_json(naming, *attr, styles),
    }
}

#[tactic(auto, unfolding(crate::specs::VerdictJson::goal_data))]
fn attribute_json(
    naming: &Naming<'_, '_, '_>,
    attr: ResId,
    styles: &[ResId],
) -> Result<Value, AllocError>
    ensures { IfOk result (λ json. view json ≡ goal_data naming.now (AttrGoal attr styles.now)) }
{
    let mut members = Map::new(naming.alloc());
    naming.put_id(attr, &mut members)?;
    let styles = resources_json(naming, styles)?;
    put(&mut members, naming.alloc(), "styles", Value::Array(styles))?;
    Ok(Value::Object(members))
}

fn resources_json(naming: &Naming<'_, '_, '_>, ids: &[ResId]) -> Result<Vec<Value>, AllocError>
    ensures { IfOk result (λ values. map view values.items ≡ map (λ id. resource_data naming.now id.0) ids.now) }
{
    let mut values = Vec::with_capacity(naming.alloc(), ids.len())?;
    for id in ids {
        let value = naming.resource_json(*id)?;
        values.push(value)?;
    }
    Ok(values)
}

// ---- the devices that show it

#[tactic(auto, unfolding(crate::specs::VerdictJson::shown_data))]
fn shown_json(
    naming: &Naming<'_, '_, '_>,
    goal: &Goal,
    shown: &Shown,
) -> Result<Vec<Value>, AllocError>
    ensures { IfOk result (λ devices. map view devices.items ≡ shown_data naming.now (goal_seen goal.now) shown.now) }
{
    let mut devices = Vec::new(naming.alloc());
    match shown {
        Shown::Nothing => {}
        Shown::Two(first, second) => {
            devices.push(shown_device_json(naming, goal, first)?)?;
            devices.push(shown_device_json(naming, goal, second)?)?;
        }
        Shown::One(device, _) => devices.push(shown_device_json(naming, goal, device)?)?,
    }
    Ok(devices)
}

#[tactic(auto, unfolding(crate::specs::VerdictJson::shown_device_data))]
fn shown_device_json(
    naming: &Naming<'_, '_, '_>,
    goal: &Goal,
    device: &Device,
) -> Result<Value, AllocError>
    ensures { IfOk result (λ json. view json ≡ shown_device_data naming.now (goal_seen goal.now) (device_numbers device.now)) }
{
    let alloc = naming.alloc();
    let mut members = Map::new(alloc);
    put(&mut members, alloc, "device", device_json(alloc, device)?)?;
    put_goal_end(naming, goal, device, &mut members)?;
    Ok(Value::Object(members))
}
