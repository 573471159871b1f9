//! Which style sets an attribute, and where the attribute ends, as lines of JSON.

ghost use Rattle.std.specs.Prelude.{◌≡◌, false, IfOk, OnOk};
ghost use Rattle.std.specs.List.{flat_map};
ghost use Rattle.contract_words.specs.Writes.{Writes};
ghost use Rattle.serde_json.specs.View.{view, members_view};
ghost use Rattle.serde_json.specs.Written.{has_float};
ghost use Rattle.reference_resolver.specs.config_precedence.config_record.DeviceSeen.{device_numbers};
ghost use Rattle.resource_text.specs.AttrJson.{setting_data, setting_did, with_own, style_json, slot_line, slot_json, attr_json};

use crate::attribute::{Setting, StyleStep, style_steps};
use crate::end_json::end_within_json;
use crate::explanation_json::{put_did, write_look_ups};
use crate::goal_end_json::slot_end_json;
use crate::line_json::{line_members, write_line};
use crate::look_ups::AFTER_SLOT;
use crate::naming::Naming;
use answer_text::{BagRow, ResId};
use bags_themes::{Device, Slot};
use serde_json::{Map, Value, put};
use std::alloc::{AllocError, Global};
use std::io::{self, Write};

/// A line for an attribute, one for each style with the row by which it would set the attribute, and what it does, and how this
/// comes to its end, each a JSON object. The slot is that of the attribute in the theme that the styles build, with force or without.
pub fn attr_lines_json(
    naming: &Naming<'_, '_, '_>,
    device: &Device,
    force: bool,
    attr: ResId,
    styles: &[ResId],
    slot: Slot,
) -> Result<Vec<u8>, AllocError>
    ensures { IfOk result (λ lines. lines.items ≡ attr_json naming.now force attr.0 (device_numbers device.now) styles.now slot) }
{
    let mut lines = Vec::new(naming.alloc());
    match write_attr(naming, device, force, attr, styles, slot, &mut lines) {
        Ok(()) => Ok(lines),
        // To a `Vec` only a want of memory is a fault.
        Err(_) => Err(AllocError),
    }
}

#[tactic(auto, unfolding(crate::specs::AttrJson::attr_json))]
fn write_attr<W: Write + Drop>(
    naming: &Naming<'_, '_, '_>,
    device: &Device,
    force: bool,
    attr: ResId,
    styles: &[ResId],
    slot: Slot,
    out: &mut W,
) -> io::Result<()>
    ensures { Writes W.contents out.old out.new result (attr_json naming.now force attr.0 (device_numbers device.now) styles.now slot) }
{
    let mut members = line_members(naming.alloc(), "attribute")?;
    naming.put_id(attr, &mut members)?;
    write_line(naming.alloc(), members, out)?;
    let steps = style_steps(naming.alloc(), naming.stack(), device, force, attr, styles)?;
    write_styles(naming, &steps, out)?;
    write_slot(naming, device, slot, out)
}

// ---- styles

#[tactic(auto, using(answer_text::proofs::ItemSteps::item_steps))]
fn write_styles<W: Write + Drop>(
    naming: &Naming<'_, '_, '_>,
    steps: &[StyleStep],
    out: &mut W,
) -> io::Result<()>
    ensures { Writes W.contents out.old out.new result (flat_map (style_json naming.now) steps.now) }
{
    for step in steps {
        write_style(naming, *step, out)?;
    }
    Ok(())
}

#[tactic(auto, unfolding(crate::specs::AttrJson::style_json))]
fn write_style<W: Write + Drop>(
    naming: &Naming<'_, '_, '_>,
    step: StyleStep,
    out: &mut W,
) -> io::Result<()>
    ensures { Writes W.contents out.old out.new result (style_json naming.now step) }
{
    let alloc = naming.alloc();
    let mut members = line_members(alloc, "style")?;
    naming.put_id(step.style, &mut members)?;
    put(
        &mut members,
        alloc,
        "decision",
        setting_json(alloc, step.setting)?,
    )?;
    put_own(naming, step.own, &mut members)?;
    write_line(alloc, members, out)
}

#[tactic(auto, unfolding(crate::specs::AttrJson::setting_data))]
fn setting_json(alloc: Global, setting: Setting) -> Result<Value, AllocError>
    ensures { IfOk result (λ json. view json ≡ setting_data setting) }
{
    let mut members = Map::new(alloc);
    put_did(
        alloc,
        setting_did(setting),
        setting.words().as_bytes(),
        &mut members,
    )?;
    Ok(Value::Object(members))
}

#[tactic(auto, unfolding(crate::specs::AttrJson::setting_did))]
fn setting_did(setting: Setting) -> &'static str
    ensures { result.now ≡ setting_did setting }
{
    match setting {
        Setting::NotSet => "not set",
        Setting::First => "first",
        Setting::TookOver => "took over",
        Setting::KeptOut => "kept out",
    }
}

// Puts the value by which a style would set the attribute, and its layer.
#[tactic(auto, unfolding(crate::specs::AttrJson::with_own))]
fn put_own(
    naming: &Naming<'_, '_, '_>,
    own: Option<BagRow>,
    members: &mut Map<String, Value>,
) -> Result<(), AllocError>
    ensures { OnOk result (members_view members.new.entries ≡ with_own naming.now own (members_view members.old.entries)) }
{
    let Some(row) = own else {
        return Ok(());
    };
    let value = naming.value_json(row.layer, row.value)?;
    put(members, naming.alloc(), "value", value)?;
    naming.put_from_layer(row.layer, members)
}

// ---- the end

// Writes the look-ups of what a style refers to, and the end.
#[tactic(auto, unfolding(crate::specs::AttrJson::slot_json))]
fn write_slot<W: Write + Drop>(
    naming: &Naming<'_, '_, '_>,
    device: &Device,
    slot: Slot,
    out: &mut W,
) -> io::Result<()>
    ensures { Writes W.contents out.old out.new result (slot_json naming.now (device_numbers device.now) slot) }
{
    match slot {
        Slot::Refers(target) => {
            write_look_ups(naming, device, target, AFTER_SLOT, out)?;
            let end = end_within_json(naming, device, target, AFTER_SLOT)?;
            write_slot_line(naming.alloc(), end, out)
        }
        Slot::Ends(end) => {
            let end = slot_end_json(naming, end)?;
            write_slot_line(naming.alloc(), end, out)
        }
    }
}

fn write_slot_line<W: Write + Drop>(alloc: Global, end: Value, out: &mut W) -> io::Result<()>
    requires { has_float (view end) ≡ false }
    ensures { Writes W.contents out.old out.new result (slot_line (view end)) }
{
    let mut members = line_members(alloc, "end")?;
    put(&mut members, alloc, "end", end)?;
    write_line(alloc, members, out)
}
