//! Which style sets an attribute, and where the attribute ends.

ghost use Rattle.std.specs.Prelude.{◌≡◌, map, IfOk};
ghost use Rattle.contract_words.specs.Writes.{Writes};
ghost use Rattle.reference_resolver.specs.config_precedence.config_record.DeviceSeen.{device_numbers};
ghost use Rattle.resource_text.specs.ColumnsSeen.{line_of};
ghost use Rattle.resource_text.specs.AttrNotation.{is_undefined, may_set, set_after, set_after_rows, setting_of, rows_of_style, style_line, style_steps, slot_end, slot_notation, attr_notation};

use crate::columns::{Line, write_columns};
use crate::ends::{write_end, write_end_within};
use crate::explanation::write_look_ups;
use crate::look_ups::AFTER_SLOT;
use crate::naming::Naming;
use answer_text::{BagFault, BagRow, End, ResId, Stack, bag, kind};
use bags_themes::{Device, Slot};
use std::alloc::{AllocError, Global};
use std::io::{self, Write};

/// What a style does.
#[derive(Clone, Copy)]
pub(crate) enum Setting {
    NotSet,
    First,
    TookOver,
    KeptOut,
}

impl Setting {
    ghost use Rattle.std.specs.Prelude.{◌≡◌};
    ghost use Rattle.resource_text.specs.AttrNotation.{setting_words};

    #[tactic(auto, unfolding(crate::specs::AttrNotation::setting_words))]
    pub fn words(self) -> &'static str
        ensures { result.now ≡ setting_words self }
    {
        match self {
            Setting::NotSet => "not set",
            Setting::First => "first",
            Setting::TookOver => "took over",
            Setting::KeptOut => "kept out: set already",
        }
    }
}

/// A style with the row by which it would set the attribute, and what it does.
#[derive(Clone, Copy)]
pub(crate) struct StyleStep {
    pub style: ResId,
    pub own: Option<BagRow>,
    pub setting: Setting,
}

/// A line for an attribute, one for each style with the row by which it would set the attribute, and what it does, and how this
/// comes to its end. The slot is that of the attribute in the theme that the styles build, with force or without.
pub fn attr_text(
    naming: &Naming<'_, '_, '_>,
    device: &Device,
    force: bool,
    attr: ResId,
    styles: &[ResId],
    slot: Slot,
) -> Result<Vec<u8>, AllocError>
    ensures { IfOk result (λ text. text.items ≡ attr_notation naming.now force attr.0 (device_numbers device.now) styles.now slot) }
{
    let mut text = Vec::new(naming.alloc());
    match write_attr(naming, device, force, attr, styles, slot, &mut text) {
        Ok(()) => Ok(text),
        // To a `Vec` only a want of memory is a fault.
        Err(_) => Err(AllocError),
    }
}

#[tactic(auto, unfolding(crate::specs::AttrNotation::attr_notation))]
fn write_attr<W: Write + Drop>(
    naming: &Naming<'_, '_, '_>,
    device: &Device,
    force: bool,
    attr: ResId,
    styles: &[ResId],
    slot: Slot,
    out: &mut W,
) -> io::Result<()>
    ensures { Writes W.contents out.old out.new result (attr_notation naming.now force attr.0 (device_numbers device.now) styles.now slot) }
{
    naming.write_id(attr, out)?;
    out.write_all(b"\n")?;
    let steps = style_steps(naming.alloc(), naming.stack(), device, force, attr, styles)?;
    let lines = style_lines(naming, &steps)?;
    write_columns(&lines, out)?;
    write_slot(naming, device, slot, out)?;
    out.write_all(b"\n")
}

// ---- styles

/// What each style does, in their order.
pub(crate) fn style_steps(
    alloc: Global,
    stack: &Stack<'_>,
    device: &Device,
    force: bool,
    attr: ResId,
    styles: &[ResId],
) -> Result<Vec<StyleStep>, AllocError>
    ensures { IfOk result (λ steps. steps.items ≡ style_steps stack.now (device_numbers device.now) force attr.0 None styles.now) }
{
    let mut steps = Vec::with_capacity(alloc, styles.len())?;
    let mut set = None;
    for style in styles {
        let rows = rows_of_style(alloc, stack, device, *style)?;
        let own = set_after_rows(force, attr, None, &rows);
        let setting = setting_of(force, &set, &own);
        steps.push(StyleStep {
            style: *style,
            own,
            setting,
        })?;
        set = set_after_rows(force, attr, set, &rows);
    }
    Ok(steps)
}

// The rows of a style; one that is refused has none.
fn rows_of_style(
    alloc: Global,
    stack: &Stack<'_>,
    device: &Device,
    style: ResId,
) -> Result<Vec<BagRow>, AllocError>
    ensures { IfOk result (λ rows. rows.items ≡ rows_of_style stack.now (device_numbers device.now) style) }
{
    match bag(alloc, stack, style, device) {
        Ok(own) => {
            let mut rows = Vec::new(alloc);
            rows.extend_from_slice(own.as_slice())?;
            Ok(rows)
        }
        Err(BagFault::OutOfMemory) => Err(AllocError),
        Err(BagFault::Absent | BagFault::Plain | BagFault::BagDepth) => Ok(Vec::new(alloc)),
    }
}

// What an attribute is set by after rows, where this set it before them.
fn set_after_rows(
    force: bool,
    attr: ResId,
    before: Option<BagRow>,
    rows: &[BagRow],
) -> Option<BagRow>
    ensures { result ≡ set_after_rows force attr.0 before rows.now }
{
    let mut set = before;
    for row in rows {
        set = set_after(force, attr, set, *row);
    }
    set
}

#[tactic(auto, unfolding(crate::specs::AttrNotation::set_after))]
fn set_after(force: bool, attr: ResId, set: Option<BagRow>, row: BagRow) -> Option<BagRow>
    ensures { result ≡ set_after force attr.0 set row }
{
    if row.name == attr && may_set(force, &set) {
        Some(row)
    } else {
        set
    }
}

// Whether a row may set its attribute that this set before.
fn may_set(force: bool, set: &Option<BagRow>) -> bool
    ensures { result ≡ may_set force set.now }
{
    match set {
        Some(row) => force || is_undefined(row),
        None => true,
    }
}

// Null, but not empty.
fn is_undefined(row: &BagRow) -> bool
    ensures { result ≡ is_undefined row.now }
{
    row.value.kind == kind::NULL && row.value.word != kind::NULL_EMPTY
}

// What a style does whose own row this is, where that set the attribute before it.
#[tactic(auto, unfolding(crate::specs::AttrNotation::setting_of))]
fn setting_of(force: bool, set: &Option<BagRow>, own: &Option<BagRow>) -> Setting
    ensures { result ≡ setting_of force set.now own.now }
{
    if own.is_none() {
        return Setting::NotSet;
    }
    if set.is_none() {
        return Setting::First;
    }
    if may_set(force, set) {
        Setting::TookOver
    } else {
        Setting::KeptOut
    }
}

// ---- the lines of styles

fn style_lines(naming: &Naming<'_, '_, '_>, steps: &[StyleStep]) -> io::Result<Vec<Line>>
    ensures { IfOk result (λ lines. map line_of lines.items ≡ map (style_line naming.now) steps.now) }
{
    let mut lines = Vec::with_capacity(naming.alloc(), steps.len())?;
    for step in steps {
        let line = style_line(naming, *step)?;
        lines.push(line)?;
    }
    Ok(lines)
}

#[tactic(auto, unfolding(crate::specs::AttrNotation::style_line))]
fn style_line(naming: &Naming<'_, '_, '_>, step: StyleStep) -> io::Result<Line>
    ensures { IfOk result (λ line. line_of line ≡ style_line naming.now step) }
{
    let mut line = Line::new(naming.alloc());
    naming.write_id(step.style, &mut line.layer)?;
    if let Some(own) = step.own {
        naming.write_value(own.layer, own.value, &mut line.config)?;
        naming.write_layer(own.layer, &mut line.value)?;
    }
    line.decision.write_all(step.setting.words().as_bytes())?;
    Ok(line)
}

// ---- the end

// Writes the look-ups of what a style refers to, and the end.
#[tactic(auto, unfolding(crate::specs::AttrNotation::slot_notation))]
fn write_slot<W: Write + Drop>(
    naming: &Naming<'_, '_, '_>,
    device: &Device,
    slot: Slot,
    out: &mut W,
) -> io::Result<()>
    ensures { Writes W.contents out.old out.new result (slot_notation naming.now (device_numbers device.now) slot) }
{
    match slot {
        Slot::Refers(target) => {
            write_look_ups(naming, false, device, target, AFTER_SLOT, out)?;
            write_end_within(naming, device, target, AFTER_SLOT, out)
        }
        Slot::Ends(end) => write_slot_end(naming, end, out),
    }
}

/// Writes where an attribute ends.
#[tactic(auto, unfolding(crate::specs::AttrNotation::slot_end))]
pub(crate) fn write_slot_end<W: Write + Drop>(
    naming: &Naming<'_, '_, '_>,
    end: End,
    out: &mut W,
) -> io::Result<()>
    ensures { Writes W.contents out.old out.new result (slot_end naming.now end) }
{
    match end {
        End::Value { layer, value } => {
            naming.write_value(layer, value, out)?;
            out.write_all(b" from ")?;
            naming.write_layer(layer, out)
        }
        End::Bag { .. } | End::Absent { .. } | End::TooLong { .. } => {
            write_end(naming, &None, end, out)
        }
    }
}
