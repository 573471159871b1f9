//! Where ids end, as lines of JSON.

ghost use Rattle.std.specs.Prelude.{◌≡◌, IfOk, OnOk};
ghost use Rattle.std.specs.Option.{option_map};
ghost use Rattle.serde_json.specs.View.{view, members_view};
ghost use Rattle.reference_resolver.specs.config_precedence.config_record.DeviceSeen.{device_numbers};
ghost use Rattle.answer_text.specs.overlay_map.Candidates.{cand_of};
ghost use Rattle.config_box.specs.config_record.Record.{record_bytes};
ghost use Rattle.contract_words.specs.Writes.{Writes};
ghost use Rattle.resource_text.specs.EndJson.{place_data, with_end, with_origin, end_data, end_data_within, with_end_at, end_json, ends_json};

use crate::config_json::config_json;
use crate::last::last_within;
use crate::line_json::{line_members, write_line, write_set_aside_json};
use crate::naming::Naming;
use bags_themes::{Cand, Device, End, REFERENCES_FOLLOWED, Record, ResId};
use command_base::{LocaleRule, rows_set_aside};
use serde_json::{Map, Value, put};
use std::alloc::AllocError;
use std::io::{self, Write};

/// A line for each of some ids with its end for a device, in the order of the ids, and one with the number of rows that are set
/// aside; each is a JSON object.
pub fn ends_json(
    naming: &Naming<'_, '_, '_>,
    device: &Device,
    ids: &[ResId],
) -> Result<Vec<u8>, AllocError>
    ensures { IfOk result (λ lines. lines.items ≡ ends_json naming.now (device_numbers device.now) ids.now) }
{
    let mut lines = Vec::new(naming.alloc());
    match write_ends(naming, device, ids, &mut lines) {
        Ok(()) => Ok(lines),
        // To a `Vec` only a want of memory is a fault.
        Err(_) => Err(AllocError),
    }
}

#[tactic(auto, unfolding(crate::specs::EndJson::ends_json))]
fn write_ends<W: Write + Drop>(
    naming: &Naming<'_, '_, '_>,
    device: &Device,
    ids: &[ResId],
    out: &mut W,
) -> io::Result<()>
    ensures { Writes W.contents out.old out.new result (ends_json naming.now (device_numbers device.now) ids.now) }
{
    for id in ids {
        write_end_line(naming, device, *id, out)?;
    }
    let rule = LocaleRule::of(device.locale());
    write_set_aside_json(rows_set_aside(naming.stack(), rule), out)
}

#[tactic(auto, unfolding(crate::specs::EndJson::end_json))]
fn write_end_line<W: Write + Drop>(
    naming: &Naming<'_, '_, '_>,
    device: &Device,
    id: ResId,
    out: &mut W,
) -> io::Result<()>
    ensures { Writes W.contents out.old out.new result (end_json naming.now (device_numbers device.now) id) }
{
    let mut members = line_members(naming.alloc(), "end")?;
    naming.put_id(id, &mut members)?;
    put_end_at(naming, device, id, &mut members)?;
    write_line(naming.alloc(), members, out)
}

/// Puts where an id ends for a device.
#[tactic(auto, unfolding(crate::specs::EndJson::with_end_at))]
pub(crate) fn put_end_at(
    naming: &Naming<'_, '_, '_>,
    device: &Device,
    id: ResId,
    members: &mut Map<String, Value>,
) -> Result<(), AllocError>
    ensures { OnOk result (members_view members.new.entries
        ≡ with_end_at naming.now (device_numbers device.now) id.0 (members_view members.old.entries)) }
{
    let end = end_within_json(naming, device, id, REFERENCES_FOLLOWED)?;
    put(members, naming.alloc(), "end", end)
}

/// Where an id ends for a device, where at most so many references are followed.
#[tactic(auto, unfolding(crate::specs::EndJson::end_data_within))]
pub(crate) fn end_within_json(
    naming: &Naming<'_, '_, '_>,
    device: &Device,
    id: ResId,
    most: u8,
) -> Result<Value, AllocError>
    ensures { IfOk result (λ json. view json ≡ end_data_within naming.now most (device_numbers device.now) id.0) }
{
    let last = last_within(naming.stack(), id, device, most);
    end_json(naming, &last.selected, last.end)
}

/// An end, with the row that was selected last, where a value or a bag is of it.
///
/// ```text
/// end_json(&naming, &last.selected, last.end)?; // {"from":{"config":..,"layer":0,"path":"app.apk"},"value":{..}}
/// ```
pub(crate) fn end_json(
    naming: &Naming<'_, '_, '_>,
    last: &Option<Cand<'_>>,
    end: End,
) -> Result<Value, AllocError>
    ensures { IfOk result (λ json. view json ≡ end_data naming.now (option_map cand_of last.now) end) }
{
    let mut members = Map::new(naming.alloc());
    put_end(naming, end, &mut members)?;
    put_origin(naming, last, end.is_value(), &mut members)?;
    Ok(Value::Object(members))
}

/// Puts what an end says.
#[tactic(auto, unfolding(crate::specs::EndJson::with_end))]
pub(crate) fn put_end(
    naming: &Naming<'_, '_, '_>,
    end: End,
    members: &mut Map<String, Value>,
) -> Result<(), AllocError>
    ensures { OnOk result (members_view members.new.entries ≡ with_end naming.now end (members_view members.old.entries)) }
{
    let (name, said) = match end {
        End::Value { layer, value } => ("value", naming.value_json(layer, value)?),
        End::Bag { id } => ("bag", naming.resource_json(id)?),
        End::Absent { id } => ("absent", naming.resource_json(id)?),
        End::TooLong { id } => ("tooManyReferences", naming.resource_json(id)?),
    };
    put(members, naming.alloc(), name, said)
}

#[tactic(auto, unfolding(crate::specs::EndJson::with_origin))]
fn put_origin(
    naming: &Naming<'_, '_, '_>,
    last: &Option<Cand<'_>>,
    is_of_it: bool,
    members: &mut Map<String, Value>,
) -> Result<(), AllocError>
    ensures { OnOk result (members_view members.new.entries
        ≡ with_origin naming.now (option_map cand_of last.now) is_of_it (members_view members.old.entries)) }
{
    let Some(candidate) = last else {
        return Ok(());
    };
    if !is_of_it {
        return Ok(());
    }
    let place = place_json(naming, candidate.layer, &candidate.row.config)?;
    put(members, naming.alloc(), "from", place)
}

/// Where a row stands: its configuration, its layer, and the path of that one's table.
#[tactic(auto, unfolding(crate::specs::EndJson::place_data))]
pub(crate) fn place_json(
    naming: &Naming<'_, '_, '_>,
    layer: usize,
    config: &Record<'_>,
) -> Result<Value, AllocError>
    ensures { IfOk result (λ json. view json ≡ place_data naming.now layer (record_bytes config.now)) }
{
    let mut members = Map::new(naming.alloc());
    let config = config_json(naming.alloc(), config)?;
    put(&mut members, naming.alloc(), "config", config)?;
    naming.put_layer(layer, &mut members)?;
    Ok(Value::Object(members))
}
