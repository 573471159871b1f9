//! How an id comes to its end, as lines of JSON.

ghost use Rattle.std.specs.Prelude.{◌≡◌, map, IfOk, OnOk};
ghost use Rattle.std.specs.List.{flat_map};
ghost use Rattle.contract_words.specs.Writes.{Writes};
ghost use Rattle.serde_json.specs.View.{view, members_view};
ghost use Rattle.reference_resolver.specs.config_precedence.config_record.DeviceSeen.{device_numbers};
ghost use Rattle.reference_resolver.specs.Trace.{look_ups_of};
ghost use Rattle.res_value.specs.Cell.{cell_of};
ghost use Rattle.resource_text.specs.ExplainJson.{did, with_did, with_reason, with_rule, decision_data, held, candidate_json, look_up_json, explain_json};
ghost use Rattle.resource_text.specs.TracedSeen.{traced_of};

use crate::decision_words::write_decision;
use crate::end_json::{end_json, place_json, put_end_at};
use crate::explanation::{Traced, traced_candidates};
use crate::line_json::{line_members, write_line};
use crate::naming::Naming;
use crate::text_json::text_json;
use bags_themes::{Cell, Decision, Device, End, Next, REFERENCES_FOLLOWED, ResId};
use reference_resolver::select;
use serde_json::{Map, Value, put};
use std::alloc::{AllocError, Global};
use std::io::{self, Write};

/// How an id comes to its end for a device: a line for each id that is looked up, behind it one for each of its candidates, with
/// what it does and why, and last the end; each is a JSON object.
pub fn explain_json(
    naming: &Naming<'_, '_, '_>,
    device: &Device,
    id: ResId,
) -> Result<Vec<u8>, AllocError>
    ensures { IfOk result (λ lines. lines.items ≡ explain_json naming.now (device_numbers device.now) id.0) }
{
    let mut lines = Vec::new(naming.alloc());
    match write_explanation(naming, device, id, &mut lines) {
        Ok(()) => Ok(lines),
        // To a `Vec` only a want of memory is a fault.
        Err(_) => Err(AllocError),
    }
}

/// Writes the same.
#[tactic(auto, unfolding(crate::specs::ExplainJson::explain_json))]
pub(crate) fn write_explanation<W: Write + Drop>(
    naming: &Naming<'_, '_, '_>,
    device: &Device,
    id: ResId,
    out: &mut W,
) -> io::Result<()>
    ensures { Writes W.contents out.old out.new result (explain_json naming.now (device_numbers device.now) id.0) }
{
    write_look_ups(naming, device, id, REFERENCES_FOLLOWED, out)?;
    let mut end = line_members(naming.alloc(), "end")?;
    put_end_at(naming, device, id, &mut end)?;
    write_line(naming.alloc(), end, out)
}

/// Writes each look-up, where at most so many references are followed.
pub(crate) fn write_look_ups<W: Write + Drop>(
    naming: &Naming<'_, '_, '_>,
    device: &Device,
    id: ResId,
    most: u8,
    out: &mut W,
) -> io::Result<()>
    ensures { Writes W.contents out.old out.new result (flat_map
        (look_up_json naming.now (device_numbers device.now))
        (look_ups_of naming.now.stack most id.0 (device_numbers device.now))) }
{
    let stack = naming.stack();
    let mut id = id;
    let mut left = most;
    'chain: loop {
        write_look_up(naming, device, id, out)?;
        match Next::of(id, &select(stack, id, device)).cut_off(left) {
            Next::EndsAt(_) => return Ok(()),
            Next::LookUp(target) => id = target,
        }
        left -= 1;
    }
}

#[tactic(auto, unfolding(crate::specs::ExplainJson::look_up_json))]
fn write_look_up<W: Write + Drop>(
    naming: &Naming<'_, '_, '_>,
    device: &Device,
    id: ResId,
    out: &mut W,
) -> io::Result<()>
    ensures { Writes W.contents out.old out.new result (look_up_json naming.now (device_numbers device.now) id.0) }
{
    let mut members = line_members(naming.alloc(), "look-up")?;
    naming.put_id(id, &mut members)?;
    write_line(naming.alloc(), members, out)?;
    let candidates = traced_candidates(naming.alloc(), naming.stack(), id, device)?;
    write_candidates(naming, id, &candidates, out)
}

#[tactic(auto, using(contract_words::proofs::TextSteps::puts_slice))]
fn write_candidates<W: Write + Drop>(
    naming: &Naming<'_, '_, '_>,
    id: ResId,
    candidates: &[Traced<'_>],
    out: &mut W,
) -> io::Result<()>
    ensures { Writes W.contents out.old out.new result (flat_map (candidate_json naming.now id) (map traced_of candidates.now)) }
{
    for traced in candidates {
        write_candidate(naming, id, traced, out)?;
    }
    Ok(())
}

#[tactic(auto, unfolding(crate::specs::ExplainJson::candidate_json))]
fn write_candidate<W: Write + Drop>(
    naming: &Naming<'_, '_, '_>,
    id: ResId,
    traced: &Traced<'_>,
    out: &mut W,
) -> io::Result<()>
    ensures { Writes W.contents out.old out.new result (candidate_json naming.now id (traced_of traced.now)) }
{
    let alloc = naming.alloc();
    let candidate = &traced.candidate;
    let mut members = line_members(alloc, "candidate")?;
    let decision = decision_json(alloc, traced.decision)?;
    put(&mut members, alloc, "decision", decision)?;
    let place = place_json(naming, candidate.layer, &candidate.row.config)?;
    put(&mut members, alloc, "from", place)?;
    let held = end_json(naming, &None, held(id, candidate.layer, candidate.row.cell))?;
    put(&mut members, alloc, "holds", held)?;
    write_line(alloc, members, out)
}

// What a row of a layer holds that is a candidate for an id, as an end.
fn held(id: ResId, layer: usize, cell: Cell<'_>) -> End
    ensures { result ≡ held id layer (cell_of cell.entry) }
{
    match cell {
        Cell::Plain(value) => End::Value { layer, value },
        Cell::Bag { .. } => End::Bag { id },
    }
}

// ---- what a candidate does

#[tactic(auto, unfolding(crate::specs::ExplainJson::decision_data))]
fn decision_json(alloc: Global, decision: Decision) -> Result<Value, AllocError>
    ensures { IfOk result (λ json. view json ≡ decision_data decision) }
{
    let mut words = Vec::new(alloc);
    let Ok(()) = write_decision(decision, &mut words) else {
        // To a `Vec` only a want of memory is a fault.
        return Err(AllocError);
    };
    let mut members = Map::new(alloc);
    put_reason(alloc, decision, &mut members)?;
    put_did(alloc, did(decision), &words, &mut members)?;
    Ok(Value::Object(members))
}

/// Puts what is done, and all of it in words.
#[tactic(auto, unfolding(crate::specs::ExplainJson::with_did))]
pub(crate) fn put_did(
    alloc: Global,
    did: &str,
    words: &[u8],
    members: &mut Map<String, Value>,
) -> Result<(), AllocError>
    ensures { OnOk result (members_view members.new.entries ≡ with_did did.now words.now (members_view members.old.entries)) }
{
    let did = Value::try_from_str(alloc, did)?;
    put(members, alloc, "did", did)?;
    put(members, alloc, "words", text_json(alloc, words)?)
}

#[tactic(auto, unfolding(crate::specs::ExplainJson::did))]
fn did(decision: Decision) -> &'static str
    ensures { result.now ≡ did decision }
{
    match decision {
        Decision::SetAside => "set aside",
        Decision::NoMatch(_) => "no match",
        Decision::First => "first",
        Decision::TookOver(_) => "took over",
        Decision::TookOverEqual => "took over equal",
        Decision::KeptOut(_) => "kept out",
    }
}

// Puts the qualifier that does not match, or the rule that decided.
#[tactic(auto, unfolding(crate::specs::ExplainJson::with_reason))]
fn put_reason(
    alloc: Global,
    decision: Decision,
    members: &mut Map<String, Value>,
) -> Result<(), AllocError>
    ensures { OnOk result (members_view members.new.entries ≡ with_reason decision (members_view members.old.entries)) }
{
    match decision {
        Decision::SetAside | Decision::First | Decision::TookOverEqual => Ok(()),
        Decision::NoMatch(coord) => {
            let name = Value::try_from_str(alloc, coord.name())?;
            put(members, alloc, "qualifier", name)
        }
        Decision::TookOver(rule) | Decision::KeptOut(rule) => put_rule(alloc, rule, members),
    }
}

fn put_rule(
    alloc: Global,
    rule: Option<u8>,
    members: &mut Map<String, Value>,
) -> Result<(), AllocError>
    ensures { OnOk result (members_view members.new.entries ≡ with_rule rule (members_view members.old.entries)) }
{
    let Some(rule) = rule else {
        return Ok(());
    };
    let mut text = Vec::new(alloc);
    let Ok(()) = write!(text, "P{rule}") else {
        // To a `Vec` only a want of memory is a fault.
        return Err(AllocError);
    };
    put(members, alloc, "rule", text_json(alloc, &text)?)
}
