//! How an id comes to its end, written.

ghost use Rattle.std.specs.Prelude.{◌≡◌, IfOk};
ghost use Rattle.std.specs.List.{flat_map};
ghost use Rattle.contract_words.specs.Writes.{Writes};
ghost use Rattle.bags_themes.specs.config_record.DeviceSeen.{device_numbers};
ghost use Rattle.bags_themes.specs.overlay_map.Candidates.{cand_of};
ghost use Rattle.bags_themes.specs.reference_resolver.Ends.{references_followed, end_of};
ghost use Rattle.bags_themes.specs.reference_resolver.Trace.{look_ups_of, traced, scan_look_up, IsTraced};
ghost use Rattle.answer_text.specs.ExplainText.{place_text, candidate_line, candidate_lines, look_up_text, explain_text};

use crate::decision::write_decision;
use crate::end::write_named_end_line;
use crate::layer::write_layer;
use crate::name::NamesBeside;
use crate::named::{write_named_id, write_named_number};
use bags_themes::{Cand, Decision, Device, End, Next, REFERENCES_FOLLOWED, ResId, Stack};
use reference_resolver::{resolve, select};
use std::io::{self, Write};

/// Writes how an id comes to its end at a device: a line for each id that is looked up, behind it one for
/// each of its candidates with what it does and why, and last the end, which is also given. Where names are asked
/// for, they stand behind the ids that are looked up, and behind that of the end.
#[tactic(auto, using(crate::proofs::Cited::is_traced), unfolding(crate::specs::ExplainText::explain_text))]
pub fn explain<W: Write + Drop>(
    names: &NamesBeside<'_, '_>,
    id: ResId,
    device: &Device,
    out: &mut W,
) -> io::Result<End>
    ensures text { Writes W.contents out.old out.new result (explain_text names.now.stack id.0 (device_numbers device.now) names.now.asked) }
    ensures end { IfOk result (λ end. end ≡ end_of names.now.stack references_followed id.0 (device_numbers device.now)) }
    ensures trace { IsTraced names.now.stack references_followed id.0 (device_numbers device.now) }
{
    let end = resolve(names.stack(), id, device);
    write_look_ups(names, id, device, out)?;
    write_named_end_line(names, end, out)?;
    Ok(end)
}

fn write_look_ups<W: Write + Drop>(
    names: &NamesBeside<'_, '_>,
    id: ResId,
    device: &Device,
    out: &mut W,
) -> io::Result<()>
    ensures { Writes W.contents out.old out.new result (flat_map
        (look_up_text names.now.stack (device_numbers device.now) names.now.asked)
        (look_ups_of names.now.stack references_followed id.0 (device_numbers device.now))) }
{
    let stack = names.stack();
    let mut id = id;
    let mut left = REFERENCES_FOLLOWED;
    'chain: loop {
        write_look_up(names, id, device, out)?;
        match Next::of(id, &select(stack, id, device)).cut_off(left) {
            Next::EndsAt(_) => return Ok(()),
            Next::LookUp(target) => id = target,
        }
        left -= 1;
    }
}

#[tactic(auto, unfolding(crate::specs::ExplainText::look_up_text))]
fn write_look_up<W: Write + Drop>(
    names: &NamesBeside<'_, '_>,
    id: ResId,
    device: &Device,
    out: &mut W,
) -> io::Result<()>
    ensures { Writes W.contents out.old out.new result (look_up_text names.now.stack (device_numbers device.now) names.now.asked id.0) }
{
    write_named_id("lookup", id, out)?;
    names.write(id, out)?;
    out.write_all(b"\n")?;
    write_candidates(names.stack(), id, device, out)
}

// Writes a line for each candidate of an id, which are counted from 0.
#[tactic(auto, using(contract_words::proofs::TextSteps::puts), unfolding(crate::specs::ExplainText::candidate_lines))]
fn write_candidates<W: Write + Drop>(
    stack: &Stack<'_>,
    id: ResId,
    device: &Device,
    out: &mut W,
) -> io::Result<()>
    ensures { Writes W.contents out.old out.new result
        (candidate_lines (scan_look_up traced stack.now (device_numbers device.now) id.0)) }
{
    let mut place: u128 = 0;
    let mut best = None;
    for candidate in stack.candidates(id) {
        let decision = Decision::of(&best, &candidate, device);
        write_candidate(place, &candidate, decision, out)?;
        best = decision.step().best_after(best, candidate);
        place += 1;
    }
    Ok(())
}

#[tactic(auto, unfolding(crate::specs::ExplainText::candidate_line))]
fn write_candidate<W: Write + Drop>(
    place: u128,
    candidate: &Cand<'_>,
    decision: Decision,
    out: &mut W,
) -> io::Result<()>
    ensures { Writes W.contents out.old out.new result
        (candidate_line (place, record { candidate = cand_of candidate.now; decision = decision })) }
{
    write_place(place, candidate.layer, out)?;
    out.write_all(b" ")?;
    candidate.row.config.write_qualifiers(out)?;
    out.write_all(b" ")?;
    write_decision(decision, out)?;
    out.write_all(b"\n")
}

#[tactic(auto, unfolding(crate::specs::ExplainText::place_text))]
fn write_place<W: Write + Drop>(place: u128, layer: usize, out: &mut W) -> io::Result<()>
    ensures { Writes W.contents out.old out.new result (place_text place layer) }
{
    write_named_number("candidate", place, out)?;
    out.write_all(b" ")?;
    write_layer(layer, out)
}
