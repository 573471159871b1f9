//! How an id comes to its end.

ghost use Rattle.std.specs.Prelude.{◌≡◌, IfOk, map};
ghost use Rattle.std.specs.List.{flat_map};
ghost use Rattle.contract_words.specs.Writes.{Writes};
ghost use Rattle.reference_resolver.specs.config_precedence.config_record.DeviceSeen.{device_numbers};
ghost use Rattle.res_value.specs.Cell.{cell_of};
ghost use Rattle.reference_resolver.specs.Trace.{look_ups_of, traced, scan_look_up};
ghost use Rattle.resource_text.specs.ColumnsSeen.{line_of};
ghost use Rattle.resource_text.specs.ExplainNotation.{held_notation, traced_line, matches, is_shown, shown_lines, hidden_line, candidates_notation, look_up_notation, explain_notation};
ghost use Rattle.resource_text.specs.TracedSeen.{traced_of};

use crate::columns::{Line, write_columns};
use crate::decision_words::write_decision;
use crate::ends::write_end_within;
use crate::naming::Naming;
use bags_themes::{Cand, Cell, Decision, Device, Next, REFERENCES_FOLLOWED, ResId, Stack};
use notation::write_config;
use reference_resolver::select;
use std::alloc::{AllocError, Global};
use std::io::{self, Write};

/// A candidate, and what it does to the best before it and why.
#[derive(Clone, Copy)]
pub(crate) struct Traced<'a> {
    pub candidate: Cand<'a>,
    pub decision: Decision,
}

/// How an id comes to its end for a device: a line for each id that is looked up, behind it one for each of its candidates that
/// match, or for all, with what it does and why, and last the end.
pub fn explain_text(
    naming: &Naming<'_, '_, '_>,
    all: bool,
    device: &Device,
    id: ResId,
) -> Result<Vec<u8>, AllocError>
    ensures { IfOk result (λ text. text.items ≡ explain_notation naming.now all (device_numbers device.now) id.0) }
{
    let mut text = Vec::new(naming.alloc());
    match write_explanation(naming, all, device, id, &mut text) {
        Ok(()) => Ok(text),
        // To a `Vec` only a want of memory is a fault.
        Err(_) => Err(AllocError),
    }
}

/// Writes the same.
#[tactic(auto, unfolding(crate::specs::ExplainNotation::explain_notation))]
pub(crate) fn write_explanation<W: Write + Drop>(
    naming: &Naming<'_, '_, '_>,
    all: bool,
    device: &Device,
    id: ResId,
    out: &mut W,
) -> io::Result<()>
    ensures { Writes W.contents out.old out.new result (explain_notation naming.now all (device_numbers device.now) id.0) }
{
    write_look_ups(naming, all, device, id, REFERENCES_FOLLOWED, out)?;
    write_end_within(naming, device, id, REFERENCES_FOLLOWED, out)?;
    out.write_all(b"\n")
}

/// Writes each look-up, where at most so many references are followed.
pub(crate) fn write_look_ups<W: Write + Drop>(
    naming: &Naming<'_, '_, '_>,
    all: bool,
    device: &Device,
    id: ResId,
    most: u8,
    out: &mut W,
) -> io::Result<()>
    ensures { Writes W.contents out.old out.new result (flat_map
        (look_up_notation naming.now all (device_numbers device.now))
        (look_ups_of naming.now.stack most id.0 (device_numbers device.now))) }
{
    let stack = naming.stack();
    let mut id = id;
    let mut left = most;
    'chain: loop {
        write_look_up(naming, all, device, id, out)?;
        match Next::of(id, &select(stack, id, device)).cut_off(left) {
            Next::EndsAt(_) => return Ok(()),
            Next::LookUp(target) => id = target,
        }
        left -= 1;
    }
}

#[tactic(auto, unfolding(crate::specs::ExplainNotation::look_up_notation))]
fn write_look_up<W: Write + Drop>(
    naming: &Naming<'_, '_, '_>,
    all: bool,
    device: &Device,
    id: ResId,
    out: &mut W,
) -> io::Result<()>
    ensures { Writes W.contents out.old out.new result (look_up_notation naming.now all (device_numbers device.now) id.0) }
{
    naming.write_id(id, out)?;
    out.write_all(b"\n")?;
    let candidates = traced_candidates(naming.alloc(), naming.stack(), id, device)?;
    write_candidates(naming, all, &candidates, out)
}

/// The candidates of an id, with what each does.
pub(crate) fn traced_candidates<'a>(
    alloc: Global,
    stack: &Stack<'a>,
    id: ResId,
    device: &Device,
) -> Result<Vec<Traced<'a>>, AllocError>
    ensures { IfOk result (λ candidates. map traced_of candidates.items ≡ scan_look_up traced stack.now (device_numbers device.now) id.0) }
{
    let mut traced = Vec::new(alloc);
    let mut best = None;
    for candidate in stack.candidates(id) {
        let decision = Decision::of(&best, &candidate, device);
        traced.push(Traced {
            candidate,
            decision,
        })?;
        best = decision.step().best_after(best, candidate);
    }
    Ok(traced)
}

#[tactic(auto, unfolding(crate::specs::ExplainNotation::candidates_notation))]
fn write_candidates<W: Write + Drop>(
    naming: &Naming<'_, '_, '_>,
    all: bool,
    candidates: &[Traced<'_>],
    out: &mut W,
) -> io::Result<()>
    ensures { Writes W.contents out.old out.new result (candidates_notation naming.now all (map traced_of candidates.now)) }
{
    let lines = shown_lines(naming, all, candidates)?;
    write_columns(&lines, out)?;
    write_hidden(
        lines.len(),
        candidates.len().saturating_sub(lines.len()),
        out,
    )
}

// The lines of those that match, or of all.
fn shown_lines(
    naming: &Naming<'_, '_, '_>,
    all: bool,
    candidates: &[Traced<'_>],
) -> io::Result<Vec<Line>>
    ensures { IfOk result (λ lines. map line_of lines.items ≡ shown_lines naming.now all (map traced_of candidates.now)) }
{
    let mut lines = Vec::new(naming.alloc());
    for traced in candidates {
        if is_shown(all, traced) {
            let line = line_of(naming, traced)?;
            lines.push(line)?;
        }
    }
    Ok(lines)
}

// Whether a candidate has a line.
fn is_shown(all: bool, traced: &Traced<'_>) -> bool
    ensures { result ≡ is_shown all (traced_of traced.now) }
{
    all || matches(traced.decision)
}

// Whether a candidate matches that does this.
fn matches(decision: Decision) -> bool
    ensures { result ≡ matches decision }
{
    match decision {
        Decision::SetAside | Decision::NoMatch(_) => false,
        Decision::First | Decision::TookOver(_) | Decision::TookOverEqual | Decision::KeptOut(_) =>
            true,
    }
}

#[tactic(auto, unfolding(crate::specs::ExplainNotation::traced_line))]
fn line_of(naming: &Naming<'_, '_, '_>, traced: &Traced<'_>) -> io::Result<Line>
    ensures { IfOk result (λ line. line_of line ≡ traced_line naming.now (traced_of traced.now)) }
{
    let alloc = naming.alloc();
    let candidate = &traced.candidate;
    let mut line = Line::new(alloc);
    naming.write_layer(candidate.layer, &mut line.layer)?;
    write_config(&candidate.row.config, &mut line.config)?;
    write_held(naming, candidate.layer, candidate.row.cell, &mut line.value)?;
    write_decision(traced.decision, &mut line.decision)?;
    Ok(line)
}

#[tactic(auto, unfolding(crate::specs::ExplainNotation::held_notation))]
fn write_held<W: Write + Drop>(
    naming: &Naming<'_, '_, '_>,
    layer: usize,
    cell: Cell<'_>,
    out: &mut W,
) -> io::Result<()>
    ensures { Writes W.contents out.old out.new result (held_notation naming.now layer (cell_of cell.entry)) }
{
    match cell {
        Cell::Plain(value) => naming.write_value(layer, value, out),
        Cell::Bag { .. } => out.write_all(b"bag"),
    }
}

// Writes how many candidates do not match, where that is not shown of each.
#[tactic(auto, unfolding(crate::specs::ExplainNotation::hidden_line))]
fn write_hidden<W: Write + Drop>(shown: usize, hidden: usize, out: &mut W) -> io::Result<()>
    ensures { Writes W.contents out.old out.new result (hidden_line shown hidden) }
{
    if hidden == 0 {
        return Ok(());
    }
    let more = if shown == 0 { "" } else { " more" };
    let rows = if hidden == 1 { "row does" } else { "rows do" };
    writeln!(out, "  {hidden}{more} {rows} not match")
}
