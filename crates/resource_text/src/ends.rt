//! Where ids end.

ghost use Rattle.std.specs.Prelude.{◌≡◌, ◌++◌, IfOk};
ghost use Rattle.std.specs.Option.{option_map};
ghost use Rattle.contract_words.specs.Writes.{Writes};
ghost use Rattle.reference_resolver.specs.config_precedence.config_record.DeviceSeen.{device_numbers};
ghost use Rattle.answer_text.specs.overlay_map.Candidates.{cand_of};
ghost use Rattle.resource_text.specs.Naming.{id_notation};
ghost use Rattle.resource_text.specs.EndNotation.{origin_notation, end_notation, end_within, ends_notation};

use crate::last::last_within;
use crate::naming::Naming;
use bags_themes::{Cand, Device, End, REFERENCES_FOLLOWED, ResId};
use notation::write_config;
use std::alloc::AllocError;
use std::io::{self, Write};

/// A line for each of some ids with its end for a device, in the order of the ids.
pub fn ends_text(
    naming: &Naming<'_, '_, '_>,
    device: &Device,
    ids: &[ResId],
) -> Result<Vec<u8>, AllocError>
    ensures { IfOk result (λ text. text.items ≡ ends_notation naming.now (device_numbers device.now) ids.now) }
{
    let mut text = Vec::new(naming.alloc());
    match write_ends(naming, device, ids, &mut text) {
        Ok(()) => Ok(text),
        // To a `Vec` only a want of memory is a fault.
        Err(_) => Err(AllocError),
    }
}

#[tactic(auto, using(answer_text::proofs::ItemSteps::item_steps))]
fn write_ends<W: Write + Drop>(
    naming: &Naming<'_, '_, '_>,
    device: &Device,
    ids: &[ResId],
    out: &mut W,
) -> io::Result<()>
    ensures { Writes W.contents out.old out.new result (ends_notation naming.now (device_numbers device.now) ids.now) }
{
    for id in ids {
        naming.write_id(*id, out)?;
        out.write_all(b" ")?;
        write_end_within(naming, device, *id, REFERENCES_FOLLOWED, out)?;
        out.write_all(b"\n")?;
    }
    Ok(())
}

/// Writes where an id ends for a device, where at most so many references are followed.
#[tactic(auto, unfolding(crate::specs::EndNotation::end_within))]
pub(crate) fn write_end_within<W: Write + Drop>(
    naming: &Naming<'_, '_, '_>,
    device: &Device,
    id: ResId,
    most: u8,
    out: &mut W,
) -> io::Result<()>
    ensures { Writes W.contents out.old out.new result (end_within naming.now most (device_numbers device.now) id.0) }
{
    let last = last_within(naming.stack(), id, device, most);
    write_end(naming, &last.selected, last.end, out)
}

/// Writes an end, and behind a value or a bag from which row it is.
#[tactic(auto, unfolding(crate::specs::EndNotation::end_notation))]
pub(crate) fn write_end<W: Write + Drop>(
    naming: &Naming<'_, '_, '_>,
    last: &Option<Cand<'_>>,
    end: End,
    out: &mut W,
) -> io::Result<()>
    ensures { Writes W.contents out.old out.new result (end_notation naming.now (option_map cand_of last.now) end) }
{
    match end {
        End::Value { layer, value } => {
            naming.write_value(layer, value, out)?;
            write_origin(naming, last, out)
        }
        End::Bag { .. } => {
            out.write_all(b"bag")?;
            write_origin(naming, last, out)
        }
        End::Absent { id } => write_behind(naming, b"absent ", id, out),
        End::TooLong { id } => write_behind(naming, b"too many references ", id, out),
    }
}

fn write_behind<W: Write + Drop>(
    naming: &Naming<'_, '_, '_>,
    what: &[u8],
    id: ResId,
    out: &mut W,
) -> io::Result<()>
    ensures { Writes W.contents out.old out.new result (what.now ++ id_notation naming.now id.0) }
{
    out.write_all(what)?;
    naming.write_id(id, out)
}

#[tactic(auto, unfolding(crate::specs::EndNotation::origin_notation))]
fn write_origin<W: Write + Drop>(
    naming: &Naming<'_, '_, '_>,
    last: &Option<Cand<'_>>,
    out: &mut W,
) -> io::Result<()>
    ensures { Writes W.contents out.old out.new result (origin_notation naming.now (option_map cand_of last.now)) }
{
    let Some(candidate) = last else {
        return Ok(());
    };
    out.write_all(b" from ")?;
    naming.write_layer(candidate.layer, out)?;
    out.write_all(b" ")?;
    write_config(&candidate.row.config, out)
}
