//! Devices at which a goal ends.

ghost use Rattle.std.specs.Prelude.{◌≡◌, map, IfOk};
ghost use Rattle.std.specs.List.{flat_map};
ghost use Rattle.contract_words.specs.Writes.{Writes};
ghost use Rattle.config_box.specs.Tests.{choice_of};
ghost use Rattle.reference_resolver.specs.config_precedence.config_record.DeviceSeen.{device_numbers};
ghost use Rattle.res_value.specs.Goal.{goal_seen};
ghost use Rattle.resource_text.specs.DeviceNotation.{alone, device_line, device_notation, devices_notation, differ_at, or_any, qualifier_text, qualifiers_text, word_at};

use crate::goal::write_goal_end;
use crate::look_ups::{push_goal, some_has};
use crate::naming::Naming;
use bags_themes::{Coord, Device, ResId, Stack};
use config_box::{Choice, Test};
use notation::write_test;
use res_value::Goal;
use std::alloc::{AllocError, Global};
use std::io::{self, Write};

/// Writes a device with where a goal ends there: those of its qualifiers that rows of the goal's look-ups have.
#[tactic(auto, unfolding(crate::specs::DeviceNotation::device_notation))]
pub(crate) fn write_device<W: Write + Drop>(
    naming: &Naming<'_, '_, '_>,
    goal: &Goal,
    device: &Device,
    out: &mut W,
) -> io::Result<()>
    ensures { Writes W.contents out.old out.new result (device_notation naming.now (goal_seen goal.now) (device_numbers device.now)) }
{
    let alloc = naming.alloc();
    let mut ids = Vec::new(alloc);
    push_goal(alloc, naming.stack(), goal, device, &mut ids)?;
    write_device_line(naming, goal, &ids, device, device, out)
}

/// The same of two devices. Where they differ, both are marked.
#[tactic(auto, unfolding(crate::specs::DeviceNotation::devices_notation))]
pub(crate) fn write_two_devices<W: Write + Drop>(
    naming: &Naming<'_, '_, '_>,
    goal: &Goal,
    first: &Device,
    second: &Device,
    out: &mut W,
) -> io::Result<()>
    ensures { Writes W.contents out.old out.new result
        (devices_notation naming.now (goal_seen goal.now) (device_numbers first.now) (device_numbers second.now)) }
{
    let alloc = naming.alloc();
    let mut ids = Vec::new(alloc);
    push_goal(alloc, naming.stack(), goal, first, &mut ids)?;
    push_goal(alloc, naming.stack(), goal, second, &mut ids)?;
    write_device_line(naming, goal, &ids, second, first, out)?;
    write_device_line(naming, goal, &ids, first, second, out)
}

#[tactic(auto, unfolding(crate::specs::DeviceNotation::device_line))]
fn write_device_line<W: Write + Drop>(
    naming: &Naming<'_, '_, '_>,
    goal: &Goal,
    ids: &[ResId],
    other: &Device,
    device: &Device,
    out: &mut W,
) -> io::Result<()>
    ensures { Writes W.contents out.old out.new result (device_line naming.now (goal_seen goal.now) (map (λ id. id.0) ids.now)
        (device_numbers other.now) (device_numbers device.now)) }
{
    let words = qualifiers(naming.alloc(), naming.stack(), ids, other, device)?;
    out.write_all(b"  on")?;
    write_or_any(&words, out)?;
    out.write_all(b": ")?;
    write_goal_end(naming, goal, device, out)?;
    out.write_all(b"\n")
}

fn write_or_any<W: Write + Drop>(words: &[u8], out: &mut W) -> io::Result<()>
    ensures { Writes W.contents out.old out.new result (or_any words.now) }
{
    if words.is_empty() {
        out.write_all(b" any device")
    } else {
        out.write_all(words)
    }
}

#[tactic(auto, unfolding(crate::specs::DeviceNotation::qualifiers_text, crate::specs::Unfolded::all_coords))]
fn qualifiers(
    alloc: Global,
    stack: &Stack<'_>,
    ids: &[ResId],
    other: &Device,
    device: &Device,
) -> io::Result<Vec<u8>>
    ensures { IfOk result (λ text. text.items ≡ qualifiers_text stack.now (map (λ id. id.0) ids.now) (device_numbers other.now) (device_numbers device.now)) }
{
    let mut text = Vec::new(alloc);
    write_qualifiers(alloc, stack, ids, other, device, &Coord::ALL, &mut text)?;
    Ok(text)
}

#[tactic(auto, using(contract_words::proofs::TextSteps::puts))]
fn write_qualifiers<W: Write + Drop>(
    alloc: Global,
    stack: &Stack<'_>,
    ids: &[ResId],
    other: &Device,
    device: &Device,
    coords: &[Coord],
    out: &mut W,
) -> io::Result<()>
    ensures { Writes W.contents out.old out.new result
        (flat_map (qualifier_text stack.now (map (λ id. id.0) ids.now) (device_numbers other.now) (device_numbers device.now)) coords.now) }
{
    for coord in coords {
        write_qualifier(alloc, stack, ids, other, device, *coord, out)?;
    }
    Ok(())
}

#[tactic(auto, unfolding(crate::specs::DeviceNotation::qualifier_text))]
fn write_qualifier<W: Write + Drop>(
    alloc: Global,
    stack: &Stack<'_>,
    ids: &[ResId],
    other: &Device,
    device: &Device,
    coord: Coord,
    out: &mut W,
) -> io::Result<()>
    ensures { Writes W.contents out.old out.new result
        (qualifier_text stack.now (map (λ id. id.0) ids.now) (device_numbers other.now) (device_numbers device.now) coord) }
{
    if differ_at(device, other, coord) {
        out.write_all(b" *")?;
        write_word(alloc, device, coord, out)?;
        out.write_all(b"*")
    } else if some_has(stack, ids, coord) {
        out.write_all(b" ")?;
        write_word(alloc, device, coord, out)
    } else {
        Ok(())
    }
}

fn differ_at(device: &Device, other: &Device, coord: Coord) -> bool
    ensures { result ≡ differ_at (device_numbers device.now) (device_numbers other.now) coord }
{
    device.compared_number(coord) != other.compared_number(coord)
}

// What a device has at a coordinate, as the list of it alone.
#[tactic(auto, unfolding(crate::specs::DeviceNotation::word_at))]
fn write_word<W: Write + Drop>(
    alloc: Global,
    device: &Device,
    coord: Coord,
    out: &mut W,
) -> io::Result<()>
    ensures { Writes W.contents out.old out.new result (word_at (device_numbers device.now) coord) }
{
    write_test(&Test::Among(coord, alone(alloc, device, coord)?), out)
}

fn alone(alloc: Global, device: &Device, coord: Coord) -> Result<Choice, AllocError>
    ensures { IfOk result (λ choice. choice_of choice ≡ alone coord (device_numbers device.now)) }
{
    match coord {
        Coord::Locale => Ok(Choice::Locales(vec![in alloc; device.locale()]?)),
        _ => Ok(Choice::Numbers(vec![in alloc; device.get(coord)]?)),
    }
}
