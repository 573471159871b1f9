//! What the maps leave out that are made of the overlays of a word.

ghost use Rattle.std.specs.Prelude.{◌≡◌, [], map, IfOk};
ghost use Rattle.answer_text.specs.OnLine.{on_line};
ghost use Rattle.contract_words.specs.Exact.{GivesOr};
ghost use Rattle.contract_words.specs.Sequences.{Pushes};
ghost use Rattle.contract_words.specs.Writes.{Writes};
ghost use Rattle.command_base.specs.declared.fault.ToolFault.TheVariants.{OutOfMemory};
ghost use Rattle.command_base.specs.FilesSeen.{bytes_of, layers_held};
ghost use Rattle.command_base.specs.Inputs.{table_at_place};
ghost use Rattle.command_base.specs.LayerMark.{layer_mark};
ghost use Rattle.command_base.specs.LeftOut.{base_of, has_overlays, left_at, left_by_map, left_in, left_of};
ghost use Rattle.command_base.specs.ListWordSeen.{listed_of};
ghost use Rattle.command_base.specs.StackBytesSeen.{layer_bytes};

use crate::fault::ToolFault;
use crate::layer_files::LayerFiles;
use crate::layer_mark::write_layer_mark;
use crate::layer_parts::LayerParts;
use crate::list_word::{ListedLayer, is_list_word, layers_in_word};
use crate::made_map::MadeMap;
use crate::side::Side;
use answer_text::write_on_line;
use std::alloc::{AllocError, Global};
use std::io::{self, Write};

/// What stands before an overlay in a word that is a list.
const OVERLAY: u8 = b'+';

/// What `map` says of the maps that were made of the overlays of a word: its lines, each behind its layer, and behind the side
/// where two stacks are compared. These are the layers that were read of the word.
///
/// ```text
/// let files = LayerFiles::read(alloc, &inputs, "app.apk+overlay.apk")?;
/// let lines = left_of(alloc, None, "app.apk+overlay.apk", &files)?; // layer 1 unmapped 0x7f010003 "string"/"title"
/// ```
pub fn left_of(
    alloc: Global,
    side: Option<Side>,
    word: &str,
    files: &LayerFiles,
) -> Result<Vec<u8>, AllocError>
    ensures { IfOk result (λ lines. lines.items ≡ left_of side word.now (layers_held files.now)) }
{
    if !has_overlays(word) {
        return Ok(Vec::new(alloc));
    }
    let layers = files.layers(alloc)?;
    let listed = layers_in_word(alloc, word)?;
    match left_of_layers(alloc, side, &listed, &layers) {
        Ok(lines) => Ok(lines),
        Err(ToolFault::OutOfMemory) => Err(AllocError),
        Err(_) => Ok(Vec::new(alloc)),
    }
}

/// Says such lines, where there are any.
pub fn say_left<E: Write + Drop>(lines: &[u8], errors: &mut E) -> io::Result<()>
    ensures lines { Writes E.contents errors.old errors.new result (on_line lines.now) }
    ensures nothing { lines.now ≡ [] → errors.new ≡ errors.old }
{
    if lines.is_empty() {
        return Ok(());
    }
    write_on_line(lines, errors)
}

/// Whether maps are made for a word: it is a list, and has an overlay.
pub fn has_overlays(word: &str) -> bool
    ensures { result ≡ has_overlays word.now }
{
    is_list_word(word) && word.as_bytes().contains(&OVERLAY)
}

#[tactic(auto, using(crate::proofs::LeftSteps::from_steps))]
fn left_of_layers(
    alloc: Global,
    side: Option<Side>,
    listed: &[ListedLayer<'_>],
    layers: &[LayerParts<&[u8]>],
) -> Result<Vec<u8>, ToolFault>
    ensures { GivesOr OutOfMemory bytes_of result (left_in side (map listed_of listed.now) (map layer_bytes layers.now)) }
{
    let mut lines = Vec::new(alloc);
    for place in 0..listed.len() {
        push_left(alloc, side, listed, layers, place, &mut lines)?;
    }
    Ok(lines)
}

#[tactic(auto, unfolding(crate::specs::LeftOut::left_at))]
fn push_left(
    alloc: Global,
    side: Option<Side>,
    listed: &[ListedLayer<'_>],
    layers: &[LayerParts<&[u8]>],
    place: usize,
    lines: &mut Vec<u8>,
) -> Result<(), ToolFault>
    ensures { Pushes OutOfMemory lines.old.items lines.new.items result (left_at side (map listed_of listed.now) (map layer_bytes layers.now) place) }
{
    let Some(base) = base_of(listed, place) else {
        return Ok(());
    };
    let target = table_at_place(layers, base);
    let overlay = table_at_place(layers, place);
    let left = left_by_map(alloc, side, base, target, place, overlay)?;
    lines.extend_from_slice(&left)?;
    Ok(())
}

fn base_of(listed: &[ListedLayer<'_>], place: usize) -> Option<usize>
    ensures { result ≡ base_of (map listed_of listed.now) place }
{
    match listed.get(place) {
        Some(layer) => layer.base,
        None => None,
    }
}

fn table_at_place<'a>(layers: &[LayerParts<&'a [u8]>], place: usize) -> &'a [u8]
    ensures { result.now ≡ table_at_place (map layer_bytes layers.now) place }
{
    match layers.get(place) {
        Some((table, _map)) => table,
        None => &[],
    }
}

// The lines of an overlay over its base, which stand at these places.
fn left_by_map(
    alloc: Global,
    side: Option<Side>,
    base: usize,
    target: &[u8],
    place: usize,
    overlay: &[u8],
) -> Result<Vec<u8>, ToolFault>
    ensures { GivesOr OutOfMemory bytes_of result (left_by_map side base target.now place overlay.now) }
{
    let mark = layer_mark(alloc, side, place)?;
    let made = MadeMap::over(alloc, &mark, base, target, place, overlay)?;
    Ok(made.left)
}

fn layer_mark(alloc: Global, side: Option<Side>, place: usize) -> Result<Vec<u8>, AllocError>
    ensures { IfOk result (λ mark. mark.items ≡ layer_mark side place) }
{
    let mut mark = Vec::new(alloc);
    match write_layer_mark(side, place, &mut mark) {
        Ok(()) => Ok(mark),
        // To a `Vec` only a want of memory is a fault.
        Err(_) => Err(AllocError),
    }
}
