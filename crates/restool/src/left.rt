//! What is said beside an answer of the maps that were made for its layers.

ghost use Rattle.std.specs.Prelude.{◌≡◌};
ghost use Rattle.restool.specs.Left.{TellsLeft, TellsLeftOnSide, both_layers, layers, name_overlays, words_seen};

use command_base::{Inputs, LayerFiles, Side, Stop, has_overlays, left_of};
use std::alloc::Global;

/// The words of a request that give layers.
#[derive(Clone, Copy)]
pub(crate) enum LayerWords<'a> {
    None,
    One(&'a str),
    /// Of two stacks that are compared.
    Both(&'a str, &'a str),
}

/// What the made maps leave out, in lines; or why the layers are not read, as the command stops. Where no maps are made,
/// nothing is read.
pub(crate) fn left_lines<'a, I: Inputs>(
    alloc: Global,
    inputs: &I,
    words: LayerWords<'a>,
) -> Result<Vec<u8>, Stop<'a>>
    ensures { TellsLeft (I.places inputs.now) (words_seen words.entry) result }
{
    match words {
        LayerWords::None => Ok(Vec::new(alloc)),
        LayerWords::One(word) => lines_of(alloc, inputs, word),
        LayerWords::Both(old, new) => lines_of_both(alloc, inputs, old, new),
    }
}

fn lines_of<'a, I: Inputs>(alloc: Global, inputs: &I, word: &'a str) -> Result<Vec<u8>, Stop<'a>>
    ensures { TellsLeft (I.places inputs.now) (layers word.entry.now) result }
{
    if !has_overlays(word) {
        return Ok(Vec::new(alloc));
    }
    let files = LayerFiles::read(alloc, inputs, word)?;
    Ok(left_of(alloc, None, word, &files)?)
}

fn lines_of_both<'a, I: Inputs>(
    alloc: Global,
    inputs: &I,
    old: &'a str,
    new: &'a str,
) -> Result<Vec<u8>, Stop<'a>>
    ensures { TellsLeft (I.places inputs.now) (both_layers old.entry.now new.entry.now) result }
{
    if !name_overlays(old, new) {
        return Ok(Vec::new(alloc));
    }
    let mut lines = lines_of_side(alloc, inputs, Side::Old, old)?;
    let of_new = lines_of_side(alloc, inputs, Side::New, new)?;
    lines.extend_from_slice(&of_new)?;
    Ok(lines)
}

fn name_overlays(old: &str, new: &str) -> bool
    ensures { result ≡ name_overlays (both_layers old.now new.now) }
{
    has_overlays(old) || has_overlays(new)
}

fn lines_of_side<'a, I: Inputs>(
    alloc: Global,
    inputs: &I,
    side: Side,
    word: &'a str,
) -> Result<Vec<u8>, Stop<'a>>
    ensures { TellsLeftOnSide (I.places inputs.now) side word.entry.now result }
{
    let files = LayerFiles::read_side(alloc, inputs, side, word)?;
    Ok(left_of(alloc, Some(side), word, &files)?)
}
