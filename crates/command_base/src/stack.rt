//! Stacks of layers, opened from bytes.

ghost use Rattle.std.specs.Prelude.{◌<◌, ◌≤◌, ◌∷◌, ◌++◌, [], map, length, Ok};
ghost use Rattle.std.specs.Option.{option_map};
ghost use Rattle.command_base.specs.contract_words.Exact.{GivesOr};
ghost use Rattle.command_base.specs.overlay_map.Layer.{most_layers};
ghost use Rattle.command_base.specs.declared.fault.ToolFault.TheVariants.{OutOfMemory};
ghost use Rattle.command_base.specs.Output.{IsOfInput};
ghost use Rattle.command_base.specs.StackBytes.{table_of_layer, map_of_layer, layer_in, layers_from, stack_in, stack_on_side};
ghost use Rattle.command_base.specs.StackBytesSeen.{layer_bytes, with_layer};

use crate::fault::ToolFault;
use crate::layer_parts::LayerParts;
use crate::layers_fault::LayersFault;
use crate::side::Side;
use answer_text::{IdMap, MOST_LAYERS, Stack, Table};
use std::alloc::Global;

/// The stack of layers of which each is the bytes of a table and, at an overlay, those of an id map. More
/// than 64 are refused before any is read; then each table is read and, after it, its map.
#[tactic(auto, unfolding(crate::specs::StackBytes::stack_in))]
pub fn open_stack<'a>(
    alloc: Global,
    layers: &[LayerParts<&'a [u8]>],
) -> Result<Stack<'a>, ToolFault>
    ensures value { GivesOr OutOfMemory (λ stack. stack) result (stack_in (map layer_bytes layers.now)) }
    ensures of_input { IsOfInput result }
{
    if layers.len() > MOST_LAYERS {
        return Err(ToolFault::Layers(LayersFault::TooManyLayers));
    }
    open_layers(alloc, layers)
}

/// The same stack of one of two that are compared: a fault of its layers names the side.
pub fn open_side<'a>(
    alloc: Global,
    side: Side,
    layers: &[LayerParts<&'a [u8]>],
) -> Result<Stack<'a>, ToolFault>
    ensures value { GivesOr OutOfMemory (λ stack. stack) result (stack_on_side side (map layer_bytes layers.now)) }
    ensures of_input { IsOfInput result }
{
    match open_stack(alloc, layers) {
        Ok(stack) => Ok(stack),
        Err(fault) => Err(fault.on_side(side)),
    }
}

#[tactic(auto, using(crate::proofs::StackSteps::stack_steps))]
fn open_layers<'a>(alloc: Global, layers: &[LayerParts<&'a [u8]>]) -> Result<Stack<'a>, ToolFault>
    requires { length layers.now ≤ most_layers }
    ensures { GivesOr OutOfMemory (λ stack. stack) result (layers_from 0 (map layer_bytes layers.now)) × IsOfInput result }
{
    let mut stack = Stack::new(alloc);
    for layer in layers {
        push_layer(alloc, *layer, &mut stack)?;
    }
    Ok(stack)
}

// Reads a layer and pushes it onto the stack.
#[tactic(auto, unfolding(crate::specs::StackBytes::layer_in))]
fn push_layer<'a>(
    alloc: Global,
    layer: LayerParts<&'a [u8]>,
    stack: &mut Stack<'a>,
) -> Result<(), ToolFault>
    requires { length stack.old < most_layers }
    ensures { GivesOr OutOfMemory (λ _. stack.new) result (with_layer stack.old (layer_in (length stack.old) (layer_bytes layer.entry)))
        × IsOfInput result }
{
    let place = stack.len();
    let (table, json) = layer;
    let table = open_table(alloc, place, table)?;
    let map = read_map(alloc, place, json)?;
    push(table, map, stack)
}

/// The table of the layer at a place, which a fault names.
pub fn open_table(alloc: Global, layer: usize, bytes: &[u8]) -> Result<Table<'_>, ToolFault>
    ensures value { GivesOr OutOfMemory (λ table. table) result (table_of_layer layer bytes.now) }
    ensures of_input { IsOfInput result }
{
    match Table::open(alloc, bytes) {
        Ok(table) => Ok(table),
        Err(fault) => Err(ToolFault::of_layer_table(layer, fault)),
    }
}

// The id map of the layer at a place, None at a base.
fn read_map(alloc: Global, layer: usize, json: Option<&[u8]>) -> Result<Option<IdMap>, ToolFault>
    ensures { GivesOr OutOfMemory (λ map. map) result (map_of_layer layer (option_map (λ bytes. bytes.now) json.entry)) × IsOfInput result }
{
    let Some(json) = json else {
        return Ok(None);
    };
    match IdMap::read(alloc, json) {
        Ok(map) => Ok(Some(map)),
        Err(fault) => Err(ToolFault::of_layer_map(layer, fault)),
    }
}

// Pushes a table as an overlay with its id map or, without one, as a base.
fn push<'a>(table: Table<'a>, map: Option<IdMap>, stack: &mut Stack<'a>) -> Result<(), ToolFault>
    requires { length stack.old < most_layers }
    ensures { GivesOr OutOfMemory (λ _. stack.new) result (Ok (stack.old ++ record { table = table.entry; map = map } ∷ []))
        × IsOfInput result }
{
    match map {
        Some(map) => match stack.push_overlay(table, map) {
            Ok(()) => Ok(()),
            Err((fault, _, _)) => Err(ToolFault::from(fault)),
        },
        None => match stack.push_base(table) {
            Ok(()) => Ok(()),
            Err((fault, _)) => Err(ToolFault::from(fault)),
        },
    }
}
