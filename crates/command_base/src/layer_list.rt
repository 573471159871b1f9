//! Lists of layers: which files the layers of a stack are.

ghost use Rattle.std.specs.Prelude.{◌≡◌, ◌<◌, length, nat_lt, IfOk, OnOk};
ghost use Rattle.std.specs.Option.{option_map};
ghost use Rattle.command_base.specs.contract_words.Faults.{refuse};
ghost use Rattle.command_base.specs.contract_words.Exact.{GivesOr};
ghost use Rattle.command_base.specs.overlay_map.Layer.{most_layers};
ghost use Rattle.json_tokens.specs.Kind.{kind_seen};
ghost use Rattle.json_tokens.specs.Reads.{ReadsOr};
ghost use Rattle.json_tokens.specs.Standing.{value_at, items_at};
ghost use Rattle.command_base.specs.declared.layers_fault.LayersFault.TheVariants.{Syntax, TooManyLayers, OutOfMemory};
ghost use Rattle.command_base.specs.LayerList.{layer_paths_in};
ghost use Rattle.command_base.specs.LayerListSeen.{lent_paths_of, paths_of, listed};
ghost use Rattle.command_base.specs.LayerKinds.{layer_of_kinds, layer_seen, kept_layers, kept_list, kept_seen};

use crate::layer_parts::LayerParts;
use crate::layers_fault::LayersFault;
use answer_text::MOST_LAYERS;
use json_tokens::{Kind, MOST_DEPTH, Scratch, Tokens};
use std::alloc::{AllocError, Global};

/// The name of the member that has the path of a layer's table.
const TABLE: &str = "table";

/// The name of the member that has the path of an overlay's id map.
const MAP: &str = "map";

/// The files of a stack's layers, the later over the earlier. Any text is a path.
#[derive(Drop)]
pub struct LayerList {
    /// The path of each layer's table and, at an overlay, of its id map.
    pub paths: Vec<LayerParts<String>>,
}

impl LayerList {
    ghost use Rattle.command_base.specs.LayerList.{layers_in};

    /// The layers of a JSON text: a list of at most 64 objects, each with the path of a table and, at an
    /// overlay, that of its id map.
    pub fn read(alloc: Global, json: &[u8]) -> Result<LayerList, LayersFault>
        ensures { GivesOr OutOfMemory listed result (layers_in json.now) }
    {
        let mut scratch = Scratch::new(alloc);
        let mut tokens = Tokens::of(json, &mut scratch)?;
        let layers = read_list(alloc, &mut tokens)?;
        tokens.end()?;
        let paths = layers.ok_or(LayersFault::Shape)?;
        check_count(paths.len())?;
        Ok(LayerList { paths })
    }
}

/// Whether there may be so many layers.
pub(crate) fn check_count(count: usize) -> Result<(), LayersFault>
    ensures { result ≡ refuse (nat_lt most_layers count) TooManyLayers }
{
    if count > MOST_LAYERS {
        Err(LayersFault::TooManyLayers)
    } else {
        Ok(())
    }
}

// The layers of the list that stands next.
fn read_list(
    alloc: Global,
    tokens: &mut Tokens<'_>,
) -> Result<Option<Vec<LayerParts<String>>>, LayersFault>
    ensures { ReadsOr Syntax OutOfMemory kept_seen kept_list (value_at 127 tokens.old) result tokens.new }
{
    if tokens.enter_list(MOST_DEPTH)? {
        return read_items(alloc, tokens);
    }
    Ok(None)
}

// The layers of a list that was entered, where all its items are layers. No more of them are kept than one too many.
fn read_items(
    alloc: Global,
    tokens: &mut Tokens<'_>,
) -> Result<Option<Vec<LayerParts<String>>>, LayersFault>
    ensures { ReadsOr Syntax OutOfMemory kept_seen kept_layers (items_at 126 tokens.old) result tokens.new }
{
    let mut layers = Vec::new(alloc);
    'items: while tokens.next_item() {
        let Some(layer) = read_layer(alloc, tokens)? else {
            tokens.pass_items(MOST_DEPTH - 1)?;
            return Ok(None);
        };
        if layers.len() <= MOST_LAYERS {
            layers.push(layer)?;
        }
    }
    Ok(Some(layers))
}

// The paths of the layer that stands next.
fn read_layer(
    alloc: Global,
    tokens: &mut Tokens<'_>,
) -> Result<Option<LayerParts<String>>, LayersFault>
    ensures value { ReadsOr Syntax OutOfMemory layer_seen layer_paths_in (value_at 126 tokens.old) result tokens.new }
    ensures shorter { OnOk result (length tokens.new < length tokens.old) }
{
    let mut members = [None; 2];
    if !tokens.fields(MOST_DEPTH - 1, &[TABLE, MAP], &mut members)? {
        return Ok(None);
    }
    let [table, map] = members;
    match layer_paths(table, map) {
        Some(lent) => Ok(Some(owned_layer(alloc, lent)?)),
        None => Ok(None),
    }
}

// The paths that the members of a layer have.
#[tactic(auto, unfolding(crate::specs::LayerKinds::layer_of_kinds))]
fn layer_paths<'a>(table: Option<Kind<'a>>, map: Option<Kind<'a>>) -> Option<LayerParts<&'a str>>
    ensures { option_map lent_paths_of result ≡ layer_of_kinds (option_map kind_seen table.entry) (option_map kind_seen map.entry) }
{
    let Some(Kind::Text(table)) = table else {
        return None;
    };
    match map {
        None => Some((table, None)),
        Some(Kind::Text(map)) => Some((table, Some(map))),
        Some(_) => None,
    }
}

fn owned_layer(alloc: Global, lent: LayerParts<&str>) -> Result<LayerParts<String>, AllocError>
    ensures { IfOk result (λ paths. paths_of paths ≡ lent_paths_of lent.entry) }
{
    let (table, map) = lent;
    let table = String::from_str(alloc, table)?;
    match map {
        Some(map) => Ok((table, Some(String::from_str(alloc, map)?))),
        None => Ok((table, None)),
    }
}
