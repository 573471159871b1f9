//! The files of layers.

ghost use Rattle.std.specs.Prelude.{◌≡◌, [], map, string_bytes, IfOk, IfSome};
ghost use Rattle.std.specs.List.{enumerate_from};
ghost use Rattle.json_input.specs.Each.{each};
ghost use Rattle.command_base.specs.LayerListSeen.{paths_of, all_paths_of};
ghost use Rattle.command_base.specs.StackBytesSeen.{layer_bytes};
ghost use Rattle.command_base.specs.Stop.{GivesOrStops};
ghost use Rattle.command_base.specs.Inputs.{file_of, layer_of, layers_in_file, layers_named, layers_of, layers_on_side, named_layer, named_layers, paths_in_json, paths_in_word, paths_of_layers, table_at_place};
ghost use Rattle.command_base.specs.ListWordSeen.{listed_of};
ghost use Rattle.command_base.specs.FilesSeen.{layer_held, all_held, layers_held, paths_held};

use crate::inputs::{Inputs, file_bytes, layer_file_bytes, listed_table_file};
use crate::layer_list::{LayerList, check_count};
use crate::layer_parts::LayerParts;
use crate::list_word::{ListedLayer, is_list_word, layers_in_word};
use crate::made_map::MadeMap;
use crate::side::Side;
use crate::stop::Stop;
use apk_member::TableFile;
use std::alloc::{AllocError, Global};

/// The files of a layer.
#[derive(Drop)]
struct LayerBytes {
    table: TableFile,
    /// The bytes of the id map; None at a base.
    map: Option<Vec<u8>>,
}

/// The bytes of the files of layers: each table with its id map, if it is an overlay. The paths of the tables are those of the
/// word or of the list.
#[derive(Drop)]
pub struct LayerFiles {
    files: Vec<LayerBytes>,
    paths: Vec<String>,
}

impl LayerFiles {
    /// Reads the layers of a word: of the list that it is, or of that in the file at this path.
    #[tactic(auto, unfolding(crate::specs::Inputs::layers_of, crate::specs::Inputs::paths_of_layers))]
    pub fn read<'a, I: Inputs>(
        alloc: Global,
        inputs: &I,
        word: &'a str,
    ) -> Result<LayerFiles, Stop<'a>>
        ensures layers { IfSome (I.places inputs.now) (λ places. GivesOrStops layers_held result (layers_of places word.entry.now)) }
        ensures paths { IfSome (I.places inputs.now) (λ places. IfOk result (λ files. paths_held files ≡ paths_of_layers places word.entry.now)) }
    {
        if is_list_word(word) {
            LayerFiles::read_named(alloc, inputs, word)
        } else {
            LayerFiles::read_listed(alloc, inputs, word)
        }
    }

    // Those of a word that is a list: each table, and the id map that is made of an overlay.
    #[tactic(auto, unfolding(crate::specs::Inputs::layers_named))]
    fn read_named<'a, I: Inputs>(
        alloc: Global,
        inputs: &I,
        word: &'a str,
    ) -> Result<LayerFiles, Stop<'a>>
        ensures { IfSome (I.places inputs.now) (λ places. GivesOrStops layers_held result (layers_named places word.entry.now)
            × IfOk result (λ files. paths_held files ≡ paths_in_word word.entry.now)) }
    {
        let layers = layers_in_word(alloc, word)?;
        check_count(layers.len())?;
        let paths = listed_paths(alloc, &layers)?;
        let files = read_each_named(alloc, inputs, &layers)?;
        Ok(LayerFiles { files, paths })
    }

    // Those of a list in a file: the list, and then the files that it names, each table before its id map.
    #[tactic(auto, unfolding(crate::specs::Inputs::layers_in_file))]
    fn read_listed<'a, I: Inputs>(
        alloc: Global,
        inputs: &I,
        path: &'a str,
    ) -> Result<LayerFiles, Stop<'a>>
        ensures { IfSome (I.places inputs.now) (λ places. GivesOrStops layers_held result (layers_in_file places path.entry.now)
            × IfOk result (λ files. paths_held files ≡ paths_in_json (file_of places path.entry.now))) }
    {
        let json = file_bytes(inputs, path)?;
        let list = LayerList::read(alloc, &json)?;
        let paths = table_paths(alloc, &list.paths)?;
        let files = read_each_layer(alloc, inputs, list.paths)?;
        Ok(LayerFiles { files, paths })
    }

    /// The same of one of two stacks that are compared; a fault of its list names the side.
    pub fn read_side<'a, I: Inputs>(
        alloc: Global,
        inputs: &I,
        side: Side,
        path: &'a str,
    ) -> Result<LayerFiles, Stop<'a>>
        ensures { IfSome (I.places inputs.now) (λ places. GivesOrStops layers_held result
            (layers_on_side side places path.entry.now)) }
    {
        match LayerFiles::read(alloc, inputs, path) {
            Ok(files) => Ok(files),
            Err(stop) => Err(stop.on_side(side)),
        }
    }

    /// The paths of the tables, as the word or the list has them.
    pub fn paths(&self) -> &[String]
        ensures { map string_bytes result.now ≡ paths_held self.now }
    {
        &self.paths
    }

    /// The layers, lent.
    pub fn layers(&self, alloc: Global) -> Result<Vec<LayerParts<&[u8]>>, AllocError>
        ensures { IfOk result (λ layers. map layer_bytes layers.items ≡ layers_held self.now) }
    {
        let mut layers = Vec::new(alloc);
        for layer in &self.files {
            layers.push((layer.table.table(), layer.map.as_deref()))?;
        }
        Ok(layers)
    }
}

// The paths of a word that is a list.
fn listed_paths(alloc: Global, layers: &[ListedLayer<'_>]) -> Result<Vec<String>, AllocError>
    ensures { IfOk result (λ paths. map string_bytes paths.items ≡ map (λ layer. layer.path) (map listed_of layers.now)) }
{
    let mut paths = Vec::new(alloc);
    for layer in layers {
        let path = String::from_str(alloc, layer.path)?;
        paths.push(path)?;
    }
    Ok(paths)
}

// The paths of tables that a list in a file has.
fn table_paths(alloc: Global, layers: &[LayerParts<String>]) -> Result<Vec<String>, AllocError>
    ensures { IfOk result (λ paths. map string_bytes paths.items ≡ map (λ layer. layer.table) (map paths_of layers.now)) }
{
    let mut paths = Vec::new(alloc);
    for (table, _) in layers {
        let path = String::from_str(alloc, table.as_str())?;
        paths.push(path)?;
    }
    Ok(paths)
}

// Reads the layers of a word that is a list, one after the other.
fn read_each_named<I: Inputs>(
    alloc: Global,
    inputs: &I,
    layers: &[ListedLayer<'_>],
) -> Result<Vec<LayerBytes>, Stop<'static>>
    ensures { IfSome (I.places inputs.now) (λ places. GivesOrStops all_held result (named_layers places [] (map listed_of layers.now))) }
{
    let mut files = Vec::new(alloc);
    for layer in layers {
        let read = read_named_layer(alloc, inputs, *layer, &files)?;
        files.push(read)?;
    }
    Ok(files)
}

// Reads such a layer, behind others.
#[tactic(auto, unfolding(crate::specs::Inputs::named_layer))]
fn read_named_layer<I: Inputs>(
    alloc: Global,
    inputs: &I,
    layer: ListedLayer<'_>,
    before: &[LayerBytes],
) -> Result<LayerBytes, Stop<'static>>
    ensures { IfSome (I.places inputs.now) (λ places. GivesOrStops layer_held result (named_layer places (map layer_held before.now) (listed_of layer.entry))) }
{
    let place = before.len();
    let path = String::from_str(alloc, layer.path)?;
    let table = listed_table_file(inputs, place, path)?;
    match layer.base {
        Some(base) => {
            let target = table_at_place(before, base);
            let made = MadeMap::over(alloc, b"", base, target, place, table.table())?;
            let map = Some(made.json);
            Ok(LayerBytes { table, map })
        }
        None => Ok(LayerBytes { table, map: None }),
    }
}

// The table of the layer at a place, which is there.
fn table_at_place(layers: &[LayerBytes], place: usize) -> &[u8]
    ensures { result.now ≡ table_at_place (map layer_held layers.now) place }
{
    match layers.get(place) {
        Some(layer) => layer.table.table(),
        None => &[],
    }
}

fn read_each_layer<I: Inputs>(
    alloc: Global,
    inputs: &I,
    paths: Vec<LayerParts<String>>,
) -> Result<Vec<LayerBytes>, Stop<'static>>
    ensures { IfSome (I.places inputs.now) (λ places. GivesOrStops all_held result (each (layer_of places) (enumerate_from 0 (all_paths_of paths)))) }
{
    let mut files = Vec::new(alloc);
    for layer in paths {
        let read = read_layer(inputs, files.len(), layer)?;
        files.push(read)?;
    }
    Ok(files)
}

#[tactic(auto, unfolding(crate::specs::Inputs::layer_of))]
fn read_layer<I: Inputs>(
    inputs: &I,
    place: usize,
    paths: LayerParts<String>,
) -> Result<LayerBytes, Stop<'static>>
    ensures { IfSome (I.places inputs.now) (λ places. GivesOrStops layer_held result (layer_of places (place, paths_of paths))) }
{
    let (table, map) = paths;
    let table = listed_table_file(inputs, place, table)?;
    match map {
        Some(path) => {
            let map = Some(layer_file_bytes(inputs, path)?);
            Ok(LayerBytes { table, map })
        }
        None => Ok(LayerBytes { table, map: None }),
    }
}
