//! Stacks.

ghost use Rattle.std.specs.Prelude.{◌≡◌, ◌≤◌, ◌<◌, ◌^◌, [], ◌∷◌, ◌++◌, All, length, map, slice_get, vec_len, vec_capacity, nat_eq, option_and_then, OnOk, IfOk, IfErr};
ghost use Rattle.overlay_map.specs.Table.{rows_of};
ghost use Rattle.std.specs.Option.{option_map};
ghost use Rattle.overlay_map.specs.Layer.{by_itself, most_layers, base_tables, HasFewRows};
ghost use Rattle.overlay_map.specs.Pushing.{PushesLayer, IsIndexed, IsHandedBack, base_of, overlay_of};
ghost use Rattle.overlay_map.specs.SetAside.{set_aside_in_stack};
ghost use Rattle.overlay_map.specs.Candidates.{candidates_of};
ghost use Rattle.overlay_map.specs.BaseRow.{base_row_of, first_base_row};

use crate::base_row::BaseRow;
use crate::candidates::Cands;
use crate::id_map::IdMap;
use crate::indexed_table::IndexedTable;
use crate::layer::Layer;
use crate::stack_fault::StackFault;
use crate::table::Table;
use std::alloc::{AllocError, Global};
use std::marker::Model;
use type_chunks::ResId;

/// The most layers that a stack can have.
pub const MOST_LAYERS: usize = 64;

/// Layers, the later over the earlier (AOSP: the packages of a `ResTable`, each with the tables that were
/// added to it). Contracts see them as a list.
#[derive(Drop)]
pub struct Stack<'a> {
    layers: Vec<Layer<'a>>,
    ghost few: { length layers.items ≤ most_layers },
    ghost few_rows: { All HasFewRows layers.items },
}

impl<'a> Model for Stack<'a> {
    ghost use Rattle.std.specs.Prelude.{List};
    ghost use Rattle.overlay_map.specs.Layer.{LayerOf};

    ghost Value = { List LayerOf };

    ghost view = { λ stack. stack.layers.items };
}

impl<'a> Stack<'a> {
    /// A stack without layers. What is pushed later takes its memory from `alloc`.
    pub fn new(alloc: Global) -> Stack<'a>
        ensures { result ≡ [] }
    {
        Stack {
            layers: Vec::new(alloc),
        }
    }

    /// Puts a table over all layers, as a base. Where 64 layers stand or memory runs out, the stack is
    /// unchanged and the table is handed back.
    pub fn push_base(&mut self, table: Table<'a>) -> Result<(), (StackFault, Table<'a>)>
        ensures pushed { PushesLayer (λ refused. refused.0) (base_of table.entry) self.old self.new result }
        ensures back { IfErr result (λ refused. refused.1 ≡ table.entry) }
    {
        let table = indexed_with_room(&mut self.layers, table)?;
        push_layer(&mut self.layers, Layer { table, map: None });
        Ok(())
    }

    /// Puts a table over all layers, as an overlay with its id map. Where 64 layers stand or memory runs
    /// out, the stack is unchanged and both are handed back.
    pub fn push_overlay(
        &mut self,
        table: Table<'a>,
        map: IdMap,
    ) -> Result<(), (StackFault, Table<'a>, IdMap)>
        ensures pushed { PushesLayer (λ refused. refused.0) (overlay_of table.entry map) self.old self.new result }
        ensures back { IfErr result (λ refused. (refused.1 ≡ table.entry) × (refused.2 ≡ map)) }
    {
        let table = match indexed_with_room(&mut self.layers, table) {
            Ok(table) => table,
            Err((fault, table)) => return Err((fault, table, map)),
        };
        let map = Some(map);
        push_layer(&mut self.layers, Layer { table, map });
        Ok(())
    }

    /// How many layers it has, 64 at most.
    pub fn len(&self) -> usize
        ensures value { result ≡ length self.now }
        ensures few { result ≤ most_layers }
    {
        self.layers.len()
    }

    pub fn is_empty(&self) -> bool
        ensures { result ≡ nat_eq (length self.now) 0 }
    {
        self.layers.is_empty()
    }

    /// The table of the layer of an index, counted from 0.
    pub fn layer_table(&self, index: usize) -> Option<&Table<'a>>
        ensures { option_map (λ table. table.now) result ≡ option_map (λ layer. layer.table) (slice_get self.now index) }
    {
        match self.layers.get(index) {
            Some(layer) => Some(layer.table.table()),
            None => None,
        }
    }

    /// The id map of the layer of an index, where that is an overlay.
    pub fn layer_map(&self, index: usize) -> Option<&IdMap>
        ensures { option_map (λ map. map.now) result ≡ option_and_then (λ layer. layer.map) (slice_get self.now index) }
    {
        self.layers.get(index)?.map.as_ref()
    }

    /// The tables of the base layers, the lowest first.
    pub fn base_tables(&self, alloc: Global) -> Result<Vec<&Table<'a>>, AllocError>
        ensures { IfOk result (λ tables. map (λ table. table.now) tables.items ≡ base_tables self.now) }
    {
        let mut tables = Vec::new(alloc);
        for layer in &self.layers {
            if layer.map.is_none() {
                tables.push(layer.table.table())?;
            }
        }
        Ok(tables)
    }

    /// The first row of an id in the first base layer that has one. Its names are those of the id.
    pub fn base_row(&self, id: ResId) -> Option<BaseRow<'_, 'a>>
        ensures { option_map base_row_of result ≡ first_base_row self.now id.0 }
    {
        for layer in &self.layers {
            if let Some(row) = layer.base_row(id) {
                return Some(row);
            }
        }
        None
    }

    /// Each of its layers as a stack by itself, as a base.
    pub fn apart(self, alloc: Global) -> Result<Vec<Stack<'a>>, AllocError>
        ensures apart { IfOk result (λ stacks. stacks.items ≡ map by_itself self.entry) }
        ensures few { IfOk result (λ stacks. length stacks.items ≤ most_layers) }
    {
        let mut stacks = Vec::new(alloc);
        for layer in self.layers {
            stacks.push(by_itself(alloc, layer)?)?;
        }
        Ok(stacks)
    }

    /// How many rows of all layers are set aside: their locale has a script or a variant, and by
    /// language and region they match no device.
    #[tactic(auto, unfolding(crate::specs::SetAside::set_aside_in_stack))]
    pub fn set_aside(&self) -> u128
        ensures { result ≡ set_aside_in_stack self.now }
    {
        let mut count = 0;
        for layer in &self.layers {
            count += layer.set_aside();
        }
        count
    }

    /// The rows that may stand for an id, layer by layer and in the order of each file: those of the id in
    /// a base, and in an overlay those of the id that its map gives, none where it gives none.
    #[tactic(auto, unfolding(crate::specs::Candidates::candidates_of))]
    pub fn candidates(&self, id: ResId) -> Cands<'_, 'a>
        ensures candidates { result ≡ candidates_of self.now id.0 }
        ensures few { length result < 2 ^ 99 }
    {
        Cands::new(&self.layers, id)
    }
}

// The table of a layer as a base, the only layer of a stack.
fn by_itself<'a>(alloc: Global, layer: Layer<'a>) -> Result<Stack<'a>, AllocError>
    requires { HasFewRows layer }
    ensures { IfOk result (λ stack. stack ≡ by_itself layer.entry) }
{
    let table = layer.table;
    let layers = vec![in alloc; Layer { table, map: None }]?;
    Ok(Stack { layers })
}

// Makes room for one layer more, where one may stand, and notes where the rows of its table stand. Refused where
// 64 layers stand or memory runs out; then the layers are unchanged and the table is handed back.
fn indexed_with_room<'a>(
    layers: &mut Vec<Layer<'a>>,
    table: Table<'a>,
) -> Result<IndexedTable<'a>, (StackFault, Table<'a>)>
    requires { length layers.old.items ≤ most_layers }
    ensures same { layers.new.items ≡ layers.old.items }
    ensures given { IfOk result (λ indexed. IsIndexed layers.old.items (vec_len layers.new) (vec_capacity layers.new) table.entry indexed) }
    ensures refused { IfErr result (λ refused. IsHandedBack layers.old.items layers.new.items refused.0 table.entry refused.1) }
{
    if layers.len() == MOST_LAYERS {
        return Err((StackFault::TooManyLayers, table));
    }
    if layers.reserve(1).is_err() {
        return Err((StackFault::OutOfMemory, table));
    }
    match IndexedTable::new(*layers.allocator(), table) {
        Ok(table) => Ok(table),
        Err(table) => Err((StackFault::OutOfMemory, table)),
    }
}

// Pushes a layer, for which there is room.
fn push_layer<'a>(layers: &mut Vec<Layer<'a>>, layer: Layer<'a>)
    requires { vec_len layers.old < vec_capacity layers.old }
    ensures { layers.new.items ≡ layers.old.items ++ layer.entry ∷ [] }
{
    let Ok(()) = layers.push(layer) else {
        unreachable!()
    };
}
