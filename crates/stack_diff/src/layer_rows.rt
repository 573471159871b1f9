//! The layers of a stack, with the places of their rows.

ghost use Rattle.std.specs.Prelude.{◌≡◌, length};
ghost use Rattle.reference_resolver.specs.overlay_map.Table.{rows_of};
ghost use Rattle.stack_diff.specs.PlacesSeen.{ArePlacesOf, ListsIds};

use crate::look_up::Among;
use crate::places::Places;
use reference_resolver::{IdMap, ResId, Stack, Table};
use std::alloc::{AllocError, Global};

/// A layer of a stack, with the places of its rows.
#[derive(Drop)]
pub(crate) struct LayerRows<'s, 'a> {
    pub table: &'s Table<'a>,
    /// None at a base.
    pub map: Option<&'s IdMap>,
    /// By the ids of its table.
    pub places: Places,
    /// How many rows the table has.
    pub count: usize,
    ghost all: { ArePlacesOf (rows_of table.now) places },
    ghost listed: { ListsIds places },
    ghost counted: { count ≡ length (rows_of table.now) },
}

impl<'s, 'a> LayerRows<'s, 'a> {
    ghost use Rattle.std.specs.Prelude.{◌≡◌, IfOk};
    ghost use Rattle.std.specs.Option.{option_map};
    ghost use Rattle.reference_resolver.specs.overlay_map.Layer.{own_id};
    ghost use Rattle.stack_diff.specs.LayersSeen.{layer_of, layers_of, layer_among};
    ghost use Rattle.stack_diff.specs.RowPlaces.{places_for};

    /// Walks once over the rows of the table.
    pub fn of(
        alloc: Global,
        table: &'s Table<'a>,
        map: Option<&'s IdMap>,
    ) -> Result<LayerRows<'s, 'a>, AllocError>
        ensures table { IfOk result (λ layer. layer.table ≡ table.entry) }
        ensures map { IfOk result (λ layer. layer.map ≡ map.entry) }
    {
        let mut places = Places::new(alloc);
        let mut count: usize = 0;
        for row in table.all_rows() {
            places.push(alloc, row.id, count)?;
            // No table of 4 GiB has more rows than this.
            count = count.checked_add(1).ok_or(AllocError)?;
        }
        Ok(LayerRows {
            table,
            map,
            places,
            count,
        })
    }

    /// The places of its rows that stand for an id.
    pub fn places_for(&self, id: ResId, among: Among) -> &[usize]
        ensures { result.now ≡ places_for (layer_among among (layer_of self.now)) id.0 }
    {
        match self.own_id(id, among) {
            Some(own) => self.places.get(own),
            None => &[],
        }
    }

    // The id under which its table has them.
    #[tactic(auto, unfolding(crate::specs::Unfolded::look_of))]
    fn own_id(&self, id: ResId, among: Among) -> Option<ResId>
        ensures { option_map (λ own. own.0) result ≡ own_id (layer_among among (layer_of self.now)) id.0 }
    {
        let Some(map) = self.map else {
            return Some(id);
        };
        match among {
            Among::AllLayers => map.look(id),
            Among::BasesAlone => None,
        }
    }

    /// The layers of a stack.
    pub fn all(alloc: Global, stack: &'s Stack<'a>) -> Result<Vec<LayerRows<'s, 'a>>, AllocError>
        ensures { IfOk result (λ layers. layers_of layers.items ≡ stack.now) }
    {
        let mut layers = Vec::new(alloc);
        for index in 0..stack.len() {
            let Some(table) = stack.layer_table(index) else {
                unreachable!()
            };
            let layer = LayerRows::of(alloc, table, stack.layer_map(index))?;
            layers.push(layer)?;
        }
        Ok(layers)
    }
}
