//! Layers.

ghost use Rattle.std.specs.Prelude.{◌≡◌, ◌<◌, ◌^◌, is_some};
ghost use Rattle.std.specs.Option.{option_map};
ghost use Rattle.overlay_map.specs.BaseRow.{base_row_of, base_row_in};
ghost use Rattle.overlay_map.specs.Layer.{own_id, rows_for};
ghost use Rattle.overlay_map.specs.SetAside.{set_aside_in_layer};

use crate::base_row::BaseRow;
use crate::id_map::IdMap;
use crate::indexed_rows::IndexedRows;
use crate::indexed_table::IndexedTable;
use std::marker::Model;
use type_chunks::ResId;

/// A table in a stack, as a base or as an overlay.
#[derive(Drop)]
pub(crate) struct Layer<'a> {
    pub table: IndexedTable<'a>,
    /// None at a base.
    pub map: Option<IdMap>,
}

impl<'a> Model for Layer<'a> {
    ghost use Rattle.overlay_map.specs.Layer.{LayerOf};

    ghost Value = { LayerOf };

    ghost view = { λ layer. record { table = layer.table; map = layer.map } };
}

impl<'a> Layer<'a> {
    pub fn is_overlay(&self) -> bool
        ensures { result ≡ is_some self.now.map }
    {
        self.map.is_some()
    }

    /// The rows of its table that stand for an id of the stack, in the order of the file.
    pub fn rows_for(&self, id: ResId) -> IndexedRows<'_, 'a>
        ensures { result ≡ rows_for self.now id.0 }
    {
        let Some(own_id) = self.own_id(id) else {
            return IndexedRows::none();
        };
        self.table.rows(own_id)
    }

    /// The first row of an id in its table, where it is a base.
    pub fn base_row(&self, id: ResId) -> Option<BaseRow<'_, 'a>>
        ensures { option_map base_row_of result ≡ base_row_in self.now id.0 }
    {
        if self.map.is_some() {
            return None;
        }
        let table = self.table.table();
        match self.table.rows(id).next() {
            Some(row) => Some(BaseRow { table, row }),
            None => None,
        }
    }

    // The id under which its table has them; none where there is no such id.
    fn own_id(&self, id: ResId) -> Option<ResId>
        ensures { option_map (λ own. own.0) result ≡ own_id self.now id.0 }
    {
        match &self.map {
            Some(map) => map.look(id),
            None => Some(id),
        }
    }

    /// How many rows of its table are set aside.
    #[tactic(auto, using(crate::proofs::SetAsideSteps::set_aside_steps))]
    pub fn set_aside(&self) -> u128
        ensures count { result ≡ set_aside_in_layer self.now }
        ensures few { result < 2 ^ 99 }
    {
        let mut count = 0;
        for checked in self.table.types() {
            count += u128::from(checked.set_aside());
        }
        count
    }
}
