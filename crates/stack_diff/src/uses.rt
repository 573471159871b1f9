//! What is known of the rows of a stack.

ghost use Rattle.std.specs.Prelude.{◌≡◌, ◌≢◌, ◌≤◌, ◌↔◌, ℕ, Bool, IsTrue, IsFalse, All, List, Option, Some, map, length, slice_get, None, IfOk, OnOk};
ghost use Rattle.std.specs.List.{list_any};
ghost use Rattle.std.specs.Option.{option_map};
ghost use Rattle.stack_diff.specs.declared.row_place.RowPlace.{RowPlace};
ghost use Rattle.stack_diff.specs.LayersSeen.{layers_of};
ghost use Rattle.stack_diff.specs.RowPlaces.{row_places};
ghost use Rattle.stack_diff.specs.RowUses.{told_at};
ghost use Rattle.stack_diff.specs.Raising.{level_of, level_told, level_in, level_at, cells_of, raised, KeepsReach, no_more, one_more, rows_more, is_asked_at, is_open_at, all_told, AsksFor, IsBegun};

use crate::layer_rows::LayerRows;
use crate::look_up::{Among, rows_among};
use crate::row_place::RowPlace;
use crate::row_use::RowUse;
use reference_resolver::ResId;
use std::alloc::{AllocError, Global};

/// What is known of the rows of a stack, layer by layer. Of those that are not asked for it is nothing.
#[derive(Drop)]
pub(crate) struct Uses {
    pub layers: Vec<Vec<Option<RowUse>>>,
}

impl Uses {
    ghost use Rattle.std.specs.Prelude.{◌≡◌, ◌≢◌, ◌≤◌, ◌↔◌, ℕ, Bool, IsTrue, IsFalse, All, List, Option, Some, map, length, slice_get, None, IfOk, OnOk};
    ghost use Rattle.std.specs.List.{list_any};
    ghost use Rattle.std.specs.Option.{option_map};
    ghost use Rattle.stack_diff.specs.declared.row_place.RowPlace.{RowPlace};
    ghost use Rattle.stack_diff.specs.LayersSeen.{layers_of};
    ghost use Rattle.stack_diff.specs.RowPlaces.{row_places};
    ghost use Rattle.stack_diff.specs.RowUses.{told_at};
    ghost use Rattle.stack_diff.specs.Raising.{level_of, level_told, level_at, cells_of, raised, KeepsReach, no_more, one_more, rows_more, is_asked_at, is_open_at, all_told, AsksFor, IsBegun};

    /// Before anything is looked up: nothing brings in what is asked for. Those rows are asked for that may stand for one of
    /// these ids, or all.
    pub fn of(
        alloc: Global,
        layers: &[LayerRows<'_, '_>],
        asked: Option<&[ResId]>,
    ) -> Result<Uses, AllocError>
        ensures { IfOk result (λ uses. IsBegun (layers_of layers.now) (option_map (λ ids. map (λ id. id.0) ids.now) asked.entry) (cells_of uses)) }
    {
        let Some(ids) = asked else {
            return Uses::all_told(alloc, layers, Some(RowUse::Unmapped));
        };
        let mut uses = Uses::all_told(alloc, layers, None)?;
        for id in ids {
            let rows = rows_among(alloc, layers, *id, Among::AllLayers)?;
            uses.ask_each(&rows);
        }
        Ok(uses)
    }

    // The same of all rows.
    fn all_told(
        alloc: Global,
        layers: &[LayerRows<'_, '_>],
        told: Option<RowUse>,
    ) -> Result<Uses, AllocError>
        ensures { IfOk result (λ uses. cells_of uses ≡ all_told (layers_of layers.now) told) }
    {
        let mut uses = Vec::new(alloc);
        for layer in layers {
            uses.push(vec![in alloc; told; layer.count]?)?;
        }
        Ok(Uses { layers: uses })
    }

    // Asks for some rows.
    fn ask_each(&mut self, rows: &[RowPlace])
        ensures { AsksFor rows.now (cells_of self.old) (cells_of self.new) }
    {
        for row in rows {
            self.lift(row, RowUse::Unmapped, true);
        }
    }

    /// Raises a row that is asked for to a use, if it is lower.
    pub fn raise(&mut self, row: &RowPlace, to: RowUse)
        ensures { KeepsReach (cells_of self.old) (one_more row.now (level_of to)) (cells_of self.new) no_more }
    {
        self.lift(row, to, false);
    }

    // The same, and of a row that is not asked for, where it asks for it.
    fn lift(&mut self, row: &RowPlace, to: RowUse, asks: bool)
        ensures here { (told : Option RowUse) → told_at (cells_of self.old) row.now ≡ Some told → level_at (cells_of self.new) row.now ≡ raised asks (level_told told) (level_of to) }
        ensures others { (other : RowPlace) → other ≢ row.now → told_at (cells_of self.new) other ≡ told_at (cells_of self.old) other }
        ensures nowhere { told_at (cells_of self.old) row.now ≡ None → cells_of self.new ≡ cells_of self.old }
        ensures alongside { map length (cells_of self.new) ≡ map length (cells_of self.old) }
    {
        if let Some(layer) = self.layers.get_mut(row.layer) {
            lift_in(layer, row.place, to, asks);
        }
    }

    /// Whether some of these rows are asked for.
    pub fn has_asked(&self, rows: &[RowPlace]) -> bool
        ensures { result ≡ list_any (is_asked_at (cells_of self.now)) rows.now }
    {
        for row in rows {
            if self.is_asked(row) {
                return true;
            }
        }
        false
    }

    fn is_asked(&self, row: &RowPlace) -> bool
        ensures { result ≡ is_asked_at (cells_of self.now) row.now }
    {
        self.told(row).is_some()
    }

    /// Whether some of these rows are asked for and not loaded.
    pub fn has_open(&self, rows: &[RowPlace]) -> bool
        ensures { result ≡ list_any (is_open_at (cells_of self.now)) rows.now }
    {
        for row in rows {
            if self.is_open(row) {
                return true;
            }
        }
        false
    }

    fn is_open(&self, row: &RowPlace) -> bool
        ensures { result ≡ is_open_at (cells_of self.now) row.now }
    {
        match self.told(row) {
            Some(RowUse::Loaded) | None => false,
            Some(RowUse::Unmapped | RowUse::Unused | RowUse::Overlaid) => true,
        }
    }

    /// Raises some rows that stand for an id.
    pub fn raise_each(&mut self, rows: &[RowPlace])
        ensures { KeepsReach (cells_of self.old) (rows_more rows.now) (cells_of self.new) no_more }
    {
        for row in rows {
            self.raise(row, RowUse::Unused);
        }
    }

    // What is known of a row.
    fn told(&self, row: &RowPlace) -> Option<RowUse>
        ensures { level_told result ≡ level_at (cells_of self.now) row.now }
    {
        *self.layers.get(row.layer)?.get(row.place)?
    }
}

// The same of the row at a place of a layer.
fn lift_in(layer: &mut Vec<Option<RowUse>>, place: usize, to: RowUse, asks: bool)
    ensures here { (told : Option RowUse) → slice_get layer.old.items place ≡ Some told → level_in layer.new.items place ≡ raised asks (level_told told) (level_of to) }
    ensures others { (other : ℕ) → other ≢ place → slice_get layer.new.items other ≡ slice_get layer.old.items other }
    ensures nowhere { slice_get layer.old.items place ≡ None → layer.new.items ≡ layer.old.items }
    ensures count { length layer.new.items ≡ length layer.old.items }
{
    if let Some(told) = layer.get_mut(place) {
        *told = lifted(*told, to, asks);
    }
}

// What is known of a row after that.
fn lifted(told: Option<RowUse>, to: RowUse, asks: bool) -> Option<RowUse>
    ensures { level_told result ≡ raised asks (level_told told) (level_of to) }
{
    match told {
        Some(found) if level(to) <= level(found) => told,
        Some(_) => Some(to),
        None if asks => Some(to),
        None => None,
    }
}

// How much a use is.
fn level(found: RowUse) -> u8
    ensures { result ≡ level_of found }
{
    match found {
        RowUse::Unmapped => 1,
        RowUse::Unused => 2,
        RowUse::Overlaid => 3,
        RowUse::Loaded => 4,
    }
}
