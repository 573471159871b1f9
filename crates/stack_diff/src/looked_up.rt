//! The ids that are looked up.

ghost use Rattle.std.specs.Prelude.{◌≡◌, ◌≢◌, ◌||◌, ℕ, [], map, Contains, IsTrue, IfOk, OnOk};
ghost use Rattle.std.specs.BTreeSet.{contains};
ghost use Rattle.std.specs.List.Sorted.{IsStrictlySortedBy};
ghost use Rattle.std.specs.Ordering.{nat_cmp};
ghost use Rattle.stack_diff.specs.LayersSeen.{layer_of, layers_of};
ghost use Rattle.stack_diff.specs.PlacesSeen.{is_among, id_of};
ghost use Rattle.stack_diff.specs.RowPlaces.{places_for, row_places};

use crate::layer_rows::LayerRows;
use reference_resolver::ResId;
use std::alloc::{AllocError, Global};
use std::collections::BTreeSet;

/// The ids for which rows may stand, each once: those of the rows of bases, and the targets of maps.
pub(crate) fn looked_up_ids(
    alloc: Global,
    layers: &[LayerRows<'_, '_>],
) -> Result<Vec<ResId>, AllocError>
    ensures once { IfOk result (λ ids. IsStrictlySortedBy nat_cmp (map (λ id. id.0) ids.items)) }
    ensures all { IfOk result (λ ids. (id : ℕ) → row_places (layers_of layers.now) id ≢ [] → Contains (map (λ id. id.0) ids.items) id) }
{
    let mut numbers = BTreeSet::new(alloc);
    for layer in layers {
        put_ids(alloc, layer, &mut numbers)?;
    }
    ids_in(alloc, &numbers)
}

// The ids of these numbers.
fn ids_in(alloc: Global, numbers: &BTreeSet<u32>) -> Result<Vec<ResId>, AllocError>
    ensures ids { IfOk result (λ ids. ids.items ≡ map id_of numbers.now.keys) }
    ensures once { IsStrictlySortedBy nat_cmp numbers.now.keys }
{
    let mut ids = Vec::with_capacity(alloc, numbers.len())?;
    for number in numbers {
        ids.push(ResId(*number))?;
    }
    Ok(ids)
}

// Puts the ids for which rows of a layer may stand among others.
fn put_ids(
    alloc: Global,
    layer: &LayerRows<'_, '_>,
    numbers: &mut BTreeSet<u32>,
) -> Result<(), AllocError>
    ensures kept { OnOk result ((id : ℕ) → IsTrue (contains nat_cmp numbers.old id) → IsTrue (contains nat_cmp numbers.new id)) }
    ensures put { OnOk result ((id : ℕ) → places_for (layer_of layer.now) id ≢ [] → IsTrue (contains nat_cmp numbers.new id)) }
{
    match layer.map {
        Some(map) => put_each(&map.targets(alloc)?, numbers),
        None => put_each(&layer.places.ids, numbers),
    }
}

// Puts some ids among others.
fn put_each(ids: &[ResId], numbers: &mut BTreeSet<u32>) -> Result<(), AllocError>
    ensures { OnOk result ((id : ℕ) → IsTrue (contains nat_cmp numbers.old id || is_among ids.now id) → IsTrue (contains nat_cmp numbers.new id)) }
{
    for id in ids {
        numbers.insert(id.0)?;
    }
    Ok(())
}
