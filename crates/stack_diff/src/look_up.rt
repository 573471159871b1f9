//! The look-up of an id.

ghost use Rattle.std.specs.Prelude.{◌≡◌, ◌++◌, map, IfOk, OnOk};
ghost use Rattle.reference_resolver.specs.config_record.DeviceSeen.{device_numbers};
ghost use Rattle.reference_resolver.specs.overlay_map.Candidates.{cand_of, candidates_of};
ghost use Rattle.stack_diff.specs.LayersSeen.{layers_of, stack_among, is_kept, IsLookUp, loads_of};
ghost use Rattle.stack_diff.specs.RowPlaces.{row_places, row_places_at};

use crate::layer_rows::LayerRows;
use crate::row_place::RowPlace;
use reference_resolver::{Cand, Device, ResId, Stack, picked_at};
use std::alloc::{AllocError, Global};

/// Among which rows an id is looked up.
#[derive(Clone, Copy)]
pub(crate) enum Among {
    AllLayers,
    /// As if overlays did nothing.
    BasesAlone,
}

/// The candidates of an id, and where their rows stand.
#[derive(Drop)]
pub(crate) struct LookUp<'a> {
    pub candidates: Vec<Cand<'a>>,
    pub rows: Vec<RowPlace>,
}

impl<'a> LookUp<'a> {
    ghost use Rattle.std.specs.Prelude.{◌≡◌, map, IfOk};
    ghost use Rattle.std.specs.List.{list_any};
    ghost use Rattle.reference_resolver.specs.overlay_map.Candidates.{cand_of};
    ghost use Rattle.reference_resolver.specs.config_record.DeviceSeen.{device_numbers};
    ghost use Rattle.stack_diff.specs.LayersSeen.{layers_of, stack_among, IsLookUp, loads_of};

    /// That of an id.
    pub fn of(
        alloc: Global,
        stack: &Stack<'a>,
        layers: &[LayerRows<'_, 'a>],
        id: ResId,
        among: Among,
    ) -> Result<LookUp<'a>, AllocError>
        requires { layers_of layers.now ≡ stack.now }
        ensures { IfOk result (IsLookUp (stack_among among stack.now) id.0) }
    {
        Ok(LookUp {
            candidates: candidates_among(alloc, stack, id, among)?,
            rows: rows_among(alloc, layers, id, among)?,
        })
    }

    /// The row that a device loads.
    pub fn loaded_row(&self, device: &Device) -> Option<RowPlace>
        ensures { result ≡ loads_of self.now (device_numbers device.now) }
    {
        let place = picked_at(&self.candidates, device)?;
        self.rows.get(place).copied()
    }

    /// Whether a candidate is of an overlay.
    pub fn has_overlay(&self) -> bool
        ensures { result ≡ list_any (λ candidate. candidate.overlay) (map cand_of self.now.candidates.items) }
    {
        for candidate in &self.candidates {
            if candidate.overlay {
                return true;
            }
        }
        false
    }
}

// The candidates of an id.
fn candidates_among<'a>(
    alloc: Global,
    stack: &Stack<'a>,
    id: ResId,
    among: Among,
) -> Result<Vec<Cand<'a>>, AllocError>
    ensures { IfOk result (λ candidates. map cand_of candidates.items ≡ candidates_of (stack_among among stack.now) id.0) }
{
    let mut candidates = Vec::new(alloc);
    for candidate in stack.candidates(id) {
        if is_kept(among, &candidate) {
            candidates.push(candidate)?;
        }
    }
    Ok(candidates)
}

// Whether it is a candidate where overlays do something, or nothing.
fn is_kept(among: Among, candidate: &Cand<'_>) -> bool
    ensures { result ≡ is_kept among (cand_of candidate.now) }
{
    match among {
        Among::AllLayers => true,
        Among::BasesAlone => !candidate.overlay,
    }
}

/// Where the rows of an id stand.
#[tactic(auto, unfolding(crate::specs::RowPlaces::row_places))]
pub(crate) fn rows_among(
    alloc: Global,
    layers: &[LayerRows<'_, '_>],
    id: ResId,
    among: Among,
) -> Result<Vec<RowPlace>, AllocError>
    ensures { IfOk result (λ rows. rows.items ≡ row_places (stack_among among (layers_of layers.now)) id.0) }
{
    let mut rows = Vec::new(alloc);
    for (index, layer) in layers.iter().enumerate() {
        push_rows(index, layer.places_for(id, among), &mut rows)?;
    }
    Ok(rows)
}

// Pushes the rows at these places of a layer.
fn push_rows(layer: usize, places: &[usize], rows: &mut Vec<RowPlace>) -> Result<(), AllocError>
    ensures { OnOk result (rows.new.items ≡ rows.old.items ++ row_places_at layer places.now) }
{
    for place in places {
        rows.push(RowPlace {
            layer,
            place: *place,
        })?;
    }
    Ok(())
}
