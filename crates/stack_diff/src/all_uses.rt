//! What becomes of all rows of a stack.

ghost use Rattle.std.specs.Prelude.{◌≡◌, map, IfOk, IfSome};
ghost use Rattle.std.specs.Option.{option_map};
ghost use Rattle.stack_diff.specs.RowUses.{AreUses};
ghost use Rattle.stack_diff.specs.Parting.{IsWithin};
ghost use Rattle.stack_diff.specs.UsesLimit.{Leaves, BareParted, BareNeeded, IdLeaves, IdsLeave};
ghost use Rattle.stack_diff.specs.LayersSeen.{layers_of};
ghost use Rattle.stack_diff.specs.Raising.{cells_of, KeepsReach, no_more, bare_more, id_more, ids_more};

use crate::layer_rows::LayerRows;
use crate::loaded_rows::raise_loaded;
use crate::look_up::{Among, LookUp};
use crate::looked_up::looked_up_ids;
use crate::row_use::RowUse;
use crate::uses::Uses;
use cert_maker::{ConfigBox, OutOfMemory};
use reference_resolver::{ResId, Stack};
use std::alloc::Global;

/// What becomes of the rows of a stack on the devices of a box: layer by layer, alongside the rows of its table, those that
/// are set aside among them. Where ids are asked for, it is told of the rows that may stand for one of them; else of all. None
/// where the trees that part the devices have more nodes than the limit together.
pub fn row_uses(
    alloc: Global,
    stack: &Stack<'_>,
    members: &ConfigBox,
    asked: Option<&[ResId]>,
    max_nodes: usize,
) -> Result<Option<Vec<Vec<Option<RowUse>>>>, OutOfMemory>
    ensures uses { IfOk result (λ found. IfSome found (λ uses. AreUses stack.now members.now
        (option_map (λ ids. map (λ id. id.0) ids.now) asked.entry) (map (λ told. told.items) uses.items))) }
    ensures within { IfOk result (λ found. IsWithin stack.now members.now (option_map (λ ids. map (λ id. id.0) ids.now) asked.entry) max_nodes
        (option_map (λ uses. map (λ told. told.items) uses.items) found)) }
{
    let layers = LayerRows::all(alloc, stack)?;
    let mut uses = Uses::of(alloc, &layers, asked)?;
    let ids = looked_up_ids(alloc, &layers)?;
    let raised = raise_ids(alloc, stack, &layers, &ids, members, max_nodes, &mut uses)?;
    match raised {
        Some(_) => Ok(Some(uses.layers)),
        None => Ok(None),
    }
}

// Raises the rows that may stand for some ids, and tells how many nodes may still be looked at; none where that takes more.
fn raise_ids<'a>(
    alloc: Global,
    stack: &Stack<'a>,
    layers: &[LayerRows<'_, 'a>],
    ids: &[ResId],
    members: &ConfigBox,
    left: usize,
    uses: &mut Uses,
) -> Result<Option<usize>, OutOfMemory>
    requires { layers_of layers.now ≡ stack.now }
    ensures keeps { IfOk result (λ found. IfSome found (λ _. KeepsReach (cells_of uses.old) (ids_more stack.now members.now (map (λ id. id.0) ids.now)) (cells_of uses.new) no_more)) }
    ensures tree { IfOk result (IdsLeave stack.now members.now (cells_of uses.old) (map (λ id. id.0) ids.now) left) }
{
    let mut left = left;
    for id in ids {
        let raised = raise_id(alloc, stack, layers, *id, members, left, uses)?;
        let Some(rest) = raised else {
            return Ok(None);
        };
        left = rest;
    }
    Ok(Some(left))
}

// The same of one id.
fn raise_id<'a>(
    alloc: Global,
    stack: &Stack<'a>,
    layers: &[LayerRows<'_, 'a>],
    id: ResId,
    members: &ConfigBox,
    left: usize,
    uses: &mut Uses,
) -> Result<Option<usize>, OutOfMemory>
    requires { layers_of layers.now ≡ stack.now }
    ensures keeps { IfOk result (λ found. IfSome found (λ _. KeepsReach (cells_of uses.old) (id_more stack.now members.now id.0) (cells_of uses.new) no_more)) }
    ensures tree { IfOk result (IdLeaves stack.now members.now (cells_of uses.old) id.0 left) }
{
    let look_up = LookUp::of(alloc, stack, layers, id, Among::AllLayers)?;
    if !uses.has_asked(&look_up.rows) {
        return Ok(Some(left));
    }
    uses.raise_each(&look_up.rows);
    let raised = raise_loaded(alloc, stack, &look_up, members, RowUse::Loaded, left, uses)?;
    let Some(left) = raised else {
        return Ok(None);
    };
    if !look_up.has_overlay() {
        return Ok(Some(left));
    }
    raise_overlaid(alloc, stack, layers, id, members, left, uses)
}

// Raises the rows of bases that some member would load for an id if overlays did nothing.
fn raise_overlaid<'a>(
    alloc: Global,
    stack: &Stack<'a>,
    layers: &[LayerRows<'_, 'a>],
    id: ResId,
    members: &ConfigBox,
    left: usize,
    uses: &mut Uses,
) -> Result<Option<usize>, OutOfMemory>
    requires { layers_of layers.now ≡ stack.now }
    ensures keeps { IfOk result (λ found. IfSome found (λ _. KeepsReach (cells_of uses.old) (bare_more stack.now members.now id.0) (cells_of uses.new) no_more)) }
    ensures tree { IfOk result (Leaves (BareParted stack.now members.now id.0) (BareNeeded stack.now members.now id.0) left) }
{
    let look_up = LookUp::of(alloc, stack, layers, id, Among::BasesAlone)?;
    if !uses.has_open(&look_up.rows) {
        return Ok(Some(left));
    }
    raise_loaded(
        alloc,
        stack,
        &look_up,
        members,
        RowUse::Overlaid,
        left,
        uses,
    )
}
