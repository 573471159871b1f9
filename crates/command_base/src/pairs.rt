//! The pairs of an id map, made from names.

ghost use Rattle.std.specs.Prelude.{◌≡◌, ◌++◌, length, map, IfOk, OnOk};
ghost use Rattle.std.specs.List.{flat_map};
ghost use Rattle.command_base.specs.overlay_map.IdMap.{pairs_of};
ghost use Rattle.command_base.specs.answer_text.overlay_map.Table.{rows_of};
ghost use Rattle.command_base.specs.answer_text.type_chunks.Row.{row_of};
ghost use Rattle.command_base.specs.names.Names.{name_of};
ghost use Rattle.command_base.specs.FirstRows.{first_rows};
ghost use Rattle.command_base.specs.MadeMap.{pairs_in, made_map};
ghost use Rattle.command_base.specs.NamedTarget.{named_in, named_seen, own_seen, pairs_with};

use crate::first_rows::FirstRows;
use answer_text::{ResId, Row, Table};
use names::{Name, find_names, name_text};
use std::alloc::{AllocError, Global};
use std::borrow::CowStr;
use std::slice;

/// The pairs of the id map of an overlay, in the order of the targets.
#[tactic(auto, unfolding(crate::specs::MadeMap::made_map))]
pub fn made_pairs(
    alloc: Global,
    target: &Table<'_>,
    overlay: &Table<'_>,
) -> Result<Vec<(ResId, ResId)>, AllocError>
    ensures { IfOk result (λ pairs. pairs_of pairs.items ≡ made_map target.now overlay.now) }
{
    match target.all_rows().next() {
        Some(first) => pairs_in(alloc, target, overlay, first.id.package()),
        None => Ok(Vec::new(alloc)),
    }
}

// The pairs of all ids of a package of the target. One walk over the overlay finds all names.
fn pairs_in(
    alloc: Global,
    target: &Table<'_>,
    overlay: &Table<'_>,
    package_id: u8,
) -> Result<Vec<(ResId, ResId)>, AllocError>
    ensures { IfOk result (λ pairs. pairs_of pairs.items ≡ pairs_in target.now overlay.now package_id) }
{
    let targets = named_targets(alloc, target, package_id)?;
    let names = names_of(alloc, &targets)?;
    let found = find_names(alloc, slice::from_ref(&overlay), &names)?;
    found_pairs(alloc, &targets, &found)
}

/// An id of the target, with the names of its first row.
#[derive(Drop)]
struct NamedTarget<'a> {
    id: ResId,
    type_name: CowStr<'a, Global>,
    entry_name: CowStr<'a, Global>,
}

// The ids of a package of the target, in their order. Those whose names are no text are left out.
fn named_targets<'a>(
    alloc: Global,
    target: &Table<'a>,
    package_id: u8,
) -> Result<Vec<NamedTarget<'a>>, AllocError>
    ensures { IfOk result (λ targets. map named_seen targets.items ≡ flat_map (named_in target.now package_id) (first_rows (rows_of target.now))) }
{
    let first = FirstRows::new(alloc, target)?;
    let rows = first.in_order(alloc)?;
    let mut targets = Vec::new(alloc);
    for row in &rows {
        push_named(alloc, target, package_id, row, &mut targets)?;
    }
    Ok(targets)
}

// Pushes the id of a row, if that is of this package and its names are text.
#[tactic(auto, unfolding(crate::specs::NamedTarget::named_in))]
fn push_named<'a>(
    alloc: Global,
    target: &Table<'a>,
    package_id: u8,
    row: &Row<'_>,
    targets: &mut Vec<NamedTarget<'a>>,
) -> Result<(), AllocError>
    ensures { OnOk result (map named_seen targets.new.items ≡ map named_seen targets.old.items ++ named_in target.now package_id (row_of row.now)) }
{
    if row.id.package() != package_id {
        return Ok(());
    }
    let Some(type_name) = name_text(alloc, target.type_name(row))? else {
        return Ok(());
    };
    let Some(entry_name) = name_text(alloc, target.key_name(row))? else {
        return Ok(());
    };
    let id = row.id;
    targets.push(NamedTarget {
        id,
        type_name,
        entry_name,
    })?;
    Ok(())
}

// The names, lent.
fn names_of<'n>(alloc: Global, targets: &'n [NamedTarget<'_>]) -> Result<Vec<Name<'n>>, AllocError>
    ensures { IfOk result (λ names. map name_of names.items ≡ map (λ named. (named_seen named).name) targets.now) }
{
    let mut names = Vec::with_capacity(alloc, targets.len())?;
    for named in targets {
        names.push(Name {
            type_name: named.type_name.as_str(),
            entry_name: named.entry_name.as_str(),
        })?;
    }
    Ok(names)
}

// The pairs of the targets for which an id of the overlay was found.
#[tactic(auto, using(crate::proofs::NamedSteps::found_steps))]
fn found_pairs(
    alloc: Global,
    targets: &[NamedTarget<'_>],
    found: &[Option<ResId>],
) -> Result<Vec<(ResId, ResId)>, AllocError>
    requires { length found.now ≡ length targets.now }
    ensures { IfOk result (λ pairs. pairs_of pairs.items ≡ pairs_with (map named_seen targets.now) (map own_seen found.now)) }
{
    let mut pairs = Vec::new(alloc);
    for (place, named) in targets.iter().enumerate() {
        if let Some(own) = found[place] {
            pairs.push((named.id, own))?;
        }
    }
    Ok(pairs)
}
