//! The types of a package.

ghost use Rattle.std.specs.Prelude.{◌≡◌, ◌+◌, ◌≤◌, ◌∷◌, length, List, Result, Ok, OnOk};
ghost use Rattle.string_pool.specs.chunk_walk.Chunk.{ChunkOf, chunk_of, seen};
ghost use Rattle.string_pool.specs.chunk_walk.Chunks.{StandsAt, StandsIn};
ghost use Rattle.string_pool.specs.chunk_walk.declared.chunk.ChunkFault.{ChunkFault};
ghost use Rattle.contract_words.specs.Exact.{GivesOr};
ghost use Rattle.contract_words.specs.Sequences.{Pushes};
ghost use Rattle.type_entries.specs.declared.fault.TableFault.TheVariants.{OutOfMemory};
ghost use Rattle.type_chunks.specs.Layout.{type_kind};
ghost use Rattle.type_chunks.specs.KnownSpecs.{Knows, SpecsStand};
ghost use Rattle.type_chunks.specs.PackageChildren.{rows_of_kept};
ghost use Rattle.type_chunks.specs.TypePlaces.{AreKept, rows_of_places};
ghost use Rattle.type_chunks.specs.PackageChildren.{rows_of_child, rows_of_children};

use crate::known_specs::KnownSpecs;
use crate::layout::kind;
use crate::package_types::PackageTypes;
use crate::type_place::TypePlace;
use std::alloc::Global;
use string_pool::{Chunk, ChunkFault};
use type_entries::{Owner, TableFault, TypeChunk, TypeSpec, check_entries};

/// The types among the chunks in a package, each of its entries checked.
#[tactic(auto, using(contract_words::proofs::SequenceSteps::knowing_steps))]
pub fn types_of_children<'a>(
    alloc: Global,
    owner: Owner,
    container: &Chunk<'a>,
) -> Result<PackageTypes<'a>, TableFault>
    ensures { GivesOr OutOfMemory rows_of_kept result (rows_of_children owner (chunk_of container.now)) }
{
    let mut places = Vec::new(alloc);
    let mut specs = KnownSpecs::new();
    for found in container.children() {
        push_child(alloc, owner, container, found, &mut specs, &mut places)?;
    }
    Ok(PackageTypes {
        owner,
        container: *container,
        places,
    })
}

// Pushes the place of a chunk in a package, where it is a type; `specs` has the type specs before it.
#[tactic(auto, unfolding(crate::specs::PackageChildren::rows_of_child))]
fn push_child<'a>(
    alloc: Global,
    owner: Owner,
    container: &Chunk<'a>,
    found: Result<Chunk<'a>, ChunkFault>,
    specs: &mut KnownSpecs<'a>,
    places: &mut Vec<TypePlace>,
) -> Result<(), TableFault>
    requires stands { StandsIn (chunk_of container.now) (seen found) }
    requires specs { SpecsStand (chunk_of container.now) specs.old }
    requires kept { AreKept owner (chunk_of container.now) places.old.items }
    ensures known { (before : List (Result ChunkOf ChunkFault)) → Knows specs.old before
        → OnOk result (Knows specs.new (seen found.entry ∷ before)) }
    ensures specs { OnOk result (SpecsStand (chunk_of container.now) specs.new) }
    ensures kept { OnOk result (AreKept owner (chunk_of container.now) places.new.items) }
    ensures one { length places.new.items ≤ length places.old.items + 1 }
    ensures rows { (before : List (Result ChunkOf ChunkFault)) → Knows specs.old before
        → Pushes OutOfMemory (rows_of_places owner (chunk_of container.now) places.old.items) (rows_of_places owner (chunk_of container.now) places.new.items)
        result (rows_of_child owner (before, seen found.entry)) }
{
    let chunk = found?;
    match chunk.kind {
        kind::TYPE_SPEC => {
            specs.keep(TypeSpec::read(&chunk)?);
            Ok(())
        }
        kind::TYPE => push_type(alloc, owner, container, &chunk, specs, places),
        _ => Ok(()),
    }
}

// Pushes the place of a type, each entry of which is checked first.
#[tactic(auto, unfolding(crate::specs::PackageChildren::rows_of_child))]
fn push_type<'a>(
    alloc: Global,
    owner: Owner,
    container: &Chunk<'a>,
    chunk: &Chunk<'a>,
    specs: &KnownSpecs<'a>,
    places: &mut Vec<TypePlace>,
) -> Result<(), TableFault>
    requires kind { chunk.now.kind ≡ type_kind }
    requires stands { StandsAt (chunk_of container.now) (chunk_of chunk.now) }
    requires specs { SpecsStand (chunk_of container.now) specs.now }
    requires kept { AreKept owner (chunk_of container.now) places.old.items }
    ensures kept { OnOk result (AreKept owner (chunk_of container.now) places.new.items) }
    ensures one { length places.new.items ≤ length places.old.items + 1 }
    ensures rows { (before : List (Result ChunkOf ChunkFault)) → Knows specs.now before
        → Pushes OutOfMemory (rows_of_places owner (chunk_of container.now) places.old.items) (rows_of_places owner (chunk_of container.now) places.new.items)
        result (rows_of_child owner (before, Ok (chunk_of chunk.now))) }
{
    let read = TypeChunk::read(owner, specs.of_type(chunk), chunk)?;
    check_entries(alloc, &read)?;
    places.push(TypePlace::of(container, chunk, &read.spec))?;
    Ok(())
}
