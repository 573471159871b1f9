//! Types that are read anew, one after the other.

ghost use Rattle.std.specs.Prelude.{◌≡◌, ◌≤◌, Ok, IsOk, length};
ghost use Rattle.std.specs.Slice.Iter.{iter_rest};
ghost use Rattle.string_pool.specs.chunk_walk.Chunk.{chunk_of, chunk_within};
ghost use Rattle.type_entries.specs.TypeSpec.{type_spec_of};
ghost use Rattle.type_entries.specs.TypeRows.{rows_of_type};
ghost use Rattle.type_chunks.specs.TypePlaces.{spec_at, IsKept, AreKept, rows_at};

use crate::type_place::TypePlace;
use std::marker::Model;
use std::slice::Iter;
use string_pool::Chunk;
use type_entries::{CheckedType, Owner, TypeChunk, TypeSpec};

/// The types of a package that are left, in the order of the file. Contracts see the rows of each.
#[derive(Drop)]
pub struct Types<'t, 'a> {
    owner: Owner,
    container: Chunk<'a>,
    places: Iter<'t, TypePlace>,
    ghost kept: { AreKept owner (chunk_of container) (iter_rest places) },
}

impl<'t, 'a> Model for Types<'t, 'a> {
    ghost use Rattle.std.specs.Prelude.{List, map};
    ghost use Rattle.std.specs.Slice.Iter.{iter_rest};
    ghost use Rattle.string_pool.specs.chunk_walk.Chunk.{chunk_of};
    ghost use Rattle.type_entries.specs.Row.{RowOf};
    ghost use Rattle.type_chunks.specs.TypePlaces.{rows_at};

    ghost Value = { List (List RowOf) };

    ghost view = { λ s. map (rows_at s.owner (chunk_of s.container)) (iter_rest s.places) };
}

impl<'t, 'a> Types<'t, 'a> {
    ghost use Rattle.std.specs.Prelude.{map};

    pub(crate) fn new(owner: Owner, container: Chunk<'a>, places: &'t [TypePlace]) -> Self
        requires { AreKept owner (chunk_of container) places.now }
        ensures { result ≡ map (rows_at owner (chunk_of container.entry)) places.now }
    {
        Types {
            owner,
            container,
            places: places.iter(),
        }
    }
}

impl<'t, 'a> Iterator for Types<'t, 'a> {
    ghost use Rattle.std.specs.Iterator.{YieldsFirstBy, item_count};

    type Item = CheckedType<'a>;

    ghost next_gives = { YieldsFirstBy rows_of_type (λ s. s) };

    ghost remaining = { item_count (λ s. s) };

    fn next(&mut self) -> Option<CheckedType<'a>> {
        let place = self.places.next()?;
        Some(type_anew(self.owner, &self.container, *place))
    }
}

// The type at a place of a package.
#[tactic(auto, using(crate::proofs::PlacesSteps::chunk_there, crate::proofs::PlacesSteps::spec_there), unfolding(crate::specs::TypePlaces::rows_at, type_entries::specs::TypeRows::rows_of_type))]
fn type_anew<'a>(owner: Owner, container: &Chunk<'a>, place: TypePlace) -> CheckedType<'a>
    requires { IsKept owner (chunk_of container.now) place }
    ensures { rows_of_type result ≡ rows_at owner (chunk_of container.now) place }
{
    let chunk = chunk_anew(container, place.chunk);
    let spec = spec_anew(container, place.spec);
    match TypeChunk::read(owner, Some(spec), &chunk) {
        Ok(chunk) => CheckedType { chunk },
        Err(_) => unreachable!(),
    }
}

fn spec_anew<'a>(container: &Chunk<'a>, at: u32) -> TypeSpec<'a>
    requires inside { at ≤ length container.now.whole.now }
    requires read { IsOk (spec_at (chunk_of container.now) at) }
    ensures { spec_at (chunk_of container.now) at ≡ Ok (type_spec_of result) }
{
    match TypeSpec::read(&chunk_anew(container, at)) {
        Ok(spec) => spec,
        Err(_) => unreachable!(),
    }
}

fn chunk_anew<'a>(container: &Chunk<'a>, at: u32) -> Chunk<'a>
    requires inside { at ≤ length container.now.whole.now }
    requires found { IsOk (chunk_within (chunk_of container.now) at) }
    ensures { chunk_within (chunk_of container.now) at ≡ Ok (chunk_of result) }
{
    match container.chunk_at(at as usize) {
        Ok(chunk) => chunk,
        Err(_) => unreachable!(),
    }
}
