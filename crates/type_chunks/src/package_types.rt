//! The types of a package, kept by their places.

ghost use Rattle.std.specs.Prelude.{◌<◌, ◌^◌, length};
ghost use Rattle.string_pool.specs.chunk_walk.Chunk.{chunk_of};
ghost use Rattle.type_chunks.specs.TypePlaces.{AreKept};

use crate::type_place::TypePlace;
use crate::types::Types;
use string_pool::Chunk;
use type_entries::Owner;

/// The types of a package, each entry of which was checked. Of each the place alone is kept, so memory grows by
/// eight bytes with each.
#[derive(Drop)]
pub struct PackageTypes<'a> {
    pub(crate) owner: Owner,
    pub(crate) container: Chunk<'a>,
    pub(crate) places: Vec<TypePlace>,
    ghost few: { length places.items < 2 ^ 29 },
    ghost kept: { AreKept owner (chunk_of container) places.items },
}

impl<'a> PackageTypes<'a> {
    ghost use Rattle.std.specs.Prelude.{◌≡◌};
    ghost use Rattle.type_entries.specs.TypeRows.{rows_of_each};
    ghost use Rattle.type_chunks.specs.PackageChildren.{rows_of_kept};

    /// The types, read anew one after the other.
    #[tactic(auto, using(crate::proofs::PlacesSteps::rows_of_places_each))]
    pub fn types(&self) -> Types<'_, 'a>
        ensures { rows_of_each result ≡ rows_of_kept self.now }
    {
        Types::new(self.owner, self.container, &self.places)
    }
}
