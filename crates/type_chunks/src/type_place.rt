//! Where types stand.

ghost use Rattle.std.specs.Prelude.{◌≡◌, ◌≤◌, Ok, length};

use string_pool::Chunk;
use type_entries::TypeSpec;

/// Where a type and its type spec stand in their package, from its start. That is all that is kept of a type: what
/// its header says is read anew.
#[derive(Clone, Copy)]
pub(crate) struct TypePlace {
    pub chunk: u32,
    pub spec: u32,
}

impl TypePlace {
    ghost use Rattle.string_pool.specs.chunk_walk.Chunk.{chunk_of, chunk_within};
    ghost use Rattle.string_pool.specs.chunk_walk.Chunks.{StandsAt};
    ghost use Rattle.type_entries.specs.TypeSpec.{type_spec_of};
    ghost use Rattle.type_chunks.specs.TypePlaces.{spec_at, SpecStands};

    /// The place of a type of a type spec, which both stand in a package.
    pub fn of(container: &Chunk<'_>, chunk: &Chunk<'_>, spec: &TypeSpec<'_>) -> TypePlace
        requires chunk { StandsAt (chunk_of container.now) (chunk_of chunk.now) }
        requires spec { SpecStands (chunk_of container.now) spec.now }
        ensures chunk_inside { result.chunk ≤ length container.now.whole.now }
        ensures spec_inside { result.spec ≤ length container.now.whole.now }
        ensures chunk { chunk_within (chunk_of container.now) result.chunk ≡ Ok (chunk_of chunk.now) }
        ensures spec { spec_at (chunk_of container.now) result.spec ≡ Ok (type_spec_of spec.now) }
    {
        TypePlace {
            chunk: (chunk.place - container.place) as u32,
            spec: (spec.place - container.place) as u32,
        }
    }
}
