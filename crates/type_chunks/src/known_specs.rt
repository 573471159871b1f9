//! The last type spec of each id, on the way through a package.

ghost use Rattle.std.specs.Prelude.{◌≡◌, ℕ, ◌<◌, [], Some, slice_index, if◌then◌else◌, ◌==◌};
ghost use Rattle.string_pool.specs.chunk_walk.Chunk.{ChunkOf};

use string_pool::Chunk;
use type_entries::{TypeSpec, type_header};

/// A place for each id that a type can have.
const IDS: usize = 256;

/// The last type spec of each id so far.
#[derive(Drop)]
pub(crate) struct KnownSpecs<'a> {
    by_id: [Option<TypeSpec<'a>>; IDS],
}

impl<'a> KnownSpecs<'a> {
    ghost use Rattle.type_entries.specs.TypeSpec.{type_spec_of};
    ghost use Rattle.type_chunks.specs.KnownSpecs.{kept_for, kept_spec, Knows, SpecsStand};

    pub fn new() -> Self
        ensures known { Knows result [] }
        ensures stand { (container : ChunkOf) → SpecsStand container result }
    {
        let by_id = [None; IDS];
        KnownSpecs { by_id }
    }

    /// The type spec that a type belongs to: the last one of its id.
    pub fn of_type(&self, chunk: &Chunk<'a>) -> Option<TypeSpec<'a>>
        ensures within { slice_index chunk.now.header.now 8 < 256 }
        ensures value { result ≡ kept_for self.now (slice_index chunk.now.header.now 8) }
    {
        let id = chunk.header.get(type_header::ID).copied().unwrap_or(0);
        let by_id = &self.by_id[..];
        by_id[id as usize]
    }

    /// Keeps a type spec in place of an earlier one of its id.
    pub fn keep(&mut self, spec: TypeSpec<'a>)
        ensures value { (id : ℕ) → kept_for self.new id ≡ (if spec.entry.id == id then Some spec.entry else kept_for self.old id) }
        ensures seen { (id : ℕ) → kept_spec self.new id ≡ (if spec.entry.id == id then Some (type_spec_of spec.entry) else kept_spec self.old id) }
    {
        let by_id = &mut self.by_id[..];
        by_id[spec.id as usize] = Some(spec);
    }
}
