//! Type specs.

ghost use Rattle.std.specs.Prelude.{◌≡◌, ◌*◌, ◌<◌, ◌≤◌, IfOk, length};
ghost use Rattle.type_entries.specs.Layout.{entry_flags_size};

use crate::fault::TableFault;
use crate::layout::type_spec_header as header;
use string_pool::{Chunk, ChunkFault, u32_within};

/// A type spec whose header was checked and whose flags fit (AOSP: `ResTable_typeSpec`).
#[derive(Clone, Copy)]
pub struct TypeSpec<'a> {
    /// Where its chunk begins, from the file's first byte.
    pub place: usize,
    pub id: u8,
    pub entry_count: u32,
    /// Four bytes for each entry.
    pub flags: &'a [u8],
    ghost flags_fit: { entry_flags_size * entry_count ≤ length flags.now },
}

impl<'a> TypeSpec<'a> {
    ghost use Rattle.string_pool.specs.chunk_walk.Chunk.{chunk_of};
    ghost use Rattle.string_pool.specs.chunk_walk.Number.{number};
    ghost use Rattle.type_entries.specs.TypeSpec.{type_spec_of, seen_spec, type_spec_in};

    /// Reads a type spec from its chunk.
    #[tactic(auto, unfolding(crate::specs::TypeSpec::type_spec_in))]
    pub fn read(chunk: &Chunk<'a>) -> Result<TypeSpec<'a>, TableFault>
        ensures value { seen_spec result ≡ type_spec_in (chunk_of chunk.now) }
        ensures place { IfOk result (λ spec. spec.place ≡ chunk.now.place) }
    {
        if chunk.header.len() < header::LEAST_SIZE {
            return Err(TableFault::Chunk(ChunkFault::HeaderShort(chunk.place)));
        }
        let id = chunk.header[header::ID];
        if id == 0 {
            return Err(TableFault::TypeId(chunk.place));
        }
        let entry_count = u32_within(chunk.header, header::ENTRY_COUNT);
        if chunk.body.len() < header::FLAGS_SIZE * entry_count as usize {
            return Err(TableFault::Offsets(chunk.place));
        }
        Ok(TypeSpec {
            place: chunk.place,
            id,
            entry_count,
            flags: chunk.body,
        })
    }

    /// The flags of an entry.
    pub(crate) fn flags_of(&self, index: u32) -> u32
        requires { index < self.now.entry_count }
        ensures { result ≡ number 4 self.now.flags.now (entry_flags_size * index) }
    {
        u32_within(self.flags, header::FLAGS_SIZE * index as usize)
    }
}
