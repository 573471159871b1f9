//! Types: their headers. The entries in them are read in `entry.rt`.

ghost use Rattle.std.specs.Prelude.{◌≡◌, ◌+◌, ◌*◌, ◌<◌, ◌≤◌, ◌^◌, Some, IfOk, length};
ghost use Rattle.type_entries.specs.Layout.{entry_offset_size};

use crate::fault::TableFault;
use crate::layout::type_header as header;
use crate::owner::Owner;
use crate::type_flags::TypeFlags;
use crate::type_spec::TypeSpec;
use bitflags::Flags;
use config_record::Record;
use string_pool::{Chunk, ChunkFault, u32_within};

/// A type whose header was checked and whose entry offsets fit, with the type spec that it belongs to (AOSP:
/// `ResTable_type`).
#[derive(Clone, Copy)]
pub struct TypeChunk<'a> {
    pub owner: Owner,
    pub spec: TypeSpec<'a>,
    pub place: usize,
    pub id: u8,
    pub is_sparse: bool,
    /// How many entry offsets it has.
    pub offset_count: u32,
    pub entries_start: u32,
    pub config: Record<'a>,
    /// Four bytes for each entry offset.
    pub offsets: &'a [u8],
    pub whole: &'a [u8],
    ghost in_range: { place + length whole.now < 2 ^ 63 },
    ghost small: { length whole.now < 2 ^ 32 },
    ghost few: { offset_count < 2 ^ 32 },
    ghost offsets_fit: { entry_offset_size * offset_count ≤ length offsets.now },
}

impl<'a> TypeChunk<'a> {
    ghost use Rattle.std.specs.Option.{option_map};
    ghost use Rattle.string_pool.specs.chunk_walk.Chunk.{chunk_of};
    ghost use Rattle.type_entries.specs.TypeSpec.{type_spec_of};
    ghost use Rattle.type_entries.specs.TypeChunk.{seen_type, type_with};

    /// Reads a type from its chunk; `found` is the type spec that it belongs to.
    #[tactic(auto, unfolding(crate::specs::TypeChunk::type_with))]
    pub fn read(
        owner: Owner,
        found: Option<TypeSpec<'a>>,
        chunk: &Chunk<'a>,
    ) -> Result<TypeChunk<'a>, TableFault>
        ensures value { seen_type result ≡ type_with owner (option_map type_spec_of found.entry) (chunk_of chunk.now) }
        ensures spec { IfOk result (λ read. found.entry ≡ Some read.spec) }
    {
        if chunk.header.len() < header::LEAST_SIZE {
            return Err(TableFault::Chunk(ChunkFault::HeaderShort(chunk.place)));
        }
        let id = chunk.header[header::ID];
        if id == 0 {
            return Err(TableFault::TypeId(chunk.place));
        }
        let Some(spec) = found else {
            return Err(TableFault::TypeWithoutSpec(chunk.place));
        };
        let Ok(config) = Record::read(&chunk.header[header::CONFIG..]) else {
            return Err(TableFault::Config(chunk.place));
        };
        let offset_count = u32_within(chunk.header, header::OFFSET_COUNT);
        if chunk.body.len() < header::ENTRY_OFFSET_SIZE * offset_count as usize {
            return Err(TableFault::Offsets(chunk.place));
        }
        let flags = TypeFlags::from_bits_retain(chunk.header[header::FLAGS]);
        Ok(TypeChunk {
            owner,
            spec,
            place: chunk.place,
            id,
            is_sparse: flags.is_sparse(),
            offset_count,
            entries_start: u32_within(chunk.header, header::ENTRIES_START),
            config,
            offsets: chunk.body,
            whole: chunk.whole,
        })
    }
}
