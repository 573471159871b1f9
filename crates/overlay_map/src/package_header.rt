//! The headers of packages, and what they say of names.

ghost use Rattle.std.specs.Prelude.{◌≡◌, ◌≤◌, length};
ghost use Rattle.type_chunks.specs.chunk_walk.Chunk.{chunk_of};
ghost use Rattle.type_chunks.specs.string_pool.Text.{text_of};
ghost use Rattle.overlay_map.specs.Layout.{least_package_header};
ghost use Rattle.overlay_map.specs.Package.{before_zero, name_in, names_at, names_in, type_id_offset_in};
ghost use Rattle.overlay_map.specs.Units.{has_unit};
ghost use Rattle.overlay_map.specs.TablePools.{seen_table_pool};

use crate::layout::{kind, package_header as header};
use crate::pool::open_pool;
use string_pool::u32_within;
use type_chunks::{ALIGNMENT, Chunk, ChunkFault, Pool, TableFault, Text};

/// The header of a package, and the names that it leads to.
#[derive(Clone, Copy)]
pub(crate) struct PackageHeader<'a> {
    pub id: u8,
    pub name: Text<'a>,
    pub type_names: Pool<'a>,
    pub key_names: Pool<'a>,
    pub type_id_offset: u32,
}

impl<'a> PackageHeader<'a> {
    ghost use Rattle.overlay_map.specs.Package.{seen_header, package_header_in};

    /// Reads the header of a package from its chunk.
    #[tactic(auto, unfolding(crate::specs::Package::package_header_in))]
    pub fn read(chunk: &Chunk<'a>) -> Result<PackageHeader<'a>, TableFault>
        ensures { seen_header result ≡ package_header_in (chunk_of chunk.now) }
    {
        if chunk.header.len() < header::LEAST_SIZE {
            return Err(TableFault::Chunk(ChunkFault::HeaderShort(chunk.place)));
        }
        let id = u32_within(chunk.header, header::ID);
        if id == 0 || id > header::GREATEST_ID {
            return Err(TableFault::PackageId(chunk.place));
        }
        let type_names = open_names(chunk, u32_within(chunk.header, header::TYPE_NAMES))?;
        let key_names = open_names(chunk, u32_within(chunk.header, header::KEY_NAMES))?;
        Ok(PackageHeader {
            id: id as u8,
            name: name_within(chunk),
            type_names,
            key_names,
            type_id_offset: type_id_offset(chunk),
        })
    }
}

// The name of a package whose header is not too short.
fn name_within<'a>(chunk: &Chunk<'a>) -> Text<'a>
    requires { least_package_header ≤ length chunk.now.header.now }
    ensures { text_of result ≡ name_in (chunk_of chunk.now) }
{
    let (_, from_name) = chunk.header.split_at(header::NAME);
    let (name, _) = from_name.split_at(header::NAME_SIZE);
    Text::Utf16(before_zero(name))
}

// Whether a unit that is not zero stands in front.
#[tactic(auto, using(crate::proofs::ZeroSteps::unit_steps))]
fn has_unit(units: &[u8]) -> bool
    ensures { result ≡ has_unit units.now }
{
    units.len() >= header::UNIT_SIZE && (units[0] != 0 || units[1] != 0)
}

// The units up to the first that is zero.
fn before_zero(units: &[u8]) -> &[u8]
    ensures { result.now ≡ before_zero units.now }
{
    let mut size = 0;
    let mut left = units;
    while has_unit(left) {
        let (_, others) = left.split_at(header::UNIT_SIZE);
        left = others;
        size += header::UNIT_SIZE;
    }
    &units[..size]
}

// How far the ids of types stand above their indexes among the names (AOSP:
// `ResTable_package::typeIdOffset`).
fn type_id_offset(chunk: &Chunk<'_>) -> u32
    ensures { result ≡ type_id_offset_in (chunk_of chunk.now) }
{
    if chunk.header.len() == header::SIZE_WITH_OFFSET {
        u32_within(chunk.header, header::TYPE_ID_OFFSET)
    } else {
        0
    }
}

// The names that stand at a place of a package.
fn open_names<'a>(chunk: &Chunk<'a>, at: u32) -> Result<Pool<'a>, TableFault>
    ensures { seen_table_pool result ≡ names_in (chunk_of chunk.now) at }
{
    match at {
        0 => Ok(Pool::empty()),
        _ => open_names_at(chunk, at as usize),
    }
}

#[tactic(auto, unfolding(crate::specs::Package::names_at))]
fn open_names_at<'a>(chunk: &Chunk<'a>, at: usize) -> Result<Pool<'a>, TableFault>
    ensures { seen_table_pool result ≡ names_at (chunk_of chunk.now) at }
{
    if at % ALIGNMENT != 0 || at < chunk.header.len() || at >= chunk.whole.len() {
        return Err(TableFault::PackageHeader(chunk.place));
    }
    let names = chunk.chunk_at(at)?;
    if names.kind != kind::POOL {
        return Err(TableFault::PackageHeader(chunk.place));
    }
    open_pool(&names)
}
