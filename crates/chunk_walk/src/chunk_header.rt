//! The first eight bytes of a chunk, and the chunk that they spell at a place.

ghost use Rattle.std.specs.Prelude.{◌≡◌, ◌+◌, ◌^◌, ◌<◌, ◌≤◌, length, drop, IfOk};
ghost use Rattle.chunk_walk.specs.Layout.{least_header_size};
ghost use Rattle.chunk_walk.specs.Chunk.{seen, chunk_in};

use crate::chunk::{ALIGNMENT, Chunk, ChunkFault, LEAST_HEADER_SIZE};
use crate::number::{u16_within, u32_within};

// Where the numbers of a chunk's first eight bytes stand.
const KIND: usize = 0;

const HEADER_SIZE_FIELD: usize = 2;

const SIZE_FIELD: usize = 4;

/// The chunk at a place of the bytes (AOSP: `validate_chunk`), whose header has to have `min` bytes at least.
#[tactic(auto, unfolding(crate::specs::Chunk::chunk_in))]
pub fn chunk_at(bytes: &[u8], at: usize, min: usize) -> Result<Chunk<'_>, ChunkFault>
    requires { least_header_size ≤ min }
    ensures { seen result ≡ chunk_in at (drop at bytes.now) min }
{
    match bytes.get(at..) {
        Some(left) => first_chunk(at, left, min),
        None => Err(ChunkFault::Truncated(at)),
    }
}

/// The chunk at a place, from which on these bytes are left.
#[tactic(auto, unfolding(crate::specs::Chunk::chunk_in))]
pub(crate) fn first_chunk(place: usize, left: &[u8], min: usize) -> Result<Chunk<'_>, ChunkFault>
    requires wide { least_header_size ≤ min }
    requires in_range { place + length left.now < 2 ^ 63 }
    ensures chunk { seen result ≡ chunk_in place left.now min }
    ensures fits { IfOk result (λ chunk. length chunk.whole.now ≤ length left.now) }
{
    if left.len() < LEAST_HEADER_SIZE {
        return Err(ChunkFault::Truncated(place));
    }
    let header_size = u16_within(left, HEADER_SIZE_FIELD) as usize;
    let size = u32_within(left, SIZE_FIELD) as usize;
    if header_size < min {
        return Err(ChunkFault::HeaderShort(place));
    }
    if size < header_size {
        return Err(ChunkFault::HeaderLong(place));
    }
    if header_size % ALIGNMENT != 0 || size % ALIGNMENT != 0 {
        return Err(ChunkFault::Misaligned(place));
    }
    if left.len() < size {
        return Err(ChunkFault::Oversize(place));
    }
    let whole = &left[..size];
    Ok(Chunk {
        kind: u16_within(left, KIND),
        place,
        header: &whole[..header_size],
        body: &whole[header_size..],
        whole,
    })
}
