//! What a chunk is, and what can be wrong with one.

ghost use Rattle.std.specs.Prelude.{◌≡◌, ◌+◌, ◌++◌, ◌^◌, ◌<◌, ◌≤◌, All, length};
ghost use Rattle.chunk_walk.specs.Layout.{least_header_size};

use crate::chunk_header::first_chunk;
use crate::chunks::Chunks;
use std::fmt::{self, Debug, Display, Formatter};
use thiserror::Error;

/// The bytes that each chunk begins with: a kind, the header's size, the chunk's size.
pub(crate) const LEAST_HEADER_SIZE: usize = 8;

/// Chunks, their bodies and entries start at multiples of so many bytes (AOSP: `validate_chunk`,
/// `ResTable::getEntry`).
pub const ALIGNMENT: usize = 4;

/// What is wrong with a chunk, and its place. Of several faults the first of this list is named.
#[derive(Clone, Copy, Error)]
pub enum ChunkFault {
    /// Fewer than eight bytes are left.
    #[error("Truncated {0}")]
    Truncated(usize),
    /// The header is shorter than it has to be.
    #[error("HeaderShort {0}")]
    HeaderShort(usize),
    /// The header is longer than the chunk.
    #[error("HeaderLong {0}")]
    HeaderLong(usize),
    /// The header's or the chunk's size is no multiple of four.
    #[error("Misaligned {0}")]
    Misaligned(usize),
    /// The chunk passes the end of what it stands in.
    #[error("Oversize {0}")]
    Oversize(usize),
}

/// By its text.
impl Debug for ChunkFault {
    fn fmt<W: fmt::Write>(&self, f: &mut Formatter<W>) -> fmt::Result {
        Display::fmt(self, f)
    }
}

/// A chunk (AOSP: `ResChunk_header` and what follows it), lent from the bytes of its file.
#[derive(Clone, Copy)]
pub struct Chunk<'a> {
    /// What the chunk is: a table, a package, a type .. (AOSP: `RES_TABLE_TYPE` and its like).
    pub kind: u16,
    /// Where the chunk begins, from the file's first byte.
    pub place: usize,
    /// The header, the eight bytes that each chunk begins with included.
    pub header: &'a [u8],
    /// What follows the header.
    pub body: &'a [u8],
    /// Header and body.
    pub whole: &'a [u8],
    ghost in_range: { place + length whole.now < 2 ^ 63 },
    ghost small: { length whole.now < 2 ^ 32 },
    ghost parts: { whole.now ≡ header.now ++ body.now },
    ghost has_header: { least_header_size ≤ length header.now },
}

impl<'a> Chunk<'a> {
    ghost use Rattle.chunk_walk.specs.Chunk.{chunk_of, chunk_within, seen};
    ghost use Rattle.chunk_walk.specs.Chunks.{children_of, StandsIn};

    /// The chunk at a place within this chunk, counted from this chunk's start.
    pub fn chunk_at(&self, at: usize) -> Result<Chunk<'a>, ChunkFault>
        requires { at ≤ length self.now.whole.now }
        ensures { seen result ≡ chunk_within (chunk_of self.now) at }
    {
        let (_, left) = self.whole.split_at(at);
        first_chunk(self.place + at, left, LEAST_HEADER_SIZE)
    }

    /// The chunks within this chunk, behind its header.
    pub fn children(&self) -> Chunks<'a>
        ensures chunks { result ≡ children_of (chunk_of self.now) }
        // So each can be found anew by `chunk_at`.
        ensures stand { All (StandsIn (chunk_of self.now)) result }
        // A chunk has eight bytes at least.
        ensures few { length result < 2 ^ 29 }
    {
        Chunks {
            place: self.place + self.header.len(),
            left: self.body,
        }
    }
}
