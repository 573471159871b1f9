//! Chunks one after the other.

ghost use Rattle.std.specs.Prelude.{◌≡◌, drop};
ghost use Rattle.chunk_walk.specs.Chunks.{chunks_of};

use crate::chunk::{Chunk, ChunkFault, LEAST_HEADER_SIZE};
use crate::chunk_header::first_chunk;
use std::marker::Model;

/// Walks chunks, one behind the other. A chunk that is wrong comes as its fault, and is the last;
/// seven bytes or fewer at the end are passed over.
#[derive(Drop)]
pub struct Chunks<'a> {
    /// The place of what is left, from the file's first byte.
    pub(crate) place: usize,
    pub(crate) left: &'a [u8],
}

impl<'a> Model for Chunks<'a> {
    ghost use Rattle.std.specs.Prelude.{List, Result, ◌+◌, ◌^◌, ◌<◌, length};
    ghost use Rattle.chunk_walk.specs.Chunk.{ChunkOf};
    ghost use Rattle.chunk_walk.specs.declared.chunk.ChunkFault.{ChunkFault};

    ghost Value = { List (Result ChunkOf ChunkFault) };

    ghost use Rattle.chunk_walk.specs.Chunks.{chunks_of};

    ghost view = { λ s. chunks_of s.place s.left.now };

    ghost invariant = { λ s. s.place + length s.left.now < 2 ^ 63 };
}

impl<'a> Chunks<'a> {
    /// The chunks from a place to the end of the bytes: for chunks that stand in no other, as those of a whole
    /// file. Those within a chunk are its `children`.
    ///
    /// ```text
    /// for chunk in Chunks::new(file, 0) {
    ///     println!(rt; "{:#06x}", chunk?.kind)?;
    /// }
    /// ```
    #[tactic(auto, using(crate::proofs::ChunksSteps::chunks_steps))]
    pub fn new(bytes: &'a [u8], from: usize) -> Self
        ensures { result ≡ chunks_of from (drop from bytes.now) }
    {
        match bytes.get(from..) {
            Some(left) => Chunks { place: from, left },
            // No chunk follows, so no one sees the place.
            None => Chunks {
                place: 0,
                left: &bytes[..0],
            },
        }
    }
}

impl<'a> Iterator for Chunks<'a> {
    ghost use Rattle.std.specs.Iterator.{YieldsFirstBy, item_count};
    ghost use Rattle.chunk_walk.specs.Chunk.{seen};

    type Item = Result<Chunk<'a>, ChunkFault>;

    ghost next_gives = { YieldsFirstBy seen (λ s. s) };

    ghost remaining = { item_count (λ s. s) };

    #[tactic(auto, using(crate::proofs::ChunksSteps::chunks_steps))]
    fn next(&mut self) -> Option<Result<Chunk<'a>, ChunkFault>> {
        if self.left.len() < LEAST_HEADER_SIZE {
            return None;
        }
        match first_chunk(self.place, self.left, LEAST_HEADER_SIZE) {
            Ok(chunk) => {
                let (_, behind) = self.left.split_at(chunk.whole.len());
                self.place += chunk.whole.len();
                self.left = behind;
                Some(Ok(chunk))
            }
            Err(fault) => {
                self.left = &self.left[..0];
                Some(Err(fault))
            }
        }
    }
}
