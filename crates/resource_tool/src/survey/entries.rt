//! The flags of entries.

ghost use Rattle.std.specs.Prelude.{◌≡◌, ◌*◌, ◌<◌, ◌≤◌, ◌^◌, IfSome, length};
ghost use Rattle.std.specs.List.{flat_map, range_with_len};
ghost use Rattle.chunk_walk.specs.Chunk.{chunk_of};
ghost use Rattle.resource_tool.specs.Findings.{noted};
ghost use Rattle.resource_tool.specs.Entries.{offset_at, entry_flags, notes_of_entry, notes_of_entries, is_compact, has_other_flags};

use crate::survey::finding::Finding;
use crate::survey::findings::Findings;
use crate::survey::layout::{entry, type_header};
use crate::survey::site::Site;
use crate::survey::types::{has_short_offsets, is_sparse};
use chunk_walk::{Chunk, u16_at, u32_at};

/// The offsets that say that there is no entry.
const NO_SHORT_OFFSET: u16 = 0xffff;

const NO_OFFSET: u32 = 0xffff_ffff;

/// An offset has so many bytes at least.
const LEAST_OFFSET_SIZE: usize = 2;

/// Short offsets and those of sparse types count so many bytes.
const WORD_SIZE: usize = 4;

// How many bytes behind the start of the entries the entry at a position stands.
#[tactic(auto, unfolding(crate::specs::Entries::offset_at))]
fn offset_at(chunk: &Chunk<'_>, position: u32) -> Option<usize>
    ensures offset { result ≡ offset_at (chunk_of chunk.now) position }
    ensures small { IfSome result (λ offset. offset < 2 ^ 32) }
{
    let position = position as usize;
    if is_sparse(chunk) {
        let offset = u16_at(chunk.body, 4 * position + 2)?;
        return Some(WORD_SIZE * offset as usize);
    }
    if has_short_offsets(chunk) {
        return match u16_at(chunk.body, 2 * position)? {
            NO_SHORT_OFFSET => None,
            offset => Some(WORD_SIZE * offset as usize),
        };
    }
    match u32_at(chunk.body, 4 * position)? {
        NO_OFFSET => None,
        offset => Some(offset as usize),
    }
}

// How many positions can have an entry: as many as the type claims, at most as many as its body has bytes for.
fn position_count(chunk: &Chunk<'_>) -> u32
    ensures within { 2 * result ≤ length chunk.now.body.now }
    // Behind them nothing is found.
    ensures all { notes_of_entries (chunk_of chunk.now) ≡ flat_map (notes_of_entry (chunk_of chunk.now)) (range_with_len 0 result) }
{
    let claimed = u32_at(chunk.header, type_header::OFFSET_COUNT).unwrap_or(0) as usize;
    claimed.min(chunk.body.len() / LEAST_OFFSET_SIZE) as u32
}

// The flags of the entry at a position, where there is one.
fn entry_flags(chunk: &Chunk<'_>, position: u32) -> Option<u16>
    ensures { result ≡ entry_flags (chunk_of chunk.now) position }
{
    let start = u32_at(chunk.header, type_header::ENTRIES_START)? as usize;
    let offset = offset_at(chunk, position)?;
    u16_at(chunk.whole, start + offset + entry::FLAGS)
}

fn is_compact(flags: u16) -> bool
    ensures { result ≡ is_compact flags }
{
    flags >> 3 & 1 == 1
}

// Of an entry that is not compact: whether there are flags behind those that are known.
fn has_other_flags(flags: u16) -> bool
    ensures { result ≡ has_other_flags flags }
{
    !is_compact(flags) && flags >> 4 != 0
}

impl Findings {
    /// Adds what the entries of a type have.
    #[tactic(auto, using(crate::proofs::FindingsSteps::noted_steps))]
    pub(crate) fn add_entries(&mut self, chunk: &Chunk<'_>)
        ensures { self.new ≡ noted self.old (notes_of_entries (chunk_of chunk.now)) }
    {
        let count = position_count(chunk);
        for position in 0..count {
            self.add_entry(chunk, position);
        }
    }

    #[tactic(auto, using(crate::proofs::FindingsSteps::noted_steps), unfolding(crate::specs::Entries::notes_of_entry))]
    fn add_entry(&mut self, chunk: &Chunk<'_>, position: u32)
        ensures { self.new ≡ noted self.old (notes_of_entry (chunk_of chunk.now) position) }
    {
        let Some(flags) = entry_flags(chunk, position) else {
            return;
        };
        self.note_if(
            is_compact(flags),
            Finding::CompactEntry,
            Site::Chunk(chunk.place),
        );
        self.note_if(
            has_other_flags(flags),
            Finding::EntryFlags,
            Site::Chunk(chunk.place),
        );
    }
}
