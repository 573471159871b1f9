//! The entry offsets of a type: which entries it has, and where these stand.

ghost use Rattle.std.specs.Prelude.{◌≡◌, ◌+◌, ◌<◌, ◌≤◌, ◌^◌, true, IfSome, IfNone, IsTrue};
ghost use Rattle.type_entries.specs.TypeChunk.{type_chunk_of};
ghost use Rattle.type_entries.specs.EntryOffsets.{index_of, is_empty, offset_of, indexes_rise, position_of};
ghost use Rattle.type_entries.specs.Entries.{AreEmpty};

use crate::layout::{sparse_pair, type_header};
use crate::type_chunk::TypeChunk;
use string_pool::{u16_within, u32_within};

impl<'a> TypeChunk<'a> {
    /// Whether each index is greater than the one before.
    #[tactic(auto, using(crate::proofs::EntryOffsetSteps::rise_steps))]
    pub(crate) fn indexes_rise(&self) -> bool
        ensures { result ≡ indexes_rise (type_chunk_of self.now) }
    {
        if !self.is_sparse {
            return true;
        }
        let with_next = self.offset_count.saturating_sub(1);
        for position in 0..with_next {
            if self.index(position) >= self.index(position + 1) {
                return false;
            }
        }
        true
    }

    /// The position of an index, where there is one. In a sparse type it is found by halving.
    pub(crate) fn position_of(&self, index: u32) -> Option<u32>
        requires { indexes_rise (type_chunk_of self.now) ≡ true }
        ensures position { result ≡ position_of (type_chunk_of self.now) index }
        ensures within { IfSome result (λ position. position < self.now.offset_count) }
    {
        if self.is_sparse {
            self.sparse_position_of(index)
        } else if index < self.offset_count {
            Some(index)
        } else {
            None
        }
    }

    fn sparse_position_of(&self, index: u32) -> Option<u32>
        requires { indexes_rise (type_chunk_of self.now) ≡ true }
        ensures position { result ≡ position_of (type_chunk_of self.now) index }
        ensures within { IfSome result (λ position. position < self.now.offset_count) }
    {
        let mut from = 0;
        let mut behind = self.offset_count;
        while from < behind {
            let middle = from + (behind - from) / 2;
            let found = self.index(middle);
            if found == index {
                return Some(middle);
            }
            if found < index {
                from = middle + 1;
            } else {
                behind = middle;
            }
        }
        None
    }

    /// The first position from `from` on that has an entry. Tables are mostly empty, so long runs of positions
    /// without entries are passed over eight at a time.
    pub(crate) fn next_entry(&self, from: u32) -> Option<u32>
        ensures found { IfSome result (λ position. (from ≤ position) × (position < self.now.offset_count) × AreEmpty (type_chunk_of self.now) from position) }
        ensures none { IfNone result (AreEmpty (type_chunk_of self.now) from self.now.offset_count) }
    {
        let mut position = from;
        while position < self.offset_count {
            if !self.is_empty(position) {
                return Some(position);
            }
            position = self.behind_empty_eights(position + 1);
        }
        None
    }

    // Passes over positions without entries, as long as eight stand side by side.
    fn behind_empty_eights(&self, from: u32) -> u32
        ensures behind { from ≤ result }
        ensures passed { AreEmpty (type_chunk_of self.now) from result }
    {
        let mut position = from;
        while position < self.offset_count
            && self.offset_count - position >= 8
            && self.are_eight_empty(position)
        {
            position += 8;
        }
        position
    }

    // Whether eight positions side by side have no entries. All are read, without a branch between them.
    fn are_eight_empty(&self, position: u32) -> bool
        requires { position + 8 ≤ self.now.offset_count }
        ensures { IsTrue result → AreEmpty (type_chunk_of self.now) position (position + 8) }
    {
        self.are_four_empty(position) & self.are_four_empty(position + 4)
    }

    fn are_four_empty(&self, position: u32) -> bool
        requires { position + 4 ≤ self.now.offset_count }
        ensures { IsTrue result → AreEmpty (type_chunk_of self.now) position (position + 4) }
    {
        self.are_two_empty(position) & self.are_two_empty(position + 2)
    }

    fn are_two_empty(&self, position: u32) -> bool
        requires { position + 2 ≤ self.now.offset_count }
        ensures { IsTrue result → AreEmpty (type_chunk_of self.now) position (position + 2) }
    {
        self.is_empty(position) & self.is_empty(position + 1)
    }

    /// Whether a position has no entry.
    #[tactic(auto, unfolding(crate::specs::EntryOffsets::is_empty))]
    pub(crate) fn is_empty(&self, position: u32) -> bool
        requires { position < self.now.offset_count }
        ensures { result ≡ is_empty (type_chunk_of self.now) position }
    {
        let at = type_header::ENTRY_OFFSET_SIZE * position as usize;
        !self.is_sparse && u32_within(self.offsets, at) == type_header::NO_ENTRY
    }

    /// The index of the entry at a position.
    #[tactic(auto, unfolding(crate::specs::EntryOffsets::index_of))]
    pub(crate) fn index(&self, position: u32) -> u32
        requires { position < self.now.offset_count }
        ensures { result ≡ index_of (type_chunk_of self.now) position }
    {
        if !self.is_sparse {
            return position;
        }
        let at = type_header::ENTRY_OFFSET_SIZE * position as usize;
        u32::from(u16_within(self.offsets, at + sparse_pair::INDEX))
    }

    /// Where the entry at a position stands, from the chunk's start.
    #[tactic(auto, unfolding(crate::specs::EntryOffsets::offset_of))]
    pub(crate) fn entry_place(&self, position: u32) -> usize
        requires { position < self.now.offset_count }
        ensures place { result ≡ self.now.entries_start + offset_of (type_chunk_of self.now) position }
        ensures near { result < 2 ^ 33 }
    {
        let at = type_header::ENTRY_OFFSET_SIZE * position as usize;
        let offset = if self.is_sparse {
            sparse_pair::WORD_SIZE * u16_within(self.offsets, at + sparse_pair::OFFSET) as usize
        } else {
            u32_within(self.offsets, at) as usize
        };
        self.entries_start as usize + offset
    }
}
