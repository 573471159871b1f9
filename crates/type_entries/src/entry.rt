//! Entries of a type that were checked: each no row or one row.

ghost use Rattle.std.specs.Prelude.{◌≡◌, ◌+◌, ◌<◌, ◌≤◌, ◌^◌, length, IsOk, Ok};
ghost use Rattle.type_entries.specs.Layout.{least_bag};

use crate::checked_type::CheckedType;
use crate::entry_flags::EntryFlags;
use crate::layout::{bag_header, entry_header};
use crate::row::Row;
use crate::type_chunk::TypeChunk;
use bitflags::Flags;
use res_value::{Cell, MapRows, ResId, Value};
use string_pool::{u16_within, u32_within};

/// An id has room for the indexes below this.
const INDEXES: u32 = 0x1_0000;

impl<'a> TypeChunk<'a> {
    ghost use Rattle.type_entries.specs.TypeChunk.{type_chunk_of};
    ghost use Rattle.type_entries.specs.Entry.{rows_of_entry_at, rows_of_entry, value_of_entry, bag_of_entry, seen_entry, seen_cell};
    ghost use Rattle.type_entries.specs.Entries.{HasEntry, held_at};

    /// The row of the entry at a position, which has no fault, where there is one.
    #[tactic(auto, unfolding(crate::specs::Entry::rows_of_entry))]
    pub(crate) fn entry(&self, position: u32) -> Option<Row<'a>>
        requires within { position < self.now.offset_count }
        requires checked { IsOk (rows_of_entry (type_chunk_of self.now) position) }
        ensures { seen_entry (Ok result) ≡ rows_of_entry (type_chunk_of self.now) position }
    {
        if self.is_empty(position) {
            return None;
        }
        self.entry_at(self.index(position), self.entry_place(position))
    }

    // The row of the entry at a place from the chunk's start.
    #[tactic(auto, using(crate::proofs::EntrySteps::entry_steps))]
    fn entry_at(&self, index: u32, at: usize) -> Option<Row<'a>>
        requires near { at < 2 ^ 33 }
        requires checked { IsOk (rows_of_entry_at (type_chunk_of self.now) index at) }
        ensures { seen_entry (Ok result) ≡ rows_of_entry_at (type_chunk_of self.now) index at }
    {
        let cell = self.cell(at);
        if index >= self.spec.entry_count || index >= INDEXES {
            return None;
        }
        Some(Row {
            id: ResId::of(self.owner.id, self.id, index as u16),
            config: self.config,
            cell,
            flags: self.spec.flags_of(index),
            key: u32_within(self.whole, at + entry_header::KEY),
            package: self.owner.index,
        })
    }

    // What the entry at a place holds.
    #[tactic(auto, unfolding(crate::specs::Entries::held_at))]
    fn cell(&self, at: usize) -> Cell<'a>
        requires near { at < 2 ^ 33 }
        requires has { HasEntry (type_chunk_of self.now) at }
        ensures { seen_cell (Ok result) ≡ held_at (type_chunk_of self.now) at }
    {
        let behind = at + u16_within(self.whole, at + entry_header::SIZE_FIELD) as usize;
        let flags = EntryFlags::from_bits_retain(u16_within(self.whole, at + entry_header::FLAGS));
        if flags.is_complex() {
            self.bag(at, behind)
        } else {
            self.value(at, behind)
        }
    }

    // The value of an entry; `behind` is the place behind the entry's size.
    #[tactic(auto, unfolding(crate::specs::Entry::value_of_entry))]
    fn value(&self, at: usize, behind: usize) -> Cell<'a>
        requires fits { behind ≤ length self.now.whole.now }
        requires checked { IsOk (value_of_entry (type_chunk_of self.now) at behind) }
        ensures { seen_cell (Ok result) ≡ value_of_entry (type_chunk_of self.now) at behind }
    {
        match Value::read(&self.whole[behind..]) {
            Some(value) => Cell::Plain(value),
            None => unreachable!(),
        }
    }

    // The bag of a complex entry.
    #[tactic(auto, using(crate::proofs::EntrySteps::bag_steps))]
    fn bag(&self, at: usize, behind: usize) -> Cell<'a>
        requires fits { behind ≤ length self.now.whole.now }
        requires header { at + least_bag ≤ behind }
        requires checked { IsOk (bag_of_entry (type_chunk_of self.now) at behind) }
        ensures { seen_cell (Ok result) ≡ bag_of_entry (type_chunk_of self.now) at behind }
    {
        let parent = ResId(u32_within(self.whole, at + bag_header::PARENT));
        let count = u32_within(self.whole, at + bag_header::COUNT);
        let (_, bytes) = self.whole.split_at(behind);
        let rows = MapRows::within(count, bytes);
        Cell::Bag { parent, rows }
    }
}

impl<'a> CheckedType<'a> {
    ghost use Rattle.std.specs.Option.{option_to_list, option_map};
    ghost use Rattle.type_entries.specs.Row.{row_of};
    ghost use Rattle.type_entries.specs.TypeChunk.{type_chunk_of};
    ghost use Rattle.type_entries.specs.Entries.{row_at_position};
    ghost use Rattle.type_entries.specs.TypeRows.{row_at};

    /// The row of an index, where there is one. It is read anew each time, and found without a walk over the others.
    #[tactic(auto, unfolding(crate::specs::TypeRows::row_at))]
    pub fn row(&self, index: u32) -> Option<Row<'a>>
        ensures { option_map row_of result ≡ row_at self.now index }
    {
        match self.chunk.position_of(index) {
            Some(position) => self.row_at_position(position),
            None => None,
        }
    }

    // The row of the entry at a position, where there is one.
    #[tactic(auto, unfolding(crate::specs::Entries::row_at_position))]
    pub(crate) fn row_at_position(&self, position: u32) -> Option<Row<'a>>
        requires { position < self.now.chunk.offset_count }
        ensures { option_to_list (option_map row_of result) ≡ row_at_position (type_chunk_of self.now.chunk) position }
    {
        self.chunk.entry(position)
    }
}
