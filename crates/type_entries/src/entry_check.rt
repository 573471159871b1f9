//! The check of entries of a type, which opening makes of each.

ghost use Rattle.std.specs.Prelude.{◌≡◌, ◌+◌, ◌<◌, ◌≤◌, ◌^◌, length};
ghost use Rattle.type_entries.specs.Layout.{least_bag, least_entry_size};

use crate::bag_checks::BagChecks;
use crate::entry_flags::EntryFlags;
use crate::fault::TableFault;
use crate::layout::{bag_header, entry_header};
use crate::type_chunk::TypeChunk;
use bitflags::Flags;
use res_value::{MapRows, MapRowsFault, Value};
use string_pool::{ALIGNMENT, u16_within, u32_within};

impl<'a> TypeChunk<'a> {
    ghost use Rattle.type_entries.specs.Checks.{Checks};
    ghost use Rattle.type_entries.specs.TypeChunk.{type_chunk_of};
    ghost use Rattle.type_entries.specs.Entry.{rows_of_entry_at, rows_of_entry, value_of_entry, bag_of_entry};

    /// The first fault of the entry at a position, where there is one.
    #[tactic(auto, unfolding(crate::specs::Entry::rows_of_entry))]
    pub(crate) fn check_entry(
        &self,
        bags: &mut BagChecks<'a>,
        position: u32,
    ) -> Result<(), TableFault>
        requires within { position < self.now.offset_count }
        requires bags { bags.old.whole.now ≡ self.now.whole.now }
        ensures same { bags.new.whole.now ≡ bags.old.whole.now }
        ensures checked { Checks result (rows_of_entry (type_chunk_of self.now) position) }
    {
        if self.is_empty(position) {
            return Ok(());
        }
        self.check_entry_at(bags, self.index(position), self.entry_place(position))
    }

    // The first fault of the entry at a place from the chunk's start.
    #[tactic(auto, unfolding(crate::specs::Entry::rows_of_entry_at))]
    fn check_entry_at(
        &self,
        bags: &mut BagChecks<'a>,
        index: u32,
        at: usize,
    ) -> Result<(), TableFault>
        requires near { at < 2 ^ 33 }
        requires bags { bags.old.whole.now ≡ self.now.whole.now }
        ensures same { bags.new.whole.now ≡ bags.old.whole.now }
        ensures checked { Checks result (rows_of_entry_at (type_chunk_of self.now) index at) }
    {
        let whole = self.whole;
        let fault = TableFault::Entry(self.place + at);
        if at % ALIGNMENT != 0 || whole.len() < at + entry_header::LEAST_SIZE {
            return Err(fault);
        }
        let size = u16_within(whole, at + entry_header::SIZE_FIELD) as usize;
        let flags = EntryFlags::from_bits_retain(u16_within(whole, at + entry_header::FLAGS));
        let is_complex = flags.is_complex();
        if size < least_entry_size(is_complex) || whole.len() < at + size {
            return Err(fault);
        }
        if is_complex {
            self.check_bag(bags, at, at + size)
        } else {
            self.check_value(at, at + size)
        }
    }

    // The first fault of the value of an entry; `behind` is the place behind the entry's size.
    #[tactic(auto, unfolding(crate::specs::Entry::value_of_entry))]
    fn check_value(&self, at: usize, behind: usize) -> Result<(), TableFault>
        requires fits { behind ≤ length self.now.whole.now }
        requires near { at < 2 ^ 33 }
        ensures { Checks result (value_of_entry (type_chunk_of self.now) at behind) }
    {
        if self.whole.len() < behind + Value::SIZE {
            return Err(TableFault::Entry(self.place + at));
        }
        match Value::read(&self.whole[behind..]) {
            Some(_) => Ok(()),
            None => Err(TableFault::Value(self.place + behind)),
        }
    }

    // The first fault of the bag of a complex entry.
    #[tactic(auto, unfolding(crate::specs::Entry::bag_of_entry))]
    fn check_bag(
        &self,
        bags: &mut BagChecks<'a>,
        at: usize,
        behind: usize,
    ) -> Result<(), TableFault>
        requires bags { bags.old.whole.now ≡ self.now.whole.now }
        requires fits { behind ≤ length self.now.whole.now }
        requires header { at + least_bag ≤ behind }
        ensures same { bags.new.whole.now ≡ bags.old.whole.now }
        ensures checked { Checks result (bag_of_entry (type_chunk_of self.now) at behind) }
    {
        let count = u32_within(self.whole, at + bag_header::COUNT);
        if bags.are_known(behind, count) {
            return Ok(());
        }
        match MapRows::read(count, &self.whole[behind..]) {
            Ok(_) => Ok(()),
            Err(MapRowsFault::Short) => Err(TableFault::Entry(self.place + at)),
            Err(MapRowsFault::ValueSize(index)) => {
                Err(TableFault::Value(self.place + (behind + MapRows::value_place(index))))
            }
        }
    }
}

// The least size of an entry: a complex one has two fields more.
fn least_entry_size(is_complex: bool) -> usize
    ensures { result ≡ least_entry_size is_complex }
{
    if is_complex {
        bag_header::LEAST_SIZE
    } else {
        entry_header::LEAST_SIZE
    }
}
