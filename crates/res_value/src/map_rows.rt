//! The rows of a bag.

ghost use Rattle.std.specs.Prelude.{◌≡◌, ◌==◌, ◌+◌, ◌*◌, ◌≤◌, length, find};
ghost use Rattle.std.specs.List.{range_with_len};
ghost use Rattle.res_value.specs.Layout.{row_size};

use crate::res_id::ResId;
use crate::value::Value;
use chunk_walk::u32_within;
use std::fmt::{self, Debug, Display, Formatter};
use thiserror::Error;

/// How many bytes a row of a bag has.
pub const ROW_SIZE: usize = 12;

// Where the parts of a row stand.
const NAME: usize = 0;

const VALUE: usize = 4;

/// What is wrong with the rows of a bag. That they do not fit is named before a value's size.
#[derive(Clone, Copy, Error)]
pub enum MapRowsFault {
    /// There are fewer bytes than the rows have.
    #[error("Short")]
    Short,
    /// The row of this index, counted from 0, is the first whose value has another size than a value
    /// has.
    #[error("ValueSize {0}")]
    ValueSize(u32),
}

/// By its text.
impl Debug for MapRowsFault {
    fn fmt<W: fmt::Write>(&self, f: &mut Formatter<W>) -> fmt::Result {
        Display::fmt(self, f)
    }
}

/// The rows of a bag that are left (AOSP: `ResTable_map`), in the order of the file, each its name and
/// its value. They are lent from the bytes that they stand in.
#[derive(Clone, Copy)]
pub struct MapRows<'a> {
    count: u32,
    left: &'a [u8],
    ghost fits: { row_size * count ≤ length left.now },
}

impl<'a> MapRows<'a> {
    ghost use Rattle.std.specs.Prelude.{length};
    ghost use Rattle.res_value.specs.MapRows.{seen_rows, map_rows_in, map_rows_at, map_rows_of, value_place, has_wrong_size};

    /// So many rows at the front of some bytes.
    #[tactic(auto, unfolding(crate::specs::MapRows::map_rows_in))]
    pub fn read(count: u32, bytes: &'a [u8]) -> Result<MapRows<'a>, MapRowsFault>
        ensures { seen_rows result ≡ map_rows_in count bytes.now }
    {
        if bytes.len() < ROW_SIZE * count as usize {
            return Err(MapRowsFault::Short);
        }
        if let Some(index) = MapRows::first_wrong_size(count, bytes) {
            return Err(MapRowsFault::ValueSize(index));
        }
        Ok(MapRows { count, left: bytes })
    }

    /// The same rows, where it is known that they fit. The sizes of their values are not looked at: this is
    /// for rows that `read` has accepted before.
    pub fn within(count: u32, bytes: &'a [u8]) -> MapRows<'a>
        requires { row_size * count ≤ length bytes.now }
        ensures { map_rows_of result ≡ map_rows_at count bytes.now }
    {
        MapRows { count, left: bytes }
    }

    /// Where the value of a row stands, from the start of the rows.
    pub fn value_place(index: u32) -> usize
        ensures { result ≡ value_place index }
    {
        ROW_SIZE * index as usize + VALUE
    }

    /// How many rows are left.
    #[tactic(auto, using(crate::proofs::MapRowsSteps::map_rows_steps))]
    pub fn len(&self) -> usize
        ensures { result ≡ length (map_rows_of self.now) }
    {
        self.count as usize
    }

    /// Whether no row is left.
    #[tactic(auto, using(crate::proofs::MapRowsSteps::map_rows_steps))]
    pub fn is_empty(&self) -> bool
        ensures { result ≡ (length (map_rows_of self.now) == 0) }
    {
        self.count == 0
    }

    /// Whether the value of a row has another size than a value has.
    #[tactic(auto, unfolding(crate::specs::MapRows::has_wrong_size))]
    pub fn has_wrong_size(bytes: &[u8], index: u32) -> bool
        requires { row_size * index + row_size ≤ length bytes.now }
        ensures { result ≡ has_wrong_size bytes.now index }
    {
        Value::read(&bytes[MapRows::value_place(index)..]).is_none()
    }

    // The first row whose value has another size than a value has.
    #[tactic(auto, using(crate::proofs::MapRowsSteps::search_steps))]
    fn first_wrong_size(count: u32, bytes: &[u8]) -> Option<u32>
        requires { row_size * count ≤ length bytes.now }
        ensures { result ≡ find (has_wrong_size bytes.now) (range_with_len 0 count) }
    {
        for index in 0..count {
            if MapRows::has_wrong_size(bytes, index) {
                return Some(index);
            }
        }
        None
    }
}

impl<'a> Iterator for MapRows<'a> {
    ghost use Rattle.std.specs.Iterator.{YieldsFirstBy, item_count};
    ghost use Rattle.res_value.specs.MapRows.{map_rows_of};

    type Item = (ResId, Value);

    ghost next_gives = { YieldsFirstBy (λ row. (row.0, row.1)) map_rows_of };

    ghost remaining = { item_count map_rows_of };

    #[tactic(auto, using(crate::proofs::MapRowsSteps::map_rows_steps))]
    fn next(&mut self) -> Option<(ResId, Value)> {
        if self.count == 0 {
            return None;
        }
        let name = ResId(u32_within(self.left, NAME));
        let (_, behind_name) = self.left.split_at(VALUE);
        let value = Value::within(behind_name);
        let (_, behind) = self.left.split_at(ROW_SIZE);
        self.left = behind;
        self.count -= 1;
        Some((name, value))
    }
}
