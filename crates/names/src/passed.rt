//! Which rows of a table were noted.

ghost use Rattle.std.specs.Prelude.{◌≡◌, ℕ, ◌==◌, true, OnOk, if◌then◌else◌, ◌⊎◌};
ghost use Rattle.overlay_map.specs.type_chunks.Row.{RowOf, row_of};
ghost use Rattle.names.specs.Passed.{was_passed, last_id, HaveSameNames};

use overlay_map::Row;
use std::alloc::{AllocError, Global};

/// The names of entries in a package, each with the id of the row that was noted last. A resource has one name and a row
/// for each configuration, so the first of its rows is enough.
#[derive(Drop)]
pub(crate) struct Passed {
    package_index: usize,
    /// By the key of an entry's name; 0 where no row was noted.
    ids: Vec<u32>,
}

impl Passed {
    /// No row was noted.
    pub fn new(alloc: Global) -> Passed
        ensures { (row : RowOf) → was_passed result row ≡ true → ⊥ }
    {
        Passed {
            package_index: 0,
            ids: Vec::new(alloc),
        }
    }

    /// Whether a row of the same id and the same names was noted.
    pub fn has(&self, row: &Row<'_>) -> bool
        ensures { result ≡ was_passed self.now (row_of row.now) }
    {
        row.id.0 != 0 && row.package == self.package_index && self.last_id(row.key) == row.id.0
    }

    /// Puts a row among those that were noted. It has a name of an entry, so its key is small.
    pub fn put(&mut self, row: &Row<'_>) -> Result<(), AllocError>
        ensures { OnOk result ((other : RowOf) → was_passed self.new other ≡ true → HaveSameNames (row_of row.now) other ⊎ (was_passed self.old other ≡ true)) }
    {
        self.enter(row.package);
        self.set_last_id(row.key, row.id.0)
    }

    fn last_id(&self, key: u32) -> u32
        ensures { result ≡ last_id self.now key }
    {
        match self.ids.get(key as usize) {
            Some(id) => *id,
            None => 0,
        }
    }

    // Forgets another package.
    fn enter(&mut self, index: usize)
        ensures here { self.new.package_index ≡ index }
        ensures kept { (key : ℕ) → last_id self.new key ≡ (if self.old.package_index == index then last_id self.old key else 0) }
    {
        if self.package_index != index {
            self.ids.clear();
            self.package_index = index;
        }
    }

    fn set_last_id(&mut self, key: u32, id: u32) -> Result<(), AllocError>
        ensures here { self.new.package_index ≡ self.old.package_index }
        ensures last { OnOk result ((other : ℕ) → last_id self.new other ≡ (if key == other then id else last_id self.old other)) }
    {
        let index = key as usize;
        if self.ids.len() <= index {
            self.ids.resize(index + 1, 0)?;
        }
        self.ids[index] = id;
        Ok(())
    }
}
