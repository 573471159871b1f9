//! Where the names of an entry stand.

ghost use Rattle.std.specs.Prelude.{◌≡◌, ℕ, List, [], ◌∷◌, ◌++◌, OnOk, if◌then◌else◌};
ghost use Rattle.std.specs.Str.{bytes_eq};
ghost use Rattle.names.specs.Places.{places_at};

use std::alloc::{AllocError, Global};
use std::collections::BTreeMap;

/// The places of some names, by the bytes of their entries' names.
#[derive(Drop)]
pub(crate) struct Places<'n> {
    by_entry: BTreeMap<&'n [u8], Vec<usize>>,
}

impl<'n> Places<'n> {
    /// No places.
    pub fn new(alloc: Global) -> Places<'n>
        ensures { (bytes : List ℕ) → places_at result bytes ≡ [] }
    {
        Places {
            by_entry: BTreeMap::new(alloc),
        }
    }

    /// Puts a place behind those of an entry's name.
    pub fn push(&mut self, alloc: Global, entry: &'n [u8], place: usize) -> Result<(), AllocError>
        ensures { OnOk result ((bytes : List ℕ) → places_at self.new bytes ≡ (if bytes_eq entry.now bytes then places_at self.old entry.now ++ place ∷ [] else places_at self.old bytes)) }
    {
        let places = self.by_entry.entry(entry)?.or_insert(Vec::new(alloc));
        places.push(place)?;
        Ok(())
    }

    /// The places of an entry's name.
    pub fn get(&self, entry: &[u8]) -> &[usize]
        ensures { result.now ≡ places_at self.now entry.now }
    {
        match self.by_entry.get(entry) {
            Some(places) => places,
            None => &[],
        }
    }
}
