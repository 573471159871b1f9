//! Where the rows of each id stand in a table.

ghost use Rattle.std.specs.Prelude.{◌≡◌, ◌==◌, ℕ, [], ◌∷◌, ◌++◌, OnOk, if◌then◌else◌};
ghost use Rattle.stack_diff.specs.PlacesSeen.{places_at, ListsIds};

use reference_resolver::ResId;
use std::alloc::{AllocError, Global};
use std::collections::BTreeMap;

/// The places of rows by the numbers of their ids.
#[derive(Drop)]
pub(crate) struct Places {
    by_id: BTreeMap<u32, Vec<usize>>,
    /// The ids that have places, each once.
    pub ids: Vec<ResId>,
}

impl Places {
    /// No places.
    pub fn new(alloc: Global) -> Places
        ensures none { (id : ℕ) → places_at result id ≡ [] }
        ensures ids { ListsIds result }
    {
        Places {
            by_id: BTreeMap::new(alloc),
            ids: Vec::new(alloc),
        }
    }

    /// Puts a place behind those of an id.
    pub fn push(&mut self, alloc: Global, id: ResId, place: usize) -> Result<(), AllocError>
        ensures put { OnOk result ((other : ℕ) → places_at self.new other ≡ (if id.0 == other then places_at self.old id.0 ++ place ∷ [] else places_at self.old other)) }
        ensures ids { OnOk result (ListsIds self.old → ListsIds self.new) }
    {
        if let Some(places) = self.by_id.get_mut(&id.0) {
            places.push(place)?;
            return Ok(());
        }
        let mut places = Vec::new(alloc);
        places.push(place)?;
        self.by_id.insert(id.0, places)?;
        self.ids.push(id)?;
        Ok(())
    }

    /// The places of an id.
    pub fn get(&self, id: ResId) -> &[usize]
        ensures { result.now ≡ places_at self.now id.0 }
    {
        match self.by_id.get(&id.0) {
            Some(places) => places,
            None => &[],
        }
    }
}
