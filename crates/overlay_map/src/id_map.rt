//! Id maps.

ghost use Rattle.std.specs.Prelude.{◌≡◌, map, IfOk};
ghost use Rattle.std.specs.Option.{option_map};
ghost use Rattle.contract_words.specs.Exact.{GivesOr};
ghost use Rattle.indexmap.specs.IndexMap.{hasher_of};
ghost use Rattle.overlay_map.specs.ContentKeys.{keys_of};
ghost use Rattle.overlay_map.specs.IdMap.{targets_of, targets_in, look_of, map_in};
ghost use Rattle.overlay_map.specs.declared.map_fault.MapFault.TheVariants.{OutOfMemory};

use crate::checked_pairs::{keys_of_targets, put_pairs};
use crate::content_keys::ContentKeys;
use crate::map_fault::MapFault;
use crate::pairs::pairs_of_text;
use indexmap::IndexMap;
use std::alloc::{AllocError, Global};
use std::marker::Model;
use type_chunks::ResId;

/// Which id of an overlay stands for which id of the stack (AOSP: `IdmapEntries`). Contracts see it as
/// its pairs, in the order of its text.
#[derive(Drop)]
pub struct IdMap {
    /// The own id of each target. The keys of its hashes are made of all targets, so no map can choose targets that
    /// make it slow.
    pairs: IndexMap<ResId, ResId, ContentKeys>,
    ghost keyed: { hasher_of pairs ≡ keys_of (targets_of pairs.entries) },
}

impl Model for IdMap {
    ghost use Rattle.overlay_map.specs.IdMap.{MapOf, pairs_of};

    ghost Value = { MapOf };

    ghost view = { λ map. pairs_of map.pairs.entries };
}

impl IdMap {
    /// The id map of a JSON text: a list of pairs, each a target and the overlay's id that stands for it.
    pub fn read(alloc: Global, json: &[u8]) -> Result<IdMap, MapFault>
        ensures { GivesOr OutOfMemory (λ map. map) result (map_in json.now) }
    {
        let list = pairs_of_text(alloc, json)?;
        let keys = keys_of_targets(&list);
        let mut pairs = IndexMap::with_capacity_and_hasher(alloc, list.len(), keys)?;
        put_pairs(&list, &mut pairs)?;
        Ok(IdMap { pairs })
    }

    /// The targets, in the order of its text.
    pub fn targets(&self, alloc: Global) -> Result<Vec<ResId>, AllocError>
        ensures { IfOk result (λ targets. map (λ target. target.0) targets.items ≡ targets_in self.now) }
    {
        let mut targets = Vec::new(alloc);
        for target in self.pairs.keys() {
            targets.push(*target)?;
        }
        Ok(targets)
    }

    /// The overlay's id that stands for a target.
    pub fn look(&self, id: ResId) -> Option<ResId>
        ensures { option_map (λ own. own.0) result ≡ look_of self.now id.0 }
    {
        self.pairs.get(&id).copied()
    }
}
