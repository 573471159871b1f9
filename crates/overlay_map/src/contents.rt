//! What keys are made of.

ghost use Rattle.std.specs.Prelude.{◌≡◌, ℕ, List, [], ◌∷◌, ◌++◌};
ghost use Rattle.overlay_map.specs.ContentKeys.{HoldsIds, keys_of};

use crate::content_keys::ContentKeys;
use sha2::{Digest, Sha256};

/// Ids that are taken one by one, of which keys are made.
#[derive(Drop)]
pub struct Contents {
    digest: Sha256,
}

impl Contents {
    /// No ids.
    pub fn new() -> Contents
        ensures { HoldsIds result [] }
    {
        Contents {
            digest: Sha256::new(),
        }
    }

    /// Takes an id, as the number that it is.
    #[tactic(auto, using(crate::proofs::IdBytes::one_more_id))]
    pub fn add(&mut self, id: u32)
        ensures { (ids : List ℕ) → HoldsIds self.old ids → HoldsIds self.new (ids ++ id ∷ []) }
    {
        self.digest.update(&id.to_le_bytes());
    }

    /// The keys of the ids.
    #[tactic(auto, unfolding(crate::specs::ContentKeys::keys_of))]
    pub fn keys(self) -> ContentKeys
        ensures { (ids : List ℕ) → HoldsIds self ids → result ≡ keys_of ids }
    {
        ContentKeys::of_digest(self.digest.finalize())
    }
}
