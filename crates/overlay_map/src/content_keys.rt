//! The keys of a map.

ghost use Rattle.std.specs.Prelude.{◌≡◌};
ghost use Rattle.overlay_map.specs.ContentKeys.{of_digest};

use std::hash::{BuildHasher, DefaultHasher, Hasher};

/// The keys of a map, with which it makes its hashers. These are SipHash's, which is made for maps whose keys an
/// adversary may choose.
#[derive(Clone, Copy)]
pub struct ContentKeys {
    /// SipHash behind the digest.
    keyed: DefaultHasher,
}

impl ContentKeys {
    pub(crate) fn of_digest(digest: [u8; 32]) -> ContentKeys
        ensures { result ≡ of_digest digest }
    {
        let mut keyed = DefaultHasher::new();
        keyed.write(&digest);
        ContentKeys { keyed }
    }
}

impl BuildHasher for ContentKeys {
    type Hasher = DefaultHasher;

    ghost build_hasher = { λ keys. keys.keyed };

    fn build_hasher(&self) -> DefaultHasher {
        self.keyed
    }
}
