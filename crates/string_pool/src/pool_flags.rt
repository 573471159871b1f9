//! The flags of pools.

ghost use Rattle.std.specs.Prelude.{⊤, ◌≡◌, ◌==◌, ◌/◌, ◌%◌, ◌^◌, [], ◌∷◌, codes};

use bitflags::{Flag, Flags};

/// The flags of a pool (AOSP: `ResStringPool_header::flags`). Strings are read alike whether they are sorted or
/// not.
#[derive(Clone, Copy)]
pub(crate) struct PoolFlags(u32);

impl PoolFlags {
    const SORTED: PoolFlags = PoolFlags(1);

    const UTF8: PoolFlags = PoolFlags(0x100);

    const FLAGS: &'static [Flag<PoolFlags>] = &[
        Flag {
            name: "SORTED",
            value: PoolFlags::SORTED,
        },
        Flag {
            name: "UTF8",
            value: PoolFlags::UTF8,
        },
    ];

    /// Whether the strings are UTF-8, and not UTF-16.
    #[tactic(auto, using(crate::proofs::BitSteps::bit_steps))]
    pub fn is_utf8(self) -> bool
        ensures { result ≡ (self.0 / 2 ^ 8 % 2 == 1) }
    {
        self.contains(PoolFlags::UTF8)
    }
}

impl Flags for PoolFlags {
    type Bits = u32;

    ghost exact = { ⊤ };

    ghost table = { (codes "SORTED", 1) ∷ (codes "UTF8", 0x100) ∷ [] };

    ghost set_of = { λ flags. flags.0 };

    fn flags<'a>() -> &'a [Flag<PoolFlags>] {
        PoolFlags::FLAGS
    }

    fn bits(&self) -> u32 {
        self.0
    }

    fn from_bits_retain(bits: u32) -> PoolFlags {
        PoolFlags(bits)
    }
}
