//! The flags of entries.

ghost use Rattle.std.specs.Prelude.{⊤, ◌≡◌, ◌==◌, ◌%◌, [], ◌∷◌, codes};

use bitflags::{Flag, Flags};

/// The flags of an entry (AOSP: `ResTable_entry::flags`). The table's meaning rests on the first
/// alone.
#[derive(Clone, Copy)]
pub(crate) struct EntryFlags(u16);

impl EntryFlags {
    const COMPLEX: EntryFlags = EntryFlags(1);

    const PUBLIC: EntryFlags = EntryFlags(2);

    const WEAK: EntryFlags = EntryFlags(4);

    const FLAGS: &'static [Flag<EntryFlags>] = &[
        Flag {
            name: "COMPLEX",
            value: EntryFlags::COMPLEX,
        },
        Flag {
            name: "PUBLIC",
            value: EntryFlags::PUBLIC,
        },
        Flag {
            name: "WEAK",
            value: EntryFlags::WEAK,
        },
    ];

    /// Whether the entry holds a bag.
    pub fn is_complex(self) -> bool
        ensures { result ≡ (self.0 % 2 == 1) }
    {
        self.contains(EntryFlags::COMPLEX)
    }
}

impl Flags for EntryFlags {
    type Bits = u16;

    ghost exact = { ⊤ };

    ghost table = { (codes "COMPLEX", 1) ∷ (codes "PUBLIC", 2) ∷ (codes "WEAK", 4) ∷ [] };

    ghost set_of = { λ flags. flags.0 };

    fn flags<'a>() -> &'a [Flag<EntryFlags>] {
        EntryFlags::FLAGS
    }

    fn bits(&self) -> u16 {
        self.0
    }

    fn from_bits_retain(bits: u16) -> EntryFlags {
        EntryFlags(bits)
    }
}
