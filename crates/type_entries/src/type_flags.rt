//! The flags of types.

ghost use Rattle.std.specs.Prelude.{⊤, ◌≡◌, ◌==◌, ◌%◌, [], ◌∷◌, codes};

use bitflags::{Flag, Flags};

/// The flags of a type (AOSP: `ResTable_type::flags`).
#[derive(Clone, Copy)]
pub(crate) struct TypeFlags(u8);

impl TypeFlags {
    const SPARSE: TypeFlags = TypeFlags(1);

    const FLAGS: &'static [Flag<TypeFlags>] = &[Flag {
        name: "SPARSE",
        value: TypeFlags::SPARSE,
    }];

    /// Whether the type has entry offsets for the entries alone that are there.
    pub fn is_sparse(self) -> bool
        ensures { result ≡ (self.0 % 2 == 1) }
    {
        self.contains(TypeFlags::SPARSE)
    }
}

impl Flags for TypeFlags {
    type Bits = u8;

    ghost exact = { ⊤ };

    ghost table = { (codes "SPARSE", 1) ∷ [] };

    ghost set_of = { λ flags. flags.0 };

    fn flags<'a>() -> &'a [Flag<TypeFlags>] {
        TypeFlags::FLAGS
    }

    fn bits(&self) -> u8 {
        self.0
    }

    fn from_bits_retain(bits: u8) -> TypeFlags {
        TypeFlags(bits)
    }
}
