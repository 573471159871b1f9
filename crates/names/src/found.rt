//! What a name stands for.

ghost use Rattle.std.specs.Prelude.{◌≡◌};
ghost use Rattle.names.specs.FoundSoFar.{beside};

use overlay_map::ResId;

/// What a name stands for.
#[derive(Clone, Copy)]
pub(crate) enum Found {
    Nothing,
    One(ResId),
    /// Ids of two packages.
    Two { first: ResId, other: ResId },
}

impl Found {
    ghost use Rattle.std.specs.Prelude.{◌≡◌};
    ghost use Rattle.names.specs.FoundSoFar.{also, first_of};

    /// The same, where an id has the name too, which comes behind those before.
    pub fn also(self, id: ResId) -> Found
        ensures { result ≡ also self id }
    {
        match self {
            Found::Nothing => Found::One(id),
            Found::One(first) => beside(first, id),
            Found::Two { .. } => self,
        }
    }

    /// The first id that has the name.
    pub fn first(self) -> Option<ResId>
        ensures { result ≡ first_of self }
    {
        match self {
            Found::Nothing => None,
            Found::One(first) | Found::Two { first, .. } => Some(first),
        }
    }
}

fn beside(first: ResId, id: ResId) -> Found
    ensures { result ≡ beside first id }
{
    if id.package() == first.package() {
        Found::One(first)
    } else {
        Found::Two { first, other: id }
    }
}
