//! Sets of resources.

use crate::name_parts::parts_at_slash;
use crate::named::Named;
use crate::package_word::PackageWord;
use crate::type_word::TypeWord;

/// Stands for all entries of a type, and for all resources.
pub(crate) const ALL: &str = "*";

/// Resources that one word asks for.
#[derive(Clone, Copy, PartialEq, Eq, PartialOrd, Ord)]
pub enum NamedSet<'a> {
    One(Named<'a>),
    /// Those of a type, in all packages where none is named.
    OfType {
        package: Option<PackageWord<'a>>,
        type_name: &'a str,
    },
    All,
}

impl<'a> NamedSet<'a> {
    ghost use Rattle.std.specs.Prelude.{◌≡◌};
    ghost use Rattle.std.specs.Option.{option_map};
    ghost use Rattle.names.specs.NamedSet.{named_set_of, named_set_in};

    /// The resources that a word asks for: one, those of a type (`dimen/*`, `android:dimen/*`), or all (`*`).
    #[tactic(auto, unfolding(crate::specs::NamedSet::named_set_in))]
    pub fn read(word: &'a str) -> Option<NamedSet<'a>>
        ensures { option_map named_set_of result ≡ named_set_in word.entry.now }
    {
        if word == ALL {
            return Some(NamedSet::All);
        }
        let (before, entries) = parts_at_slash(word);
        if entries == ALL {
            let of_type = TypeWord::read(before)?;
            return Some(NamedSet::OfType {
                package: of_type.package,
                type_name: of_type.type_name,
            });
        }
        let one = Named::read(word)?;
        Some(NamedSet::One(one))
    }
}
