//! Names that are looked up.

ghost use Rattle.std.specs.Prelude.{◌≡◌, Some};
ghost use Rattle.std.specs.Option.{option_map};
ghost use Rattle.names.specs.Names.{wanted_in_package, wanted_name, wanted_of};
ghost use Rattle.names.specs.PackageWord.{package_word_of};
ghost use Rattle.names.specs.WordText.{wanted_text};

use crate::name::Name;
use crate::package_word::PackageWord;
use std::fmt;

/// A name that is looked up, in all packages where none is named.
#[derive(Clone, Copy)]
pub(crate) struct Wanted<'n> {
    pub package: Option<PackageWord<'n>>,
    pub name: Name<'n>,
}

impl<'n> Wanted<'n> {
    /// The name of a type and an entry, in a package where one is named.
    pub fn of_parts(
        word: Option<PackageWord<'n>>,
        type_name: &'n str,
        entry_name: &'n str,
    ) -> Wanted<'n>
        ensures { wanted_of result ≡ wanted_name (option_map package_word_of word.entry) type_name.entry.now entry_name.entry.now }
    {
        Wanted {
            package: word,
            name: Name {
                type_name,
                entry_name,
            },
        }
    }

    /// The same name in a package.
    pub fn in_package(self, word: PackageWord<'n>) -> Wanted<'n>
        ensures { wanted_of result ≡ wanted_in_package (wanted_of self.entry) (package_word_of word.entry) }
    {
        Wanted {
            package: Some(word),
            name: self.name,
        }
    }
}

/// Shows the word that asks for it.
impl fmt::Display for Wanted<'_> {
    ghost output = { λ wanted. Some (wanted_text (wanted_of wanted)) };

    fn fmt<W: fmt::Write>(&self, f: &mut fmt::Formatter<W>) -> fmt::Result {
        let Name {
            type_name,
            entry_name,
        } = self.name;
        match self.package {
            Some(package) => write!(f, "{package}:{type_name}/{entry_name}"),
            None => write!(f, "{type_name}/{entry_name}"),
        }
    }
}
