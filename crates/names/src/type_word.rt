//! Types, as words have them.

ghost use Rattle.std.specs.Prelude.{◌≡◌, MatchOption, false, true};
ghost use Rattle.std.specs.List.{list_any, before_first, after_first};
ghost use Rattle.names.specs.Named.{is_colon};

use crate::name_parts::is_part;
use crate::package_word::PackageWord;

/// Stands between a package and a type.
const COLON: char = ':';

/// What stands before the slash of a word: a type, in a package where one is named.
#[derive(Clone, Copy)]
pub(crate) struct TypeWord<'a> {
    pub package: Option<PackageWord<'a>>,
    pub type_name: &'a str,
}

impl<'a> TypeWord<'a> {
    ghost use Rattle.std.specs.Prelude.{◌≡◌};
    ghost use Rattle.std.specs.Option.{option_map};
    ghost use Rattle.names.specs.Named.{type_word_of, type_word_in};

    /// The type that a text names: `TYPE`, or `PACKAGE:TYPE`.
    #[tactic(auto, unfolding(crate::specs::Named::type_word_in))]
    pub fn read(text: &'a str) -> Option<TypeWord<'a>>
        ensures { option_map type_word_of result ≡ type_word_in text.entry.now }
    {
        match cut_at_colon(text) {
            Some((package, type_name)) if is_part(package) && is_part(type_name) => Some(
                TypeWord {
                    package: Some(PackageWord::read(package)),
                    type_name,
                },
            ),
            None if is_part(text) => Some(TypeWord {
                package: None,
                type_name: text,
            }),
            _ => None,
        }
    }
}

fn cut_at_colon(text: &str) -> Option<(&str, &str)>
    ensures { MatchOption result (list_any is_colon text.now ≡ false)
        (λ parts. (list_any is_colon text.now ≡ true)
        × (parts.0.now ≡ before_first is_colon text.now) × (parts.1.now ≡ after_first is_colon text.now)) }
{
    text.split_once(COLON)
}
