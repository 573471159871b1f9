//! One resource.

ghost use Rattle.std.specs.Prelude.{◌≡◌};
ghost use Rattle.std.specs.Option.{option_map};
ghost use Rattle.names.specs.Named.{named_of, name_in, xml_name_in};

use crate::android_types::is_android_type;
use crate::name_parts::{behind_sign, is_part, parts_at_slash};
use crate::package_word::PackageWord;
use crate::type_word::TypeWord;
use res_value::ResId;

/// A resource, by its id or by its name.
#[derive(Clone, Copy, PartialEq, Eq, PartialOrd, Ord)]
pub enum Named<'a> {
    Id(ResId),
    /// In any package where none is named.
    Name {
        package: Option<PackageWord<'a>>,
        type_name: &'a str,
        entry_name: &'a str,
    },
}

impl<'a> Named<'a> {
    ghost use Rattle.std.specs.Prelude.{◌≡◌};
    ghost use Rattle.std.specs.Option.{option_map};
    ghost use Rattle.names.specs.Named.{named_of, named_in};

    /// The resource that a word asks for: `0x7f010000`, `dimen/margin`, `android:color/white`, `0x01:color/white` or
    /// `@color/white`.
    #[tactic(auto, unfolding(crate::specs::Named::named_in))]
    pub fn read(word: &'a str) -> Option<Named<'a>>
        ensures { option_map named_of result ≡ named_in word.entry.now }
    {
        if let Some(id) = ResId::read(word) {
            return Some(Named::Id(id));
        }
        match behind_sign(word) {
            Some(text) => xml_name(text),
            None => name(word),
        }
    }
}

#[tactic(auto, unfolding(crate::specs::Named::name_in))]
fn name(word: &str) -> Option<Named<'_>>
    ensures { option_map named_of result ≡ name_in word.now }
{
    let (before, entry_name) = parts_at_slash(word);
    let of_type = TypeWord::read(before)?;
    if !is_part(entry_name) {
        return None;
    }
    Some(Named::Name {
        package: of_type.package,
        type_name: of_type.type_name,
        entry_name,
    })
}

/// The name behind an `@`, where its type is one of Android's.
#[tactic(auto, unfolding(crate::specs::Named::xml_name_in))]
pub(crate) fn xml_name(text: &str) -> Option<Named<'_>>
    ensures { option_map named_of result ≡ xml_name_in text.now }
{
    let named = name(text)?;
    match named {
        Named::Name { type_name, .. } if is_android_type(type_name) => Some(named),
        _ => None,
    }
}
