//! Which word is written for a package.

ghost use Rattle.std.specs.Prelude.{◌≡◌, ◌==◌, map, find};
ghost use Rattle.std.specs.List.{list_all};
ghost use Rattle.std.specs.Option.{option_and_then, option_map};
ghost use Rattle.names.specs.PackageWord.{package_word_of};
ghost use Rattle.names.specs.Packages.{package_name_of};
ghost use Rattle.names.specs.WordText.{can_name, is_told, package_told, package_word_for};

use crate::name_parts::{has_colon, has_slash};
use crate::package_word::{PackageWord, number_in};
use crate::packages::PackageName;
use crate::plain::is_plain;

/// The word for the package with a number: its name where that tells it, and else the number.
#[tactic(auto, unfolding(crate::specs::WordText::package_word_for))]
pub(crate) fn package_word_for<'p>(packages: &'p [PackageName<'_>], number: u8) -> PackageWord<'p>
    ensures { package_word_of result ≡ package_word_for (map package_name_of packages.entry.now) number }
{
    match first_name(packages, number) {
        Some(name) => package_told(packages, number, name),
        None => PackageWord::Number(number),
    }
}

// The name of the first package with a number.
fn first_name<'p>(packages: &'p [PackageName<'_>], number: u8) -> Option<&'p str>
    ensures { option_map (λ name. name.now) result ≡ option_and_then (λ found. found.name) (find (λ found. found.number == number) (map package_name_of packages.entry.now)) }
{
    'packages: for package in packages {
        if package.number == number {
            return match &package.name {
                Some(name) => Some(name.as_str()),
                None => None,
            };
        }
    }
    None
}

#[tactic(auto, unfolding(crate::specs::WordText::package_told))]
fn package_told<'p>(packages: &[PackageName<'_>], number: u8, name: &'p str) -> PackageWord<'p>
    ensures { package_word_of result ≡ package_told (map package_name_of packages.now) number name.entry.now }
{
    if can_name(name) && is_told(packages, number, name) {
        PackageWord::Name(name)
    } else {
        PackageWord::Number(number)
    }
}

// Whether no package of another number has this name.
fn is_told(packages: &[PackageName<'_>], number: u8, name: &str) -> bool
    ensures { result ≡ list_all (is_told name.now number) (map package_name_of packages.now) }
{
    'packages: for package in packages {
        if package.number != number && package.has_name(name) {
            return false;
        }
    }
    true
}

// Whether a word can have this text before its `:` as the name of a package.
fn can_name(name: &str) -> bool
    ensures { result ≡ can_name name.now }
{
    is_plain(name) && !has_colon(name) && !has_slash(name) && number_in(name).is_none()
}
