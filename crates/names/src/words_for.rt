//! The words that ask for a pair of two stacks.

ghost use Rattle.std.specs.Prelude.{◌≡◌, ◌++◌, ◌∷◌, [], map, IfOk, OnOk};
ghost use Rattle.std.specs.List.{flat_map};
ghost use Rattle.std.specs.Option.{option_map};
ghost use Rattle.names.specs.Label.{label_of};
ghost use Rattle.names.specs.NamedSet.{named_set_of};
ghost use Rattle.names.specs.NamedPairs.{id_of_sides};
ghost use Rattle.names.specs.PackageWord.{package_word_of};
ghost use Rattle.names.specs.Packages.{package_name_of};
ghost use Rattle.names.specs.Pairs.{pair_of};
ghost use Rattle.names.specs.AskedWords.{by_id, words_for, words_for_sides, words_for_label, words_with, word_of_package};

use crate::label::Label;
use crate::named::Named;
use crate::named_set::NamedSet;
use crate::package_word::PackageWord;
use crate::packages::PackageName;
use crate::pair::{NamePair, Sides};
use overlay_map::ResId;
use std::alloc::{AllocError, Global};

/// All words that ask for a pair: `*`, those of its ids, and where it has a name, that and the one of its type, each without a
/// package, and with each word for its package.
pub(crate) fn words_for<'n>(
    alloc: Global,
    packages: &'n [PackageName<'_>],
    pair: &'n NamePair<'_>,
) -> Result<Vec<NamedSet<'n>>, AllocError>
    ensures { IfOk result (λ words. map named_set_of words.items ≡ words_for (map package_name_of packages.entry.now) (pair_of pair.entry.now)) }
{
    let mut words = Vec::new(alloc);
    words.push(NamedSet::All)?;
    push_ids(pair.sides, &mut words)?;
    let number = id_of_sides(pair.sides).package();
    push_names(packages, number, &pair.label, &mut words)?;
    Ok(words)
}

/// The id in the new stack, or else in the old one.
pub(crate) fn id_of_sides(sides: Sides) -> ResId
    ensures { result ≡ id_of_sides sides }
{
    match sides {
        Sides::Removed { old: id } | Sides::Added { new: id } | Sides::Both { new: id, .. } => id,
    }
}

fn push_ids(sides: Sides, words: &mut Vec<NamedSet<'_>>) -> Result<(), AllocError>
    ensures { OnOk result (map named_set_of words.new.items ≡ map named_set_of words.old.items ++ words_for_sides sides) }
{
    match sides {
        Sides::Removed { old: id } | Sides::Added { new: id } => {
            words.extend_from_slice(&[by_id(id)])
        }
        Sides::Both { old, new } => words.extend_from_slice(&[by_id(old), by_id(new)]),
    }
}

fn by_id(id: ResId) -> NamedSet<'static>
    ensures { named_set_of result ≡ by_id id }
{
    NamedSet::One(Named::Id(id))
}

fn push_names<'n>(
    packages: &'n [PackageName<'_>],
    number: u8,
    label: &'n Label<'_>,
    words: &mut Vec<NamedSet<'n>>,
) -> Result<(), AllocError>
    ensures { OnOk result (map named_set_of words.new.items ≡ map named_set_of words.old.items ++ words_for_label (map package_name_of packages.entry.now) number (label_of label.entry.now)) }
{
    match label {
        Label::Name {
            type_name,
            entry_name,
            ..
        } => {
            let type_name = type_name.as_str();
            let entry_name = entry_name.as_str();
            push_name(None, type_name, entry_name, words)?;
            push_name(
                Some(PackageWord::Number(number)),
                type_name,
                entry_name,
                words,
            )?;
            push_called(packages, number, type_name, entry_name, words)
        }
        Label::Id(_) => Ok(()),
    }
}

// By the names of the packages with this number.
fn push_called<'n>(
    packages: &'n [PackageName<'_>],
    number: u8,
    type_name: &'n str,
    entry_name: &'n str,
    words: &mut Vec<NamedSet<'n>>,
) -> Result<(), AllocError>
    ensures { OnOk result (map named_set_of words.new.items ≡ map named_set_of words.old.items ++ flat_map (words_with type_name.entry.now entry_name.entry.now) (flat_map (word_of_package number) (map package_name_of packages.entry.now))) }
{
    for package in packages {
        push_by_name(package, number, type_name, entry_name, words)?;
    }
    Ok(())
}

// By the name of a package, where it has one and this number.
fn push_by_name<'n>(
    found: &'n PackageName<'_>,
    number: u8,
    type_name: &'n str,
    entry_name: &'n str,
    words: &mut Vec<NamedSet<'n>>,
) -> Result<(), AllocError>
    ensures { OnOk result (map named_set_of words.new.items ≡ map named_set_of words.old.items ++ flat_map (words_with type_name.entry.now entry_name.entry.now) (word_of_package number (package_name_of found.entry.now))) }
{
    match &found.name {
        Some(name) if found.number == number => push_name(
            Some(PackageWord::Name(name.as_str())),
            type_name,
            entry_name,
            words,
        ),
        _ => Ok(()),
    }
}

// By a name and its type.
fn push_name<'n>(
    word: Option<PackageWord<'n>>,
    type_name: &'n str,
    entry_name: &'n str,
    words: &mut Vec<NamedSet<'n>>,
) -> Result<(), AllocError>
    ensures { OnOk result (map named_set_of words.new.items ≡ map named_set_of words.old.items ++ words_with type_name.entry.now entry_name.entry.now (option_map package_word_of word.entry)) }
{
    words.extend_from_slice(&[
        NamedSet::OfType {
            package: word,
            type_name,
        },
        NamedSet::One(Named::Name {
            package: word,
            type_name,
            entry_name,
        }),
    ])
}
