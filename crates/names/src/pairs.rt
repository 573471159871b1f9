//! The pairs of words.

ghost use Rattle.std.specs.Prelude.{◌≡◌, ◌++◌, [], List, map, Ok, IfOk};
ghost use Rattle.std.specs.List.{items_where_true};
ghost use Rattle.names.specs.NamedSet.{NamedSetOf, named_set_of};
ghost use Rattle.names.specs.Pairs.{PairOf, pair_of};
ghost use Rattle.names.specs.NameFault.{GivesNamed};
ghost use Rattle.names.specs.NamedPairs.{fault_of_found, first_fault, is_asked, pairs_named};
ghost use Rattle.names.specs.NamedIds.{packages_of};
ghost use Rattle.names.specs.Packages.{package_name_of};
ghost use Rattle.names.specs.AskedWords.{asked_in, unless, AreAsked};
ghost use Rattle.names.specs.declared.found.Found.TheVariants.{Two};

use crate::asked_words::AskedWords;
use crate::fault::NameFault;
use crate::found::Found;
use crate::named::Named;
use crate::named_set::NamedSet;
use crate::named_stack::NamedStack;
use crate::packages::{PackageName, PackageNames};
use crate::pair::NamePair;
use crate::wanted::Wanted;
use crate::words_for::{id_of_sides, words_for};
use overlay_map::ResId;
use std::alloc::{AllocError, Global};

/// Those pairs of two stacks for which some word asks, in their order; all of them without words. An id asks for a pair
/// that it stands for in either stack, and a name for the pair that has it: in the package that it names, or in any, as long as
/// no other package has one of that name. It walks twice over the words and over the pairs, however many there
/// are.
///
/// ```text
/// let pairs = pairs_named(alloc, &old, &new, name_pairs(alloc, &old, &new)?, &words)?;
/// ```
pub fn pairs_named<'a>(
    alloc: Global,
    old: &NamedStack<'_, 'a>,
    new: &NamedStack<'_, 'a>,
    pairs: Vec<NamePair<'a>>,
    sets: &[NamedSet<'_>],
) -> Result<Vec<NamePair<'a>>, NameFault>
    ensures { GivesNamed (λ named. map pair_of named.items) result (pairs_named old.now new.now (map named_set_of sets.now) (map pair_of pairs.entry.items)) }
{
    if sets.is_empty() {
        return Ok(pairs);
    }
    let asked = asked_pairs(alloc, old, new, &pairs, &*sets)?;
    keep(alloc, pairs, asked)
}

// Of each pair whether some word asks for it, where each word asks for some.
fn asked_pairs<'a>(
    alloc: Global,
    old: &NamedStack<'_, 'a>,
    new: &NamedStack<'_, 'a>,
    pairs: &[NamePair<'a>],
    sets: &[NamedSet<'_>],
) -> Result<Vec<bool>, NameFault>
    ensures { GivesNamed (λ asked. asked.items) result (asked_in (packages_of old.now ++ packages_of new.now) (map named_set_of sets.now) (map pair_of pairs.now)) }
{
    let packages = PackageNames::of_both(alloc, old.stack(), new.stack())?;
    let asked = asked_in(alloc, &packages.all, &*pairs, &*sets);
    drop(packages);
    asked
}

fn asked_in<'n>(
    alloc: Global,
    packages: &'n [PackageName<'_>],
    pairs: &'n [NamePair<'_>],
    sets: &[NamedSet<'n>],
) -> Result<Vec<bool>, NameFault>
    ensures { GivesNamed (λ asked. asked.items) result (asked_in (map package_name_of packages.entry.now) (map named_set_of sets.now) (map pair_of pairs.entry.now)) }
{
    let mut words = AskedWords::of_sets(alloc, sets)?;
    let asked = note_pairs(alloc, packages, pairs, &mut words)?;
    check_each(alloc, packages, &words, sets)?;
    Ok(asked)
}

// Notes for each word the pairs for which it asks. Of each pair whether some word asks for it.
fn note_pairs<'n>(
    alloc: Global,
    packages: &'n [PackageName<'_>],
    pairs: &'n [NamePair<'_>],
    words: &mut AskedWords<'n>,
) -> Result<Vec<bool>, AllocError>
    ensures { (sets : List NamedSetOf) → AreAsked (map package_name_of packages.entry.now) sets [] words.old
        → IfOk result (λ asked. AreAsked (map package_name_of packages.entry.now) sets (map pair_of pairs.entry.now) words.new
        × (asked.items ≡ map (is_asked (map package_name_of packages.entry.now) sets) (map pair_of pairs.entry.now))) }
{
    let mut asked = Vec::new(alloc);
    for pair in pairs {
        let for_pair = words_for(alloc, packages, pair)?;
        let is_asked = words.put_each(&for_pair, id_of_sides(pair.sides))?;
        asked.push(is_asked)?;
    }
    Ok(asked)
}

// The fault of the first word that has one.
fn check_each<'n>(
    alloc: Global,
    packages: &[PackageName<'_>],
    words: &AskedWords<'n>,
    sets: &[NamedSet<'n>],
) -> Result<(), NameFault>
    ensures { (pairs : List PairOf) → AreAsked (map package_name_of packages.now) (map named_set_of sets.now) pairs words.now
        → GivesNamed (λ none. none) result (unless (first_fault (map package_name_of packages.now) pairs (map named_set_of sets.now))) }
{
    for set in sets {
        check_word(alloc, packages, *set, words.found(set))?;
    }
    Ok(())
}

// The fault of a word, for which this was found.
fn check_word(
    alloc: Global,
    packages: &[PackageName<'_>],
    set: NamedSet<'_>,
    found: Found,
) -> Result<(), NameFault>
    ensures { GivesNamed (λ none. none) result (unless (fault_of_found (map package_name_of packages.now) (named_set_of set.entry) found)) }
{
    match found {
        Found::Nothing => Err(NameFault::no_set(alloc, set)),
        Found::One(_) => Ok(()),
        Found::Two { first, other } => check_two(alloc, packages, set, first, other),
    }
}

fn check_two(
    alloc: Global,
    packages: &[PackageName<'_>],
    set: NamedSet<'_>,
    first: ResId,
    other: ResId,
) -> Result<(), NameFault>
    ensures { GivesNamed (λ none. none) result (unless (fault_of_found (map package_name_of packages.now) (named_set_of set.entry) (Two first other))) }
{
    match set {
        NamedSet::One(
            Named::Name {
                package,
                type_name,
                entry_name,
            },
        ) => {
            let wanted = Wanted::of_parts(package, type_name, entry_name);
            Err(NameFault::two(alloc, packages, wanted, first, other))
        }
        NamedSet::One(Named::Id(_)) | NamedSet::OfType { .. } | NamedSet::All => Ok(()),
    }
}

// Those pairs that are asked for.
fn keep<'a>(
    alloc: Global,
    pairs: Vec<NamePair<'a>>,
    asked: Vec<bool>,
) -> Result<Vec<NamePair<'a>>, NameFault>
    ensures { GivesNamed (λ kept. map pair_of kept.items) result (Ok (map pair_of (items_where_true asked.items pairs.entry.items))) }
{
    let mut flags = asked.into_iter();
    let mut kept = Vec::new(alloc);
    for pair in pairs {
        if flags.next().unwrap_or(false) {
            kept.push(pair)?;
        } else {
            drop(pair);
        }
    }
    Ok(kept)
}
