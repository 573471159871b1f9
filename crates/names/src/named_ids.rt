//! The ids of words.

ghost use Rattle.std.specs.Prelude.{List, map};
ghost use Rattle.std.specs.List.{flat_map};
ghost use Rattle.overlay_map.specs.Layer.{LayerOf};
ghost use Rattle.names.specs.Named.{named_of};
ghost use Rattle.names.specs.NamedSet.{named_set_of};
ghost use Rattle.names.specs.NameFault.{GivesNamed};
ghost use Rattle.names.specs.NamedIds.{id_named, ids_named};
ghost use Rattle.names.specs.AskedNames.{names_in_set};
ghost use Rattle.names.specs.Finder.{Tells};

use crate::asked_names::names_in_sets;
use crate::fault::NameFault;
use crate::finder::Finder;
use crate::named::Named;
use crate::named_set::NamedSet;
use overlay_map::{ResId, Stack};
use std::alloc::Global;

/// The id that a word asks for.
///
/// ```text
/// let margin = Named::Name { type_name: "dimen", entry_name: "margin" };
/// let id = id_named(alloc, &stack, margin)?;
/// ```
pub fn id_named(alloc: Global, stack: &Stack<'_>, named: Named<'_>) -> Result<ResId, NameFault>
    ensures { GivesNamed (λ id. id) result (id_named stack.now (named_of named.entry)) }
{
    let ids = ids_named(alloc, stack, &[NamedSet::One(named)])?;
    Ok(ids[0])
}

/// The ids that words ask for, one word after the other. All names are looked up in one walk over the rows of the base
/// layers; each set of several resources takes one more.
pub fn ids_named(
    alloc: Global,
    stack: &Stack<'_>,
    sets: &[NamedSet<'_>],
) -> Result<Vec<ResId>, NameFault>
    ensures { GivesNamed (λ ids. ids.items) result (ids_named stack.now (map named_set_of sets.now)) }
{
    let names = names_in_sets(alloc, sets)?;
    let mut finder = Finder::new(alloc, stack, &names)?;
    let ids = ids_found(alloc, &mut finder, sets);
    drop(finder);
    ids
}

// The same, where their names are looked up.
fn ids_found<'n>(
    alloc: Global,
    finder: &mut Finder<'_, '_, 'n>,
    sets: &[NamedSet<'n>],
) -> Result<Vec<ResId>, NameFault>
    ensures { (layers : List LayerOf) → Tells layers (flat_map (λ set. names_in_set (named_set_of set)) sets.now) finder.old → GivesNamed (λ ids. ids.items) result (ids_named layers (map named_set_of sets.now)) }
{
    let mut all = Vec::new(alloc);
    for set in sets {
        let ids = finder.ids(alloc, set)?;
        all.extend_from_slice(&ids)?;
    }
    Ok(all)
}
