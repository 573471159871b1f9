//! The names in words.

ghost use Rattle.std.specs.Prelude.{◌≡◌, ◌++◌, map, IfOk, OnOk};
ghost use Rattle.std.specs.List.{flat_map};
ghost use Rattle.names.specs.Named.{named_of};
ghost use Rattle.names.specs.NamedSet.{named_set_of};
ghost use Rattle.names.specs.NamedGoal.{named_goal_of};
ghost use Rattle.names.specs.Names.{wanted_of};
ghost use Rattle.names.specs.AskedNames.{names_in, names_in_set, names_in_goal};

use crate::named::Named;
use crate::named_goal::NamedGoal;
use crate::named_set::NamedSet;
use crate::wanted::Wanted;
use std::alloc::{AllocError, Global};

/// The names in words that ask for resources, in their order.
pub(crate) fn names_in_sets<'n>(
    alloc: Global,
    sets: &[NamedSet<'n>],
) -> Result<Vec<Wanted<'n>>, AllocError>
    ensures { IfOk result (λ names. map wanted_of names.items ≡ flat_map (λ set. names_in_set (named_set_of set)) sets.now) }
{
    let mut names = Vec::new(alloc);
    for set in sets {
        push_name_of_set(*set, &mut names)?;
    }
    Ok(names)
}

/// The names in words that ask for goals, in their order.
pub(crate) fn names_in_goals<'n>(
    alloc: Global,
    goals: &[NamedGoal<'n>],
) -> Result<Vec<Wanted<'n>>, AllocError>
    ensures { IfOk result (λ names. map wanted_of names.items ≡ flat_map (λ goal. names_in_goal (named_goal_of goal)) goals.now) }
{
    let mut names = Vec::new(alloc);
    for goal in goals {
        push_names_of_goal(goal, &mut names)?;
    }
    Ok(names)
}

fn push_names_of_goal<'n>(
    word: &NamedGoal<'n>,
    names: &mut Vec<Wanted<'n>>,
) -> Result<(), AllocError>
    ensures { OnOk result (map wanted_of names.new.items ≡ map wanted_of names.old.items ++ names_in_goal (named_goal_of word.now)) }
{
    match word {
        NamedGoal::Ids(_) => Ok(()),
        NamedGoal::Resources(set) => push_name_of_set(*set, names),
        NamedGoal::Attr { attr, styles } => {
            push_name(*attr, names)?;
            push_names(styles, names)
        }
    }
}

fn push_name_of_set<'n>(set: NamedSet<'n>, names: &mut Vec<Wanted<'n>>) -> Result<(), AllocError>
    ensures { OnOk result (map wanted_of names.new.items ≡ map wanted_of names.old.items ++ names_in_set (named_set_of set.entry)) }
{
    match set {
        NamedSet::One(named) => push_name(named, names),
        NamedSet::OfType { .. } | NamedSet::All => Ok(()),
    }
}

fn push_names<'n>(all: &[Named<'n>], names: &mut Vec<Wanted<'n>>) -> Result<(), AllocError>
    ensures { OnOk result (map wanted_of names.new.items ≡ map wanted_of names.old.items ++ flat_map names_in (map named_of all.now)) }
{
    for named in all {
        push_name(*named, names)?;
    }
    Ok(())
}

// Pushes the name of a resource, where it is asked for by its name.
fn push_name<'n>(named: Named<'n>, names: &mut Vec<Wanted<'n>>) -> Result<(), AllocError>
    ensures { OnOk result (map wanted_of names.new.items ≡ map wanted_of names.old.items ++ names_in (named_of named.entry)) }
{
    if let Named::Name {
        package,
        type_name,
        entry_name,
    } = named
    {
        names.push(Wanted::of_parts(package, type_name, entry_name))?;
    }
    Ok(())
}
