//! The labels of two stacks for which words ask.

ghost use Rattle.std.specs.Prelude.{map, IfOk};
ghost use Rattle.stack_diff.specs.names.NameFault.{GivesNamed};
ghost use Rattle.stack_diff.specs.names.NamedSet.{named_set_of};
ghost use Rattle.stack_diff.specs.names.Pairs.{pair_of};
ghost use Rattle.stack_diff.specs.Stacks.{stacks_of};
ghost use Rattle.resource_tool.specs.AskedPairs.{asked_pairs, AreOfStacks};

use command_base::NamedSet;
use names::{NameFault, name_pairs, pairs_named};
use stack_diff::{NamePair, Stacks};
use std::alloc::Global;

/// The labels of both stacks for which some word asks, in rising order; all of them without words.
pub(crate) fn asked_pairs<'a>(
    alloc: Global,
    stacks: Stacks<'_, 'a>,
    sets: &[NamedSet<'_>],
) -> Result<Vec<NamePair<'a>>, NameFault>
    ensures asked { GivesNamed (λ pairs. map pair_of pairs.items) result (asked_pairs (stacks_of stacks.entry) (map named_set_of sets.now)) }
    ensures of_stacks { IfOk result (λ pairs. AreOfStacks (stacks_of stacks.entry) (map pair_of pairs.items)) }
{
    let (old, new) = (stacks.old_stack(), stacks.new_stack());
    let all = name_pairs(alloc, old, new)?;
    let pairs = pairs_named(alloc, old, new, all, sets)?;
    Ok(pairs)
}
