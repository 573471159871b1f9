//! All changes of a resource.

ghost use Rattle.std.specs.Prelude.{◌≡◌, false, IfOk};
ghost use Rattle.stack_diff.specs.Stacks.{stacks_of, is_itself};
ghost use Rattle.stack_diff.specs.Compared.{IsCompared};

use crate::change::Compared;
use crate::grouped::grouped;
use crate::pair::{Pair, Resource};
use crate::stacks::Stacks;
use crate::tree::grow_tree;
use answer_text::ResId;
use cert_maker::{ConfigBox, OutOfMemory};
use std::alloc::Global;

/// How a resource of the new stack differs from one of the old stack, for all devices of a box; or none where the tree
/// that finds it has more nodes than the limit: each of its tests parts two devices which have different traces in one of
/// the stacks. A resource beside itself has a tree of one leaf, and no device is asked. Where at most one qualifier of the
/// box has several values, no fewer boxes tell it.
///
/// ```text
/// if let Some(compared) = compare(alloc, Stacks::two(&old, &new, &packages), old_id, new_id, &phones, 100_000)? {
///     for change in &compared.changes { .. } // dimension 4/2^0 dp -> dimension 3/2^0 dp, in landscape
/// }
/// ```
pub fn compare<'a>(
    alloc: Global,
    stacks: Stacks<'_, 'a>,
    old: ResId,
    new: ResId,
    members: &ConfigBox,
    most: usize,
) -> Result<Option<Compared<'a>>, OutOfMemory>
    ensures { IfOk result (IsCompared (stacks_of stacks.entry) old new members.now most) }
{
    if !stacks.is_itself(old, new) {
        return compare_by_tree(alloc, stacks, old, new, members, most);
    }
    if most == 0 {
        return Ok(None);
    }
    Ok(Some(Compared {
        changes: Vec::new(alloc),
        nodes: 1,
    }))
}

// The same of two resources.
fn compare_by_tree<'a>(
    alloc: Global,
    stacks: Stacks<'_, 'a>,
    old: ResId,
    new: ResId,
    members: &ConfigBox,
    most: usize,
) -> Result<Option<Compared<'a>>, OutOfMemory>
    requires { is_itself (stacks_of stacks) old new ≡ false }
    ensures { IfOk result (IsCompared (stacks_of stacks.entry) old new members.now most) }
{
    let pair = Pair {
        before: Resource {
            stack: stacks.old,
            id: old,
        },
        after: Resource {
            stack: stacks.new,
            id: new,
        },
        compared: stacks.compared,
        is_alone: stacks.is_alone(old, new),
    };
    let Some(leaves) = grow_tree(alloc, pair, members, most)? else {
        return Ok(None);
    };
    let nodes = leaves.nodes;
    let changes = grouped(alloc, leaves.told)?;
    Ok(Some(Compared { changes, nodes }))
}
