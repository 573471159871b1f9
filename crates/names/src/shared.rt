//! Ids whose names stand for other ids.

ghost use Rattle.std.specs.Prelude.{◌≡◌};
ghost use Rattle.std.specs.BTreeSet.{IsOrdered};
ghost use Rattle.std.specs.Ordering.{nat_cmp};
ghost use Rattle.names.specs.Shared.{shared_of};

use overlay_map::ResId;
use std::collections::BTreeSet;

/// The ids that have a name which stands for another id.
#[derive(Clone, Copy)]
pub struct SharedNames {
    pub count: usize,
    /// The least of them.
    pub first: ResId,
}

/// How many ids these are, and the first of them.
pub(crate) fn shared_in(ids: &BTreeSet<u32>) -> Option<SharedNames>
    ensures shared { result ≡ shared_of ids.now.keys }
    ensures rising { IsOrdered nat_cmp ids.now }
{
    let count = ids.len();
    let first = *ids.first()?;
    Some(SharedNames {
        count,
        first: ResId(first),
    })
}
