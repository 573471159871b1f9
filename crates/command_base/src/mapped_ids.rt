//! Which ids of an overlay a map carries over.

ghost use Rattle.std.specs.Prelude.{◌≡◌, IfOk};
ghost use Rattle.command_base.specs.overlay_map.IdMap.{pairs_of};
ghost use Rattle.command_base.specs.MappedIdsSeen.{AreCarried, AreKept};
ghost use Rattle.command_base.specs.MadeMap.{carries, keeps};

use answer_text::ResId;
use std::alloc::{AllocError, Global};
use std::collections::BTreeSet;

/// Which ids of an overlay some pairs carry over.
#[derive(Drop)]
pub(crate) struct MappedIds<'p> {
    pairs: &'p [(ResId, ResId)],
    /// The numbers of those that stand for some target.
    own: BTreeSet<u32>,
    /// The numbers of those that stand for the target of the same number.
    kept: BTreeSet<u32>,
    ghost are_own: { AreCarried (pairs_of pairs.now) own },
    ghost are_kept: { AreKept (pairs_of pairs.now) kept },
}

impl<'p> MappedIds<'p> {
    pub fn new(alloc: Global, pairs: &'p [(ResId, ResId)]) -> Result<MappedIds<'p>, AllocError>
        ensures { IfOk result (λ mapped. mapped.pairs ≡ pairs.entry) }
    {
        let own = own_ids(alloc, pairs)?;
        let kept = kept_ids(alloc, pairs)?;
        Ok(MappedIds { pairs, own, kept })
    }

    /// Whether an id stands for some target.
    pub fn carries(&self, id: ResId) -> bool
        ensures { result ≡ carries (pairs_of self.now.pairs.now) id.0 }
    {
        self.own.contains(&id.0)
    }

    /// Whether an id stands for the target of the same number.
    pub fn keeps(&self, id: ResId) -> bool
        ensures { result ≡ keeps (pairs_of self.now.pairs.now) id.0 }
    {
        self.kept.contains(&id.0)
    }
}

fn own_ids(alloc: Global, pairs: &[(ResId, ResId)]) -> Result<BTreeSet<u32>, AllocError>
    ensures { IfOk result (AreCarried (pairs_of pairs.now)) }
{
    let mut ids = BTreeSet::new(alloc);
    for (_, own) in pairs {
        ids.insert(own.0)?;
    }
    Ok(ids)
}

fn kept_ids(alloc: Global, pairs: &[(ResId, ResId)]) -> Result<BTreeSet<u32>, AllocError>
    ensures { IfOk result (AreKept (pairs_of pairs.now)) }
{
    let mut ids = BTreeSet::new(alloc);
    for (target, own) in pairs {
        if target.0 == own.0 {
            ids.insert(own.0)?;
        }
    }
    Ok(ids)
}
