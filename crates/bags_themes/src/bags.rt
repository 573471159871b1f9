//! The rows of the bag of an id, and the ids that are looked up for it.

ghost use Rattle.std.specs.Prelude.{◌≡◌, ◌≤◌, length, IfOk};
ghost use Rattle.contract_words.specs.Exact.{GivesOr};
ghost use Rattle.reference_resolver.specs.config_record.DeviceSeen.{device_numbers};
ghost use Rattle.bags_themes.specs.Bag.{bag_of, merged};
ghost use Rattle.bags_themes.specs.BagIds.{bag_ids};
ghost use Rattle.bags_themes.specs.FoundBag.{found_bags_of};
ghost use Rattle.bags_themes.specs.declared.bag_fault.BagFault.TheVariants.{OutOfMemory};

use crate::bag_fault::BagFault;
use crate::bag_ids::Chain;
use crate::found_bag::FoundBag;
use crate::merged_rows::BagRows;
use crate::parents::with_parents;
use bag_rows::{BagRow, merge};
use reference_resolver::{Device, ResId, Stack};
use std::alloc::{AllocError, Global};

// The most parents that a bag can have, one above the other.
const MOST_PARENTS: u8 = 64;

/// The most bags of a chain: a bag and its parents.
pub(crate) const MOST_BAGS: u8 = MOST_PARENTS + 1;

/// The rows of the bag that an id selects, merged into those of its parents (AOSP:
/// `ResTable::getBagLocked`): in file order, each own row goes after the inherited rows of smaller names that are
/// left, and replaces the next one if that has its name. Parents are found by selection alone. Refused where the id
/// selects nothing or a value, and where there are more than 64 parents.
#[tactic(auto, unfolding(crate::specs::Bag::bag_of))]
pub fn bag(
    alloc: Global,
    stack: &Stack<'_>,
    id: ResId,
    device: &Device,
) -> Result<BagRows, BagFault>
    ensures { GivesOr OutOfMemory (λ rows. rows) result
        (bag_of stack.now id.0 (device_numbers device.now)) }
{
    let bag = FoundBag::select(stack, id, device)?;
    let chain = with_parents(alloc, stack, bag, device, MOST_PARENTS)?;
    let rows = merged(alloc, chain.as_slice())?;
    Ok(BagRows { rows })
}

/// The ids that `bag` looks up, in their order: that of the bag, and that of each parent, to the one that the 64th
/// parent names.
#[tactic(auto, using(crate::proofs::BagIdSteps::bag_ids_few))]
pub fn chain<'s, 'a>(stack: &'s Stack<'a>, id: ResId, device: &'s Device) -> Chain<'s, 'a>
    ensures value { result ≡ bag_ids stack.now id.0 (device_numbers device.now) }
    ensures few { length result ≤ 66 }
{
    Chain {
        stack,
        device,
        next: Some(id),
        left: MOST_BAGS,
    }
}

/// The rows of a bag and its parents, from the topmost parent down.
pub(crate) fn merged(alloc: Global, chain: &[FoundBag<'_>]) -> Result<Vec<BagRow>, AllocError>
    ensures { IfOk result (λ rows. rows.items ≡ merged (found_bags_of chain.now)) }
{
    let mut rows = Vec::new(alloc);
    let mut left = chain.len();
    'bags: while left > 0 {
        left -= 1;
        let bag = chain[left];
        rows = merge(alloc, &rows, bag.layer, bag.rows)?;
    }
    Ok(rows)
}
