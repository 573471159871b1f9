//! A bag with its parents.

ghost use Rattle.contract_words.specs.Exact.{GivesOr};
ghost use Rattle.reference_resolver.specs.config_record.DeviceSeen.{device_numbers};
ghost use Rattle.bags_themes.specs.Bag.{chain_of};
ghost use Rattle.bags_themes.specs.FoundBag.{found_bag_of, found_bags_of};
ghost use Rattle.bags_themes.specs.declared.bag_fault.BagFault.TheVariants.{OutOfMemory};

use crate::bag_fault::BagFault;
use crate::found_bag::FoundBag;
use reference_resolver::{Device, Stack};
use smallvec::SmallVec;
use std::alloc::Global;

/// Bags that were found, one above the other. Few chains have more than eight; these take no memory.
type FoundBags<'a> = SmallVec<FoundBag<'a>, 8>;

/// A bag, its parent, and so on to the topmost one; there may be so many parents.
pub(crate) fn with_parents<'a>(
    alloc: Global,
    stack: &Stack<'a>,
    bag: FoundBag<'a>,
    device: &Device,
    most: u8,
) -> Result<FoundBags<'a>, BagFault>
    ensures { GivesOr OutOfMemory (λ chain. found_bags_of chain.items) result
        (chain_of stack.now most (found_bag_of bag.entry) (device_numbers device.now)) }
{
    let mut chain = FoundBags::new(alloc);
    let mut bag = bag;
    let mut left = most;
    'chain: loop {
        chain.push(bag)?;
        let Some(parent) = bag.parent(stack, device) else {
            return Ok(chain);
        };
        if left == 0 {
            return Err(BagFault::BagDepth);
        }
        bag = parent;
        left -= 1;
    }
}
