//! The ids that are looked up for a bag, one after the other.

ghost use Rattle.std.specs.Prelude.{◌≡◌, ◌<◌, ◌-◌, ℕ, List, IfSome};
ghost use Rattle.std.specs.Option.{option_map};
ghost use Rattle.reference_resolver.specs.overlay_map.Candidates.{cand_of};
ghost use Rattle.reference_resolver.specs.overlay_map.Layer.{LayerOf};
ghost use Rattle.bags_themes.specs.Bag.{bag_in};
ghost use Rattle.bags_themes.specs.BagIds.{ids_after, ids_at};

use crate::found_bag::FoundBag;
use reference_resolver::{Cand, Device, ResId, Stack, select};
use std::marker::Model;

/// The ids that are left of those that are looked up for a bag. Contracts see them as a list of numbers.
#[derive(Drop)]
pub struct Chain<'s, 'a> {
    pub(crate) stack: &'s Stack<'a>,
    pub(crate) device: &'s Device,
    pub(crate) next: Option<ResId>,
    /// How many bags may still be found.
    pub(crate) left: u8,
}

impl<'s, 'a> Model for Chain<'s, 'a> {
    ghost use Rattle.std.specs.Prelude.{ℕ, List};
    ghost use Rattle.reference_resolver.specs.config_record.DeviceSeen.{device_numbers};
    ghost use Rattle.bags_themes.specs.BagIds.{ids_at};

    ghost Value = { List ℕ };

    ghost view = { λ s. ids_at s.stack.now s.left s.next (device_numbers s.device.now) };
}

impl<'s, 'a> Iterator for Chain<'s, 'a> {
    ghost use Rattle.std.specs.Iterator.{YieldsFirstBy, item_count};

    type Item = ResId;

    ghost next_gives = { YieldsFirstBy (λ id. id.0) (λ s. s) };

    ghost remaining = { item_count (λ s. s) };

    fn next(&mut self) -> Option<ResId> {
        let id = self.next?;
        self.next = parent_id(&select(self.stack, id, self.device), self.left);
        self.left = self.left.saturating_sub(1);
        Some(id)
    }
}

/// The id of the parent of the bag that was selected, if so many bags may still be found, this one among them, and it has
/// a parent.
#[tactic(auto, unfolding(crate::specs::BagIds::ids_after))]
pub(crate) fn parent_id(best: &Option<Cand<'_>>, left: u8) -> Option<ResId>
    ensures some { IfSome result (λ parent. 0 < left) }
    ensures ids { (stack : List LayerOf) (d : List ℕ) → ids_at stack (left - 1) result d
        ≡ ids_after stack left (bag_in (option_map cand_of best.now)) d }
{
    if left == 0 {
        return None;
    }
    match FoundBag::of(best) {
        Ok(bag) if bag.parent.0 != 0 => Some(bag.parent),
        _ => None,
    }
}
