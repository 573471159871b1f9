//! Bags as they are found, and their parents.

ghost use Rattle.std.specs.Prelude.{◌≡◌};

use crate::bag_fault::BagFault;
use reference_resolver::{Cand, Cell, Device, MapRows, ResId, Stack, select};

/// A bag that was selected. What it lends is lent from the bytes of its table.
#[derive(Clone, Copy)]
pub(crate) struct FoundBag<'a> {
    /// The index of its layer in the stack.
    pub layer: usize,
    /// The id of its parent, or 0 where it has none.
    pub parent: ResId,
    /// Its own rows.
    pub rows: MapRows<'a>,
}

impl<'a> FoundBag<'a> {
    ghost use Rattle.std.specs.Option.{option_map};
    ghost use Rattle.reference_resolver.specs.config_record.DeviceSeen.{device_numbers};
    ghost use Rattle.reference_resolver.specs.overlay_map.Candidates.{cand_of};
    ghost use Rattle.reference_resolver.specs.Selection.{selected};
    ghost use Rattle.bags_themes.specs.Bag.{bag_in, parent_of};
    ghost use Rattle.bags_themes.specs.FoundBag.{found_bag_of, seen_bag};

    /// The bag that an id selects.
    pub fn select(stack: &Stack<'a>, id: ResId, device: &Device) -> Result<FoundBag<'a>, BagFault>
        ensures { seen_bag result ≡ bag_in (selected stack.now id.0 (device_numbers device.now)) }
    {
        FoundBag::of(&select(stack, id, device))
    }

    /// The bag that was selected.
    pub fn of(best: &Option<Cand<'a>>) -> Result<FoundBag<'a>, BagFault>
        ensures { seen_bag result ≡ bag_in (option_map cand_of best.now) }
    {
        let Some(candidate) = best else {
            return Err(BagFault::Absent);
        };
        match candidate.row.cell {
            Cell::Plain(_) => Err(BagFault::Plain),
            Cell::Bag { parent, rows } => Ok(FoundBag {
                layer: candidate.layer,
                parent,
                rows,
            }),
        }
    }

    /// Its parent, where its id selects a bag.
    pub fn parent(&self, stack: &Stack<'a>, device: &Device) -> Option<FoundBag<'a>>
        ensures { option_map found_bag_of result ≡ parent_of stack.now (found_bag_of self.now) (device_numbers device.now) }
    {
        if self.parent.0 == 0 {
            return None;
        }
        FoundBag::select(stack, self.parent, device).ok()
    }
}

/// A bag without a parent and without rows, for the free places of a short list.
impl Default for FoundBag<'_> {
    fn default() -> Self {
        FoundBag {
            layer: 0,
            parent: ResId(0),
            rows: MapRows::within(0, &[]),
        }
    }
}
