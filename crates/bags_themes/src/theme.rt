//! Themes.

ghost use Rattle.std.specs.Prelude.{◌≡◌, true, [], IfOk};
ghost use Rattle.contract_words.specs.Exact.{GivesOr};
ghost use Rattle.reference_resolver.specs.config_record.DeviceSeen.{device_numbers};
ghost use Rattle.bags_themes.specs.Bag.{bag_of, merged};
ghost use Rattle.bags_themes.specs.FoundBag.{found_bags_of};
ghost use Rattle.bags_themes.specs.Theme.{value_of, unset, AppliesRows, AppliesStyle};
ghost use Rattle.bags_themes.specs.Styles.{rows_of_styles, values_after_styles};
ghost use Rattle.bags_themes.specs.Attribute.{attributes_followed, slot_of, attribute_of};
ghost use Rattle.bags_themes.specs.declared.bag_fault.BagFault.TheVariants.{OutOfMemory};

use crate::attribute_values::{AttributeValues, with_rows};
use crate::bag_fault::BagFault;
use crate::bags::{bag, merged};
use crate::found_bag::FoundBag;
use crate::slot::{AttributeStep, Slot};
use bag_rows::BagRow;
use indexmap::IndexMap;
use reference_resolver::{
    Contents, Device, End, REFERENCES_FOLLOWED, ResId, Stack, resolve_within,
};
use std::alloc::{AllocError, Global};
use std::marker::Model;

// How many attributes are followed, at most.
const ATTRIBUTES_FOLLOWED: u8 = 20;

/// How many references are followed after that of a slot, at most: that is the first.
pub(crate) const REFERENCES_AFTER_SLOT: u8 = REFERENCES_FOLLOWED - 1;

/// What styles have set for attributes (AOSP: `ResTable::Theme`). Contracts see it as the list of attributes
/// with their values, by look-up alone.
#[derive(Drop)]
pub struct Theme {
    alloc: Global,
    values: AttributeValues,
}

impl Model for Theme {
    ghost use Rattle.bags_themes.specs.Theme.{ThemeOf};

    ghost Value = { ThemeOf };

    ghost view = { λ theme. theme.values.entries };
}

impl Theme {
    /// A theme that has nothing. What is applied later takes its memory from `alloc`.
    pub fn new(alloc: Global) -> Theme
        ensures { result ≡ [] }
    {
        Theme {
            alloc,
            values: IndexMap::with_hasher(alloc, Contents::new().keys()),
        }
    }

    /// A theme to which styles were applied in their order, each as `apply` does. Refused for the first style
    /// that is no bag or has too many parents.
    #[tactic(auto, using(crate::proofs::StyleSteps::style_steps))]
    pub fn of_styles(
        alloc: Global,
        stack: &Stack<'_>,
        styles: &[ResId],
        force: bool,
        device: &Device,
    ) -> Result<Theme, BagFault>
        ensures { GivesOr OutOfMemory value_of result
            (values_after_styles stack.now force styles.now unset (device_numbers device.now)) }
    {
        let rows = rows_of_styles(alloc, stack, styles, device)?;
        let unset = Theme::new(alloc);
        let values = with_rows(alloc, &unset.values, &rows, force)?;
        Ok(Theme { alloc, values })
    }

    /// Applies a style, the bag of an id, row by row (AOSP: `ResTable::Theme::applyStyle`). With `force` each row
    /// sets its attribute; without, only where this is undefined. Refused where the style is no bag or has too many
    /// parents, or where memory runs out; then the theme is unchanged.
    pub fn apply(
        &mut self,
        stack: &Stack<'_>,
        style: ResId,
        force: bool,
        device: &Device,
    ) -> Result<(), BagFault>
        ensures { AppliesStyle force self.old self.new result
            (bag_of stack.now style.0 (device_numbers device.now)) }
    {
        let rows = bag(self.alloc, stack, style, device)?;
        self.values = with_rows(self.alloc, &self.values, rows.as_slice(), force)?;
        Ok(())
    }

    /// The theme after the bags of a style's chain, merged, were applied with force.
    pub(crate) fn after_chain(&self, chain: &[FoundBag<'_>]) -> Result<Theme, AllocError>
        ensures { IfOk result (AppliesRows true (merged (found_bags_of chain.now)) self.now) }
    {
        let rows = merged(self.alloc, chain)?;
        let values = with_rows(self.alloc, &self.values, &rows, true)?;
        Ok(Theme {
            alloc: self.alloc,
            values,
        })
    }

    /// Where an attribute ends: its value, or that of the attribute that it names, and so on for twenty of them
    /// (AOSP: `ResTable::Theme::resolveAttributeReference`). A reference that is reached is the first of twenty.
    pub fn attribute(&self, stack: &Stack<'_>, attr: ResId, device: &Device) -> End
        ensures { result ≡ attribute_of stack.now (value_of self.now) attr.0 (device_numbers device.now) }
    {
        match self.slot(attr) {
            Slot::Refers(target) => resolve_within(stack, target, device, REFERENCES_AFTER_SLOT),
            Slot::Ends(end) => end,
        }
    }

    /// What an attribute reaches: the attributes that values name are followed, twenty at most, to a reference or to
    /// an end.
    pub fn slot(&self, attr: ResId) -> Slot
        ensures { result ≡ slot_of (value_of self.now) attributes_followed attr.0 }
    {
        let mut attr = attr;
        let mut left = ATTRIBUTES_FOLLOWED;
        'attributes: loop {
            match AttributeStep::of(attr, self.values.get(&attr)) {
                AttributeStep::Reaches(slot) => return slot,
                AttributeStep::Follows(target) if left == 0 => {
                    return Slot::Ends(End::TooLong { id: target });
                }
                AttributeStep::Follows(target) => attr = target,
            }
            left -= 1;
        }
    }
}

// The rows of styles, one style after the other.
fn rows_of_styles(
    alloc: Global,
    stack: &Stack<'_>,
    styles: &[ResId],
    device: &Device,
) -> Result<Vec<BagRow>, BagFault>
    ensures { GivesOr OutOfMemory (λ rows. rows.items) result
        (rows_of_styles stack.now styles.now (device_numbers device.now)) }
{
    let mut rows = Vec::new(alloc);
    for style in styles {
        let own = bag(alloc, stack, *style, device)?;
        rows.extend_from_slice(own.as_slice())?;
    }
    Ok(rows)
}
