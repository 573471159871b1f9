//! Rows of merged bags.

use res_value::{ResId, Value};

/// A row of a bag, its own or an inherited one (AOSP: `ResTable::bag_entry`).
#[derive(Clone, Copy)]
pub struct BagRow {
    /// An attribute in a style, an item's number in an array, a quantity in plurals.
    pub name: ResId,
    /// The index of the layer of the bag that the row came from. If the value is a string, it is one of that
    /// layer's table.
    pub layer: usize,
    pub value: Value,
}
