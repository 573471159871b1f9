//! The rows of merged bags, and the values that they set for attributes.
//!
//! For the crates above: `merge` gives what the rows of a bag become together with those that it inherits, each with the
//! layer that it came from (`merge` of `specs/Merge.antt`), and a `ThemeValue` says whether it is undefined
//! (`is_undefined_value`).
//!
//! ```text
//! let rows = merge(alloc, &inherited, layer, own)?;
//! for row in rows.as_slice() {
//!     let set = ThemeValue { layer: row.layer, value: row.value };
//!     set.is_undefined(); // null, but not empty
//! }
//! ```
#![tactic(auto)]

mod bag_row;
mod merging;
mod theme_value;

pub use bag_row::BagRow;
pub use merging::merge;
pub use theme_value::ThemeValue;
