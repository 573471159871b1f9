//! Bags, with the rows that they inherit from their parents, and themes, to which bags are applied as styles.
//!
//! For the crates above: `bag` gives the rows of a bag merged into those of its parents, each with the layer that
//! it came from, or why there are none. A `Theme` is a finite map from attributes to values; `apply` sets
//! what the rows of a style set, or leaves the theme unchanged, and `attribute` gives where an attribute ends.
//! `attribute_under` gives the one end of an attribute under styles. A `Course` says what comes after each look-up on
//! the way of an id, of an attribute under styles, or of what an id says: these look-ups, with what their candidates do,
//! and the end are its trace.
//!
//! ```text
//! let rows = bag(alloc, &stack, id, &device)?;
//! for row in rows.as_slice() {
//!     write_value(row.value, &mut out)?;
//! }
//! let mut theme = Theme::new(alloc);
//! theme.apply(&stack, style, true, &device)?;
//! if let End::Value { layer, value } = theme.attribute(&stack, attr, &device) {
//!     write_value(value, &mut out)?;
//! }
//! ```
#![tactic(auto)]

mod attribute_values;
mod bag_fault;
mod bag_ids;
mod bags;
mod content_course;
mod course;
mod found_bag;
mod merged_rows;
mod parents;
mod slot;
mod style_course;
mod theme;

pub use bag_fault::BagFault;
pub use bag_ids::Chain;
pub use bag_rows::BagRow;
pub use bags::{bag, chain};
pub use course::{Course, CourseStep, attribute_under};
pub use merged_rows::BagRows;
pub use reference_resolver::{
    Cand, Cell, Coord, Decision, Device, DeviceFault, End, IdMap, MOST_LAYERS, MapFault, MapRows,
    Next, Package, PackageRows, Pool, PoolFault, REFERENCES_FOLLOWED, Record, ResId, Row, Stack,
    StackFault, Step, Table, TableFault, Value, kind,
};
pub use slot::Slot;
pub use style_course::StyleCourse;
pub use theme::Theme;
