//! What stacks say on the devices of a box: how two of them differ, and which rows of one no device loads.
//!
//! `difference_at` says how what an id says in one stack at a device differs from what another says in another, and nothing
//! where a device reads both alike. What a resource says is its content, of `answer_text`.
//!
//! For the crates above: `compare` answers how a resource of the new stack differs from one of the old stack. A change is a
//! difference, and boxes of devices on which it is so. A device of the box on which the two differ is in one of the boxes,
//! and in one alone; on a device that is in none they say the same. `Stacks::one` compares a stack with itself, and asks
//! no device.
//!
//! ```text
//! let old = NamedStack::of(alloc, &old_layers)?;
//! let new = NamedStack::of(alloc, &new_layers)?;
//! match difference_at(alloc, &old, old_id, &new, new_id, &device)? {
//!     Some(Difference::Rows(rows)) => .., // those of a style that differ
//!     Some(Difference::Contents { before, after }) => .., // dimension 4/2^0 dp, and dimension 3/2^0 dp
//!     None => .., // both say the same
//! }
//! let packages = PackageNames::of_both(alloc, &old_layers, &new_layers)?;
//! let stacks = Stacks::two(&old, &new, &packages);
//! match compare(alloc, stacks, old_id, new_id, &phones, 100_000)? {
//!     Some(compared) => .., // compared.changes: dimension 4/2^0 dp -> dimension 3/2^0 dp, in landscape
//!     None => .., // more nodes than the limit
//! }
//! ```
//!
//! `row_uses` tells of each row of a stack whether some device of a box loads it when an id is looked up. If none does, it
//! tells whether some device would if the overlays were not there. All devices are asked at once: of each id a box is parted
//! until all members of each part select the same candidate.
//!
//! ```text
//! let Some(uses) = row_uses(alloc, &stack, &phones, None, 1_000_000)? else { .. }; // more nodes are needed
//! for (layer, told) in uses.iter().enumerate() {
//!     // told[place] is what becomes of the row at that place of stack.layer_table(layer).all_rows()
//! }
//! ```
#![tactic(auto)]

mod all_uses;
mod change;
mod compared_with;
mod comparison;
mod difference;
mod grouped;
mod laws;
mod layer_rows;
mod loaded_rows;
mod look_up;
mod looked_up;
mod pair;
mod pair_box;
mod places;
mod row_place;
mod row_use;
mod stacks;
mod tree;
mod uses;

pub use all_uses::row_uses;
pub use answer_text::{Device, End, ResId, Stack};
pub use cert_maker::ConfigBox;
pub use change::{Change, Compared};
pub use comparison::compare;
pub use config_box::{Coord, Locale, Values};
pub use difference::{Difference, RowDifference, difference_at, difference_of_ends};
pub use laws::{difference_tells, trace_tells_content};
pub use names::{Label, NamePair, NamedStack, PackageNames, Sides};
pub use row_place::RowPlace;
pub use row_use::RowUse;
pub use stacks::Stacks;
