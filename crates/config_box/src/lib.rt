//! Boxes of devices: for each of the 25 coordinates a range of numbers, or a choice of values. A box is
//! read from JSON, is split into halves by tests of one coordinate, and answers two questions for all
//! its members at once: does a record match, and is one record better than another? Two boxes are
//! joined where they make one box together.
//!
//! For the crates above: a box is the list of its 25 sets, none of them empty and each in its
//! coordinate's range; a device is a member where each of its numbers lies in the set at its
//! coordinate (`IsMember` of `box_answers`). The halves of a split share with the box what did not
//! change. No box of a list that was joined has a device that none of the list had, and exactly one has it where
//! exactly one had it (`HasNone` and `HasOnce`), and there are no more boxes than before. Where boxes without a
//! common device differ by ranges of one coordinate alone, no two of the result make one; where by choices of at
//! most 512 values together, the result is one box (`IsLeast`).
//!
//! ```text
//! let phones = ConfigBox::read(alloc, b"{\"density\":{\"from\":120,\"to\":640}}")?;
//! match phones.better_all(&candidate, &best) {
//!     Sameness::Always => .., // at all densities from 120 to 640
//!     Sameness::Never => ..,
//!     Sameness::Mixed(yes, no, coord) => .., // two densities side by side
//! }
//! // three boxes, alike but at two coordinates: de, sdk 26 to 30; de, sdk 31 to 34; fr, sdk 26 to 34
//! join_boxes(alloc, boxes)? // one: de and fr, sdk 26 to 34
//! ```
#![tactic(auto)]

mod box_fault;
mod choice;
mod config_box;
mod half;
mod joined_boxes;
mod joined_sets;
mod order;
mod read;
mod split;
mod test;
mod values;
mod written;

pub use box_answers::{Coord, Locale, LocaleRule, MemberPair, Sameness};
pub use box_fault::BoxFault;
pub use config_box::ConfigBox;
pub use joined_boxes::join_boxes;
pub use split::{OutOfMemory, Split};
pub use test::{Choice, Test};
pub use values::Values;
