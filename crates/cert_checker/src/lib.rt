//! Is a certificate true for every device of a box? Its trees are gone through node by node, with a list of the
//! boxes of those paths that are still open; no device is tried by itself.
//!
//! For the crates above: `check` answers `Accepted` exactly where no rule fails, and else names the first goal, its
//! first node and the first rule that fails, with the devices that show it. Where a certificate is accepted, the
//! rules of the platform end, for every device of the box and every goal that was asked, at the value or the bag of
//! the leaf that the device reaches. `goal_end` gives where a goal ends at one device.
//!
//! ```text
//! match check(alloc, &stack, &phones, &asked, &certificate)? {
//!     Verdict::Accepted => ..,
//!     Verdict::Rejected { goal, node, rule, shown } => .., // rule.number(), rule.name()
//! }
//! ```
#![tactic(auto)]

mod checking;
mod failure;
mod goals;
mod laws;
mod leaf;
mod node;
mod one_device;
mod rule;
mod tree;
mod verdict;
mod whole_box;

pub use box_trace::{
    Cand, CommonTrace, Coord, Device, End, Halving, Live, Locale, MOST_LAYERS, OpenBox, OpenBoxes,
    Parting, Stack,
};
pub use cert_tree::{
    Cert, CertGoal, Choice, ConfigBox, Goal, Node, OutOfMemory, Progress, ResId, Split, Test,
    Unwatched, Values,
};
pub use checking::check;
pub use laws::{accepted_holds, ids_end_by_references, traces_end_by_rules};
pub use one_device::goal_end;
pub use rule::Rule;
pub use verdict::{Shown, Verdict};
pub use whole_box::goal_boxes;
