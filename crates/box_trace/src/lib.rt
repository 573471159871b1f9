//! The trace of an id, of an attribute under styles, or of what an id says, for all members of a box at once: what each
//! candidate of the look-ups does, and where they end. The candidates are gone through in turn, and each question about
//! one is asked of all members: does it match, and does it take over from the best before it? No member is tried by
//! itself. What comes after a look-up is the same for all, and is asked of its course (`bags_themes`).
//!
//! For the crates above: `OpenBox::common_trace` gives the end of the one trace that all members have, or where they
//! part: the first question that members answer differently, and two of them side by side with different traces. A part
//! of the box goes on from there. `OpenBox::weightiest_parting` tells another question, about a candidate ahead, for
//! small trees. `Live` has the candidates that matter to a box.
//!
//! ```text
//! let mut phones = OpenBox::whole(alloc, &stack, id, phones)?;
//! match phones.common_trace(alloc, &stack)? {
//!     CommonTrace::One(end) => .., // where the references of the id end for every phone
//!     CommonTrace::Mixed(parting) => .., // parting.pair: two phones with different traces
//! }
//! ```
#![tactic(auto)]

mod common;
mod halving;
mod known;
mod live;
mod open_box;
mod open_boxes;
mod open_condition;
mod parting;
mod step;
mod waiting;
mod walk;
mod weight;

pub use bags_themes::{Cand, Device, End, MOST_LAYERS, ResId, Stack};
pub use common::CommonTrace;
pub use config_box::{ConfigBox, Coord, Locale, MemberPair, OutOfMemory, Values};
pub use halving::Halving;
pub use live::Live;
pub use open_box::OpenBox;
pub use open_boxes::OpenBoxes;
pub use parting::{Asked, Parting};
