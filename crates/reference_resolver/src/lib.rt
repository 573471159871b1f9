//! Which candidate does a device select for an id, and where do the references of an id end?
//!
//! For the crates above: `select` is the last of an id's candidates that takes over, each from the one
//! before it; where of any two that match exactly one is better, it is that best one in whatever order
//! they stand. `resolve` is the end of the chain of look-ups that begins at an id, in which at most twenty
//! references are followed. `Decision` says what a candidate does and why, and `Next` where a look-up leads.
//! Nothing here takes memory.
//!
//! ```text
//! let picked = select(&stack, id, &device);
//! if let End::Value { layer, value } = resolve(&stack, id, &device) {
//!     write_value(value, &mut out)?;
//! }
//! ```
#![tactic(auto)]

mod decision;
mod end;
mod next;
mod references;
mod selection;
mod step;

pub use config_precedence::{Coord, Device, Locale, Record};
pub use decision::Decision;
pub use end::End;
pub use next::{Next, is_reference};
pub use overlay_map::{
    Cand, Cell, ContentKeys, Contents, DeviceFault, IdMap, MOST_LAYERS, MapFault, MapRows, Package,
    PackageRows, Pool, PoolFault, ResId, Row, Stack, StackFault, Table, TableFault, Value, kind,
};
pub use references::{REFERENCES_FOLLOWED, resolve, resolve_within};
pub use selection::{Pick, picked_at, select};
pub use step::Step;
