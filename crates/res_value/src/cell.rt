//! What an entry of a table holds.

use crate::map_rows::MapRows;
use crate::res_id::ResId;
use crate::value::Value;

/// What an entry holds (AOSP: what follows a `ResTable_entry`).
#[derive(Clone, Copy)]
pub enum Cell<'a> {
    /// One value.
    Plain(Value),
    /// A bag: its parent, or 0 where it has none, and its own rows (AOSP: `ResTable_map_entry`).
    Bag { parent: ResId, rows: MapRows<'a> },
}
