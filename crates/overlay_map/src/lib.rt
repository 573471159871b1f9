//! Reads resource tables and stacks them. Opening a table checks all of it but its strings, and gives its packages with
//! their rows in the order of the file. An index of these rows by their id makes a look-up go to the rows of its id alone,
//! without a walk over other rows, types or packages. A layer of a stack is the table of an app, or that of an overlay;
//! then an id map says which of its ids stand for which of the stack's. The rows that may stand for an id are its
//! candidates.
//!
//! For the crates above: a `Table` is the list of its packages with their rows and names, and the strings of its values;
//! `Table::open` gives those that the bytes spell, or the first fault with its place; `rows(id)` is the rows of an id,
//! `all_rows` all, and `find` gives the id of the first row that has two names. An `IndexedTable` is its table, and its
//! `rows(id)` gives what `Table::rows` does. A `Stack` is the list of its layers, at most 64, the later over the earlier;
//! `candidates(id)` are the rows that may stand for an id, layer by layer and in the order of each file; an `IdMap` is the
//! list of pairs that its JSON text means, and `look` gives the id of a target.
//!
//! A file is a table chunk, which holds packages and a pool of strings; what stands in a package is read by
//! `type_chunks`. What packages and rows these are, and which fault is the first, is said in `specs/Table.antt`
//! and `specs/Package.antt`.
//!
//! A file chooses the ids of a map. So the keys for its hashes are made of all of them, by a digest that goes one way:
//! `Contents` takes the ids one by one, and `ContentKeys` makes the hashers. Whoever writes the file cannot foresee where
//! an id is looked for, nothing is asked of the system, and the same ids have the same keys.
//!
//! ```text
//! let table = Table::open(alloc, &bytes)?;
//! for row in table.all_rows() {
//!     println!(rt; "{:#010x} of type {}", row.id.0, row.id.type_id())?;
//! }
//! let mut stack = Stack::new(alloc);
//! if let Err((fault, table)) = stack.push_base(table) {
//!     // the stack is as it was, and the table is back
//! }
//! if let Err((fault, table, map)) = stack.push_overlay(overlay, map) {
//!     // so is the overlay's, with its id map
//! }
//! for candidate in stack.candidates(ResId(0x7f010000)) {
//!     println!(rt; "layer {}", candidate.layer)?;
//! }
//! ```
#![tactic(auto)]

mod base_row;
mod candidate;
mod candidates;
mod checked_pairs;
mod content_keys;
mod contents;
mod heads;
mod id_map;
mod indexed_rows;
mod indexed_table;
mod known_children;
mod layer;
mod layout;
mod link;
mod map_fault;
mod names;
mod package;
mod package_header;
mod package_rows;
mod pairs;
mod pool;
mod row_places;
mod rows;
mod stack;
mod stack_fault;
mod table;

pub use base_row::BaseRow;
pub use candidate::Cand;
pub use candidates::Cands;
pub use content_keys::ContentKeys;
pub use contents::Contents;
pub use id_map::IdMap;
pub use indexed_rows::IndexedRows;
pub use indexed_table::IndexedTable;
pub use map_fault::MapFault;
pub use package::Package;
pub use package_rows::PackageRows;
pub use rows::{AllRows, Rows};
pub use stack::{MOST_LAYERS, Stack};
pub use stack_fault::StackFault;
pub use table::Table;
pub use type_chunks::{
    Cell, CheckedType, DeviceFault, MapRows, Pool, PoolFault, ResId, Row, TableFault, Value, kind,
};
