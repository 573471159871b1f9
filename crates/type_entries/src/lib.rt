//! Reads one type chunk with the type spec that it belongs to: its header, its entry offsets and its entries, of which
//! each is checked, and each is no row or one row.
//!
//! For the crate above: `TypeSpec::read` and `TypeChunk::read` give what a chunk spells, or its first fault with its place;
//! `check_entries` finds the first fault of the entries of a type, and a `CheckedType`, which has none, gives their rows
//! in the order of their indexes.
//!
//! ```text
//! let spec = TypeSpec::read(&spec_chunk)?;
//! let chunk = TypeChunk::read(Owner { id: 0x7f, index: 0 }, Some(spec), &type_chunk)?;
//! check_entries(alloc, &chunk)?;
//! for row in (CheckedType { chunk }).rows() {
//!     println!(rt; "{:#010x}", row.id.0)?;
//! }
//! ```
//!
//! An entry stands where an entry offset of its type says. What rows the entries are, and which fault is the first, is
//! said of each in `specs/TypeSpec.antt`, `specs/TypeChunk.antt`, `specs/EntryOffsets.antt`, `specs/Entry.antt` and
//! `specs/Entries.antt`.
#![tactic(auto)]

mod bag_checks;
mod checked_type;
mod entry;
mod entry_check;
mod entry_flags;
mod entry_offsets;
mod fault;
mod layout;
mod owner;
mod row;
mod type_check;
mod type_chunk;
mod type_flags;
mod type_rows;
mod type_spec;

pub use checked_type::CheckedType;
pub use config_record::DeviceFault;
pub use fault::TableFault;
pub use layout::type_header;
pub use owner::Owner;
pub use res_value::{Cell, MapRows, ResId, Value, kind};
pub use row::Row;
pub use type_check::check_entries;
pub use type_chunk::TypeChunk;
pub use type_rows::TypeRows;
pub use type_spec::TypeSpec;
