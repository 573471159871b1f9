//! Reads the types of a package: each entry of each type is checked, and of each type its place is kept.
//!
//! For the crates above: `types_of_children` gives the types of a package, whose rows are those that the
//! chunks in it spell, or the first fault with its place; `PackageTypes::types` gives each type with its rows.
//!
//! ```text
//! let types = types_of_children(alloc, Owner { id: 0x7f, index: 0 }, &package)?;
//! for checked in types.types() {
//!     println!(rt; "type {} has indexes below {}", checked.id(), checked.counted_entries())?;
//! }
//! ```
//!
//! A package holds type specs and types, and what stands in a type is read by `type_entries`. Which type spec a type belongs
//! to is said in `specs/LastSpec.antt`, and what rows a package has, and which fault is the first, in
//! `specs/PackageChildren.antt`.
#![tactic(auto)]

mod known_specs;
mod layout;
mod package_children;
mod package_types;
mod type_place;
mod types;

pub use package_children::types_of_children;
pub use package_types::PackageTypes;
pub use string_pool::{ALIGNMENT, Chunk, ChunkFault, Pool, PoolFault, StringFault, Text};
pub use type_entries::{
    Cell, CheckedType, DeviceFault, MapRows, Owner, ResId, Row, TableFault, TypeRows, Value, kind,
};
pub use types::Types;
