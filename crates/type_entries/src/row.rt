//! Rows.

use config_record::Record;
use res_value::{Cell, ResId};

/// An entry of a type chunk (AOSP: `ResTable_entry`) with what it inherits from its chunk, spec and
/// package. What it lends is lent from the bytes of the table.
#[derive(Clone, Copy)]
pub struct Row<'a> {
    pub id: ResId,
    /// The configuration that the row is for.
    pub config: Record<'a>,
    pub cell: Cell<'a>,
    /// The flags of the type spec for this entry: which qualifiers vary, and whether it is public.
    pub flags: u32,
    /// The index of the entry's name among the package's names of entries.
    pub key: u32,
    /// The index of the package among the table's packages.
    pub package: usize,
}
