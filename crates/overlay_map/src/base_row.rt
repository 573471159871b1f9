//! The row that gives an id its name.

use crate::table::Table;
use type_chunks::Row;

/// A row of a base layer, with the table that it is of.
#[derive(Clone, Copy)]
pub struct BaseRow<'t, 'a> {
    pub table: &'t Table<'a>,
    pub row: Row<'a>,
}
