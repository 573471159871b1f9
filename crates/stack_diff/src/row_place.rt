//! Where a row stands in a stack.

/// Where a row stands in a stack. It is told by this and not by its content: of two rows that are equal a device loads one.
#[derive(Clone, Copy)]
pub struct RowPlace {
    /// The index of its layer, from 0.
    pub layer: usize,
    /// Its place among the rows of the table, in the order of the file.
    pub place: usize,
}
