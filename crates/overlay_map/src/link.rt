//! A link of the rows of an id.

/// A row of an id, and the link to the next row of that id.
#[derive(Clone, Copy)]
pub(crate) struct Link {
    /// The number of its type among the types of the table. The id says the index of its entry there.
    pub(crate) type_number: u32,
    /// How many links further the next row of the id is; 0 at its last row.
    pub(crate) next: u32,
}
