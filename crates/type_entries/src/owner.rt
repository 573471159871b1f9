//! Which package something is of.

/// The package that a type stands in.
#[derive(Clone, Copy)]
pub struct Owner {
    pub id: u8,
    /// How many packages of the table stand before it.
    pub index: usize,
}
