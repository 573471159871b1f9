//! Candidates.

use type_chunks::Row;

/// A row that may stand for an id, and the layer that it is of.
#[derive(Clone, Copy)]
pub struct Cand<'a> {
    /// The index of its layer in the stack, from 0.
    pub layer: usize,
    /// Whether that layer is an overlay.
    pub overlay: bool,
    pub row: Row<'a>,
}
