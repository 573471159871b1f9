//! Where something was found.

use res_value::ResId;

/// Where something was found: the place of a chunk in its file, or the id of a row.
#[derive(Clone, Copy)]
pub(crate) enum Site {
    Chunk(usize),
    Row(ResId),
}
