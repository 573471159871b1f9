//! Why a pool is refused.

use std::fmt::{self, Debug, Display, Formatter};
use thiserror::Error;

/// What is wrong with a pool. Of several faults the first of this list is named.
#[derive(Clone, Copy, Error)]
pub enum PoolFault {
    /// The header has fewer than 28 bytes.
    #[error("HeaderSize")]
    HeaderSize,
    /// The offsets of strings and styles do not fit behind the header.
    #[error("Offsets")]
    Offsets,
    /// The styles start behind the chunk's end, or the strings behind theirs.
    #[error("Start")]
    Start,
}

/// By its text.
impl Debug for PoolFault {
    fn fmt<W: fmt::Write>(&self, f: &mut Formatter<W>) -> fmt::Result {
        Display::fmt(self, f)
    }
}
