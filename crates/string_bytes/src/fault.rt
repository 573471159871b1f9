//! Why a string is refused.

use std::fmt::{self, Debug, Display, Formatter};
use thiserror::Error;

/// Why there is no string or style at an index. Of several faults the first on the way through its
/// bytes is named.
#[derive(Clone, Copy, Error)]
pub enum StringFault {
    /// The pool has fewer strings, or styles.
    #[error("NoSuch")]
    NoSuch,
    /// A length, a text, the zero that closes it, or a span does not fit.
    #[error("Cut")]
    Cut,
    /// The text is not closed by a zero.
    #[error("NotEnded")]
    NotEnded,
}

/// By its text.
impl Debug for StringFault {
    fn fmt<W: fmt::Write>(&self, f: &mut Formatter<W>) -> fmt::Result {
        Display::fmt(self, f)
    }
}
