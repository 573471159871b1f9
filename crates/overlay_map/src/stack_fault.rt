//! Why a layer is refused.

use std::fmt::{self, Debug, Display, Formatter};
use thiserror::Error;

/// Why a layer was not pushed.
#[derive(Clone, Copy, Error)]
pub enum StackFault {
    /// 64 layers stand already.
    #[error("TooManyLayers")]
    TooManyLayers,
    #[error("OutOfMemory")]
    OutOfMemory,
}

/// By its text.
impl Debug for StackFault {
    fn fmt<W: fmt::Write>(&self, f: &mut Formatter<W>) -> fmt::Result {
        Display::fmt(self, f)
    }
}
