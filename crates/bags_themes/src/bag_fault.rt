//! Why there is no bag.

ghost use Rattle.std.specs.Prelude.{◌≡◌};
ghost use Rattle.bags_themes.specs.declared.bag_fault.BagFault.TheVariants.{OutOfMemory};

use std::alloc::{AllocError, AllocFailed};
use std::fmt::{self, Debug, Display, Formatter};
use thiserror::Error;

/// Why there is no bag to give. What the id selects is looked at before its parents are.
#[derive(Clone, Copy, Error)]
pub enum BagFault {
    /// The id selects nothing.
    #[error("Absent")]
    Absent,
    /// The id selects a value.
    #[error("Plain")]
    Plain,
    /// There are more than 64 parents, one above the other.
    #[error("BagDepth")]
    BagDepth,
    #[error("OutOfMemory")]
    OutOfMemory,
}

/// By its text.
impl Debug for BagFault {
    fn fmt<W: fmt::Write>(&self, f: &mut Formatter<W>) -> fmt::Result {
        Display::fmt(self, f)
    }
}

impl From<AllocError> for BagFault {
    ghost from_gives = { λ _ e. e ≡ OutOfMemory };

    fn from(_error: AllocError) -> BagFault {
        BagFault::OutOfMemory
    }
}

impl<T: Drop> From<AllocFailed<T>> for BagFault {
    ghost from_gives = { λ _ e. e ≡ OutOfMemory };

    fn from(_error: AllocFailed<T>) -> BagFault {
        BagFault::OutOfMemory
    }
}
