//! What can go wrong with the word of a goal.

ghost use Rattle.std.specs.Prelude.{◌≡◌};
ghost use Rattle.res_value.specs.declared.goal_fault.GoalFault.TheVariants.{OutOfMemory};

use std::alloc::{AllocError, AllocFailed};
use std::fmt::{self, Debug, Display, Formatter};
use thiserror::Error;

/// Why a word asks for no goal.
#[derive(Clone, Copy, Error)]
pub enum GoalFault {
    #[error("Malformed")]
    Malformed,
    #[error("OutOfMemory")]
    OutOfMemory,
}

/// By its text.
impl Debug for GoalFault {
    fn fmt<W: fmt::Write>(&self, f: &mut Formatter<W>) -> fmt::Result {
        Display::fmt(self, f)
    }
}

impl From<AllocError> for GoalFault {
    ghost from_gives = { λ _ e. e ≡ OutOfMemory };

    fn from(_error: AllocError) -> GoalFault {
        GoalFault::OutOfMemory
    }
}

impl<T: Drop> From<AllocFailed<T>> for GoalFault {
    ghost from_gives = { λ _ e. e ≡ OutOfMemory };

    fn from(_error: AllocFailed<T>) -> GoalFault {
        GoalFault::OutOfMemory
    }
}
