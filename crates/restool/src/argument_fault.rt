//! What is wrong with a word of an argument.

ghost use Rattle.std.specs.Prelude.{◌≡◌};
ghost use Rattle.restool.specs.declared.argument_fault.ArgumentFault.TheVariants.{OutOfMemory};

use std::alloc::{AllocError, AllocFailed};

/// Why the words of a command's arguments ask for nothing that can be done.
#[derive(Clone, Copy)]
pub enum ArgumentFault<'a> {
    /// This word names no rule of locales.
    BadRule(&'a str),
    /// This word asks for no resource, or for no goal where goals are asked.
    BadId(&'a str),
    OutOfMemory,
}

impl<T: Drop> From<AllocFailed<T>> for ArgumentFault<'_> {
    ghost from_gives = { λ _ e. e ≡ OutOfMemory };

    fn from(_error: AllocFailed<T>) -> Self {
        ArgumentFault::OutOfMemory
    }
}

impl From<AllocError> for ArgumentFault<'_> {
    ghost from_gives = { λ _ e. e ≡ OutOfMemory };

    fn from(_error: AllocError) -> Self {
        ArgumentFault::OutOfMemory
    }
}
