//! Why no certificate was read.

ghost use Rattle.std.specs.Prelude.{◌≡◌};
ghost use Rattle.json_input.specs.Fault.{fault_of_text};
ghost use Rattle.cert_tree.specs.declared.cert_fault.CertFault.TheVariants.{Syntax, OutOfMemory};

use json_input::JsonFault;
use json_tokens::Malformed;
use std::alloc::{AllocError, AllocFailed};
use std::fmt::{self, Debug, Display, Formatter};
use thiserror::Error;

/// Why no certificate was read. A text is first read; then it has to be an object, then its version is
/// looked at, then the shape of the whole; then goal by goal its shape, how many nodes there are with it, and its nodes. The first
/// fault is named.
#[derive(Clone, Copy, Error)]
pub enum CertFault {
    /// The bytes are no JSON text that `serde_json` reads.
    #[error("Syntax")]
    Syntax,
    /// The version is missing, or is neither the number 1 nor 2.
    #[error("Version")]
    Version,
    /// A goal, and its node that has none of the shapes, both counted from 0. Where the goal itself has
    /// not its shape the node is 0; where the certificate has not, both are.
    #[error("Shape {0} {1}")]
    Shape(usize, usize),
    /// The goals up to one of them have more than 1,000,000 nodes together.
    #[error("TooManyNodes")]
    TooManyNodes,
    #[error("OutOfMemory")]
    OutOfMemory,
}

/// By its text.
impl Debug for CertFault {
    fn fmt<W: fmt::Write>(&self, f: &mut Formatter<W>) -> fmt::Result {
        Display::fmt(self, f)
    }
}

impl From<JsonFault> for CertFault {
    ghost from_gives = { λ fault e. e ≡ fault_of_text Syntax OutOfMemory fault };

    fn from(fault: JsonFault) -> CertFault {
        match fault {
            JsonFault::Syntax => CertFault::Syntax,
            JsonFault::OutOfMemory => CertFault::OutOfMemory,
        }
    }
}

impl From<Malformed> for CertFault {
    ghost from_gives = { λ _ e. e ≡ Syntax };

    fn from(_malformed: Malformed) -> CertFault {
        CertFault::Syntax
    }
}

impl From<AllocError> for CertFault {
    ghost from_gives = { λ _ e. e ≡ OutOfMemory };

    fn from(_error: AllocError) -> CertFault {
        CertFault::OutOfMemory
    }
}

impl<T: Drop> From<AllocFailed<T>> for CertFault {
    ghost from_gives = { λ _ e. e ≡ OutOfMemory };

    fn from(_error: AllocFailed<T>) -> CertFault {
        CertFault::OutOfMemory
    }
}
