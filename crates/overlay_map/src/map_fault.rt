//! Why an id map is refused.

ghost use Rattle.std.specs.Prelude.{◌≡◌};
ghost use Rattle.json_input.specs.Fault.{fault_of_text};
ghost use Rattle.overlay_map.specs.declared.map_fault.MapFault.TheVariants.{Syntax, OutOfMemory};

use json_input::JsonFault;
use json_tokens::Malformed;
use std::alloc::{AllocError, AllocFailed};
use std::fmt::{self, Debug, Display, Formatter};
use thiserror::Error;
use type_chunks::ResId;

/// Why no id map was read. A text is first read, then its shape is looked at; then the pairs are checked
/// in their order, and the first fault is named.
#[derive(Clone, Copy, Error)]
pub enum MapFault {
    /// The bytes are no JSON text that `serde_json` reads.
    #[error("Syntax")]
    Syntax,
    /// The value is no list of pairs of ids.
    #[error("Shape")]
    Shape,
    /// This target stands in an earlier pair too.
    #[error("Repeated {:#010x}", .0.0)]
    Repeated(ResId),
    /// This target is of another package than the first pair's.
    #[error("OtherPackage {:#010x}", .0.0)]
    OtherPackage(ResId),
    #[error("OutOfMemory")]
    OutOfMemory,
}

/// By its text.
impl Debug for MapFault {
    fn fmt<W: fmt::Write>(&self, f: &mut Formatter<W>) -> fmt::Result {
        Display::fmt(self, f)
    }
}

impl From<JsonFault> for MapFault {
    ghost from_gives = { λ fault e. e ≡ fault_of_text Syntax OutOfMemory fault };

    fn from(fault: JsonFault) -> MapFault {
        match fault {
            JsonFault::Syntax => MapFault::Syntax,
            JsonFault::OutOfMemory => MapFault::OutOfMemory,
        }
    }
}

impl From<Malformed> for MapFault {
    ghost from_gives = { λ _ e. e ≡ Syntax };

    fn from(_malformed: Malformed) -> MapFault {
        MapFault::Syntax
    }
}

impl From<AllocError> for MapFault {
    ghost from_gives = { λ _ e. e ≡ OutOfMemory };

    fn from(_error: AllocError) -> MapFault {
        MapFault::OutOfMemory
    }
}

impl<T: Drop> From<AllocFailed<T>> for MapFault {
    ghost from_gives = { λ _ e. e ≡ OutOfMemory };

    fn from(_error: AllocFailed<T>) -> MapFault {
        MapFault::OutOfMemory
    }
}
