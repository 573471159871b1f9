//! Why no box was read.

ghost use Rattle.std.specs.Prelude.{◌≡◌};
ghost use Rattle.json_input.specs.Fault.{fault_of_text};
ghost use Rattle.config_box.specs.declared.box_fault.BoxFault.TheVariants.{Syntax, OutOfMemory};

use box_answers::Coord;
use json_input::JsonFault;
use json_tokens::Malformed;
use std::alloc::{AllocError, AllocFailed};
use std::fmt::{self, Debug, Display, Formatter};
use thiserror::Error;

/// Why no box was read. A text is first read, then its shape is looked at; then the coordinates are checked in
/// their order, and the first fault is named. At one coordinate the faults are looked for in the order of this
/// list, each in the whole of what is listed there.
#[derive(Clone, Copy, Error)]
pub enum BoxFault {
    /// The bytes are no JSON text that `serde_json` reads.
    #[error("Syntax")]
    Syntax,
    /// The value is no object, has a member that is no coordinate, or one that is neither a list nor a range
    /// of whole numbers of 64 bits without a sign; at the locale, no list of texts.
    #[error("Shape")]
    Shape,
    /// A list without items, or a range whose first number is above its last.
    #[error("Empty {0}")]
    Empty(Coord),
    /// More than 512 items, counted as they are written.
    #[error("TooMany {0}")]
    TooMany(Coord),
    /// A number is above the greatest of its coordinate, or a text is no locale.
    #[error("FieldRange {0}")]
    FieldRange(Coord),
    /// A locale is a region without a language.
    #[error("RegionAlone")]
    RegionAlone,
    /// The density is missing, or one is not of 1 to 32767.
    #[error("Density")]
    Density,
    #[error("OutOfMemory")]
    OutOfMemory,
}

/// By its text.
impl Debug for BoxFault {
    fn fmt<W: fmt::Write>(&self, f: &mut Formatter<W>) -> fmt::Result {
        Display::fmt(self, f)
    }
}

impl From<JsonFault> for BoxFault {
    ghost from_gives = { λ fault e. e ≡ fault_of_text Syntax OutOfMemory fault };

    fn from(fault: JsonFault) -> BoxFault {
        match fault {
            JsonFault::Syntax => BoxFault::Syntax,
            JsonFault::OutOfMemory => BoxFault::OutOfMemory,
        }
    }
}

impl From<Malformed> for BoxFault {
    ghost from_gives = { λ _ e. e ≡ Syntax };

    fn from(_malformed: Malformed) -> BoxFault {
        BoxFault::Syntax
    }
}

impl From<AllocError> for BoxFault {
    ghost from_gives = { λ _ e. e ≡ OutOfMemory };

    fn from(_error: AllocError) -> BoxFault {
        BoxFault::OutOfMemory
    }
}

impl<T: Drop> From<AllocFailed<T>> for BoxFault {
    ghost from_gives = { λ _ e. e ≡ OutOfMemory };

    fn from(_error: AllocFailed<T>) -> BoxFault {
        BoxFault::OutOfMemory
    }
}
