//! Why a list of layers is refused, and the name that says so.

ghost use Rattle.std.specs.Prelude.{◌≡◌};
ghost use Rattle.answer_text.specs.contract_words.Writes.{Writes};
ghost use Rattle.cert_tree.specs.json_input.Fault.{fault_of_text};
ghost use Rattle.command_base.specs.declared.layers_fault.LayersFault.TheVariants.{Syntax, OutOfMemory};
ghost use Rattle.command_base.specs.LayersFaultText.{layers_fault_text};

use json_input::JsonFault;
use json_tokens::Malformed;
use std::alloc::{AllocError, AllocFailed};
use std::fmt::{self, Debug, Display, Formatter};
use std::io::{self, Write};
use thiserror::Error;

/// What is wrong with a list of layers. A text is first read, then the shape of all its layers is
/// looked at; their number comes last.
#[derive(Clone, Copy, Error)]
pub enum LayersFault {
    /// The bytes are no JSON text that `serde_json` reads.
    #[error("Syntax")]
    Syntax,
    /// The value is no list, or an item is no object with a path at `table`, with a path or nothing at
    /// `map`, and without other members.
    #[error("Shape")]
    Shape,
    /// There are more than 64 layers.
    #[error("TooManyLayers")]
    TooManyLayers,
    #[error("OutOfMemory")]
    OutOfMemory,
}

/// By its text.
impl Debug for LayersFault {
    fn fmt<W: fmt::Write>(&self, f: &mut Formatter<W>) -> fmt::Result {
        Display::fmt(self, f)
    }
}

impl From<JsonFault> for LayersFault {
    ghost from_gives = { λ fault e. e ≡ fault_of_text Syntax OutOfMemory fault };

    fn from(fault: JsonFault) -> LayersFault {
        match fault {
            JsonFault::Syntax => LayersFault::Syntax,
            JsonFault::OutOfMemory => LayersFault::OutOfMemory,
        }
    }
}

impl From<Malformed> for LayersFault {
    ghost from_gives = { λ _ e. e ≡ Syntax };

    fn from(_malformed: Malformed) -> LayersFault {
        LayersFault::Syntax
    }
}

impl From<AllocError> for LayersFault {
    ghost from_gives = { λ _ e. e ≡ OutOfMemory };

    fn from(_error: AllocError) -> LayersFault {
        LayersFault::OutOfMemory
    }
}

impl<T: Drop> From<AllocFailed<T>> for LayersFault {
    ghost from_gives = { λ _ e. e ≡ OutOfMemory };

    fn from(_error: AllocFailed<T>) -> LayersFault {
        LayersFault::OutOfMemory
    }
}

/// Writes the name of a fault of a list of layers.
pub(crate) fn write_layers_fault<W: Write + Drop>(fault: LayersFault, out: &mut W) -> io::Result<()>
    ensures { Writes W.contents out.old out.new result (layers_fault_text fault) }
{
    out.write_all(name_of(fault).as_bytes())
}

#[tactic(auto, unfolding(crate::specs::LayersFaultText::layers_fault_text))]
fn name_of(fault: LayersFault) -> &'static str
    ensures { result.now ≡ layers_fault_text fault }
{
    match fault {
        LayersFault::Syntax => "Syntax",
        LayersFault::Shape => "Shape",
        LayersFault::TooManyLayers => "TooManyLayers",
        LayersFault::OutOfMemory => "OutOfMemory",
    }
}
