//! The value of some bytes.

ghost use Rattle.std.specs.Prelude.{ok_or};
ghost use Rattle.contract_words.specs.Exact.{GivesOr};
ghost use Rattle.serde_json.specs.View.{view};
ghost use Rattle.json_input.specs.Json.{value_of};
ghost use Rattle.json_input.specs.declared.value.JsonFault.TheVariants.{Syntax, OutOfMemory};

use serde_json::Value;
use std::alloc::Global;
use std::fmt::{self, Debug, Display, Formatter};
use thiserror::Error;

/// Why no value was read.
#[derive(Clone, Copy, Error)]
pub enum JsonFault {
    /// The bytes are no JSON text that `serde_json` reads.
    #[error("Syntax")]
    Syntax,
    #[error("OutOfMemory")]
    OutOfMemory,
}

/// By its text.
impl Debug for JsonFault {
    fn fmt<W: fmt::Write>(&self, f: &mut Formatter<W>) -> fmt::Result {
        Display::fmt(self, f)
    }
}

/// Reads the value of a JSON text.
#[tactic(auto, using(crate::proofs::ValueLemmas::readings))]
pub fn read_value(alloc: Global, bytes: &[u8]) -> Result<Value, JsonFault>
    ensures { GivesOr OutOfMemory view result (ok_or (value_of bytes.now) Syntax) }
{
    match Value::from_slice(alloc, bytes) {
        Ok(value) => Ok(value),
        Err(error) if error.is_memory() => Err(JsonFault::OutOfMemory),
        Err(_) => Err(JsonFault::Syntax),
    }
}
