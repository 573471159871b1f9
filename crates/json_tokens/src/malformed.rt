//! No value stands here.

use json_input::JsonFault;

/// The text is none that `serde_json` reads.
#[derive(Clone, Copy, Debug, Drop)]
pub struct Malformed;

impl From<Malformed> for JsonFault {
    ghost use Rattle.json_tokens.specs.json_input.declared.value.JsonFault.TheVariants.{Syntax};
    ghost use Rattle.std.specs.Prelude.{◌≡◌};

    ghost from_gives = { λ _ fault. fault ≡ Syntax };

    fn from(_malformed: Malformed) -> JsonFault {
        JsonFault::Syntax
    }
}
