//! Layers, written.

ghost use Rattle.contract_words.specs.Writes.{Writes};
ghost use Rattle.answer_text.specs.LayerText.{layer_text};

use crate::named::write_named_number;
use std::io::{self, Write};

/// Writes which layer it is, by its place from 0.
#[tactic(auto, unfolding(crate::specs::LayerText::layer_text))]
pub fn write_layer<W: Write + Drop>(layer: usize, out: &mut W) -> io::Result<()>
    ensures { Writes W.contents out.old out.new result (layer_text layer) }
{
    write_named_number("layer", layer as u128, out)
}
