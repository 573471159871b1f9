//! Which layer a line is of.

ghost use Rattle.contract_words.specs.Writes.{Writes};
ghost use Rattle.command_base.specs.LayerMark.{layer_mark, side_mark};

use crate::side::Side;
use answer_text::write_layer;
use std::io::{self, Write};

/// Writes the place of a layer, behind the side where two stacks are compared.
#[tactic(auto, unfolding(crate::specs::LayerMark::layer_mark))]
pub(crate) fn write_layer_mark<W: Write + Drop>(
    side: Option<Side>,
    place: usize,
    out: &mut W,
) -> io::Result<()>
    ensures { Writes W.contents out.old out.new result (layer_mark side place) }
{
    write_side_mark(side, out)?;
    write_layer(place, out)?;
    out.write_all(b" ")
}

/// Writes the side, where two stacks are compared.
pub(crate) fn write_side_mark<W: Write + Drop>(side: Option<Side>, out: &mut W) -> io::Result<()>
    ensures { Writes W.contents out.old out.new result (side_mark side) }
{
    let Some(side) = side else {
        return Ok(());
    };
    write!(out, "{side} ")
}
