//! A name, and behind it an id, a coordinate or a number, written.

ghost use Rattle.contract_words.specs.Writes.{Writes};
ghost use Rattle.answer_text.specs.NamedText.{named_id, named_coord, named_number};

use bags_themes::{Coord, ResId};
use res_value::write_id;
use std::io::{self, Write};

/// Writes a name and an id.
#[tactic(auto, unfolding(crate::specs::NamedText::named_id))]
pub fn write_named_id<W: Write + Drop>(name: &str, id: ResId, out: &mut W) -> io::Result<()>
    ensures { Writes W.contents out.old out.new result (named_id name.now id.0) }
{
    out.write_all(name.as_bytes())?;
    out.write_all(b" ")?;
    write_id(id, out)
}

/// Writes a name and that of a coordinate.
#[tactic(auto, unfolding(crate::specs::NamedText::named_coord))]
pub fn write_named_coord<W: Write + Drop>(name: &str, coord: Coord, out: &mut W) -> io::Result<()>
    ensures { Writes W.contents out.old out.new result (named_coord name.now coord) }
{
    out.write_all(name.as_bytes())?;
    out.write_all(b" ")?;
    out.write_all(coord.name().as_bytes())
}

/// Writes a name and a number in decimal.
#[tactic(auto, unfolding(crate::specs::NamedText::named_number))]
pub fn write_named_number<W: Write + Drop>(name: &str, number: u128, out: &mut W) -> io::Result<()>
    ensures { Writes W.contents out.old out.new result (named_number name.now number) }
{
    out.write_all(name.as_bytes())?;
    write!(out, " {number}")
}
