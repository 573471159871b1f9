//! Ends of references, written.

ghost use Rattle.std.specs.Option.{option_map};
ghost use Rattle.contract_words.specs.Writes.{Writes};
ghost use Rattle.bags_themes.specs.string_pool.Pool.{pool_of};
ghost use Rattle.answer_text.specs.EndText.{value_end_text, end_with_string, end_text, end_with_name, end_line, named_end_line};

use crate::cell::write_value_with_string;
use crate::layer::write_layer;
use crate::name::NamesBeside;
use crate::named::write_named_id;
use bags_themes::{End, Pool, Value};
use std::io::{self, Write};

/// Writes an end: a value with the place of its layer, counted from 0; the id that selected a bag, or
/// nothing; or the id that a reference names which is one too many.
pub fn end_text<W: Write + Drop>(end: End, out: &mut W) -> io::Result<()>
    ensures { Writes W.contents out.old out.new result (end_text end) }
{
    write_end_with_string(None, end, out)
}

/// Writes an end. Where strings are given, a string value is followed by its string among them.
#[tactic(auto, unfolding(crate::specs::EndText::end_with_string))]
pub fn write_end_with_string<W: Write + Drop>(
    strings: Option<Pool<'_>>,
    end: End,
    out: &mut W,
) -> io::Result<()>
    ensures { Writes W.contents out.old out.new result (end_with_string (option_map pool_of strings.entry) end) }
{
    match end {
        End::Value { layer, value } => write_value_end(strings, layer, value, out),
        End::Bag { id } => write_named_id("bag", id, out),
        End::Absent { id } => write_named_id("absent", id, out),
        End::TooLong { id } => write_named_id("too long", id, out),
    }
}

#[tactic(auto, unfolding(crate::specs::EndText::value_end_text))]
fn write_value_end<W: Write + Drop>(
    strings: Option<Pool<'_>>,
    layer: usize,
    value: Value,
    out: &mut W,
) -> io::Result<()>
    ensures { Writes W.contents out.old out.new result (value_end_text (option_map pool_of strings.entry) layer value) }
{
    out.write_all(b"value ")?;
    write_layer(layer, out)?;
    out.write_all(b" ")?;
    write_value_with_string(strings, value, out)
}

/// Writes an end, and behind the id that it has its name, where names are asked for. Where strings are given, a string
/// value is followed by its string among them.
#[tactic(auto, unfolding(crate::specs::EndText::end_with_name, crate::specs::EndText::end_name))]
pub fn write_end_with_name<W: Write + Drop>(
    names: &NamesBeside<'_, '_>,
    strings: Option<Pool<'_>>,
    end: End,
    out: &mut W,
) -> io::Result<()>
    ensures { Writes W.contents out.old out.new result (end_with_name names.now.stack (option_map pool_of strings.entry) end names.now.asked) }
{
    write_end_with_string(strings, end, out)?;
    match end {
        End::Value { .. } => Ok(()),
        End::Bag { id } | End::Absent { id } | End::TooLong { id } => names.write(id, out),
    }
}

/// Writes the line of an end.
#[tactic(auto, unfolding(crate::specs::EndText::end_line))]
pub fn write_end_line<W: Write + Drop>(end: End, out: &mut W) -> io::Result<()>
    ensures { Writes W.contents out.old out.new result (end_line end) }
{
    out.write_all(b"end ")?;
    end_text(end, out)?;
    out.write_all(b"\n")
}

/// Writes the line of an end, with the name of the id that it has, where names are asked for.
#[tactic(auto, unfolding(crate::specs::EndText::named_end_line))]
pub(crate) fn write_named_end_line<W: Write + Drop>(
    names: &NamesBeside<'_, '_>,
    end: End,
    out: &mut W,
) -> io::Result<()>
    ensures { Writes W.contents out.old out.new result (named_end_line names.now.stack end names.now.asked) }
{
    out.write_all(b"end ")?;
    write_end_with_name(names, None, end, out)?;
    out.write_all(b"\n")
}
