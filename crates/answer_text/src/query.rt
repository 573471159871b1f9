//! Where ids end, written.

ghost use Rattle.std.specs.Prelude.{◌≡◌};
ghost use Rattle.std.specs.Option.{option_map};
ghost use Rattle.contract_words.specs.Writes.{Writes};
ghost use Rattle.bags_themes.specs.string_pool.Pool.{pool_of};
ghost use Rattle.answer_text.specs.QueryText.{strings_of_layer, strings_of_end, query_line, set_aside_line};

use crate::end::write_end_with_name;
use crate::name::NamesBeside;
use crate::named::write_named_number;
use bags_themes::{End, Pool, ResId, Stack};
use res_value::write_id;
use std::io::{self, Write};

/// Writes the line of an id with its end. A string value is followed by its string, which is one of the
/// table of its layer. Where names are asked for, each id is followed by its name.
#[tactic(auto, unfolding(crate::specs::QueryText::query_line))]
pub fn query_line<W: Write + Drop>(
    names: &NamesBeside<'_, '_>,
    id: ResId,
    end: End,
    out: &mut W,
) -> io::Result<()>
    ensures { Writes W.contents out.old out.new result (query_line names.now.stack id.0 end names.now.asked) }
{
    let strings = strings_of_end(names.stack(), end);
    write_id(id, out)?;
    names.write(id, out)?;
    out.write_all(b" ")?;
    write_end_with_name(names, strings, end, out)?;
    out.write_all(b"\n")
}

/// Writes the line with the number of rows of all layers that are set aside.
#[tactic(auto, unfolding(crate::specs::QueryText::set_aside_line))]
pub fn set_aside_line<W: Write + Drop>(count: u128, out: &mut W) -> io::Result<()>
    ensures { Writes W.contents out.old out.new result (set_aside_line count) }
{
    write_named_number("set-aside", count, out)?;
    out.write_all(b"\n")
}

// The strings of the layer that an end's value is of.
fn strings_of_end<'a>(stack: &Stack<'a>, end: End) -> Option<Pool<'a>>
    ensures { option_map pool_of result ≡ strings_of_end stack.now end }
{
    match end {
        End::Value { layer, .. } => strings_of_layer(stack, layer),
        _ => None,
    }
}

/// The strings of a layer of the stack: those of its own table. There are none where the layer is not there.
pub fn strings_of_layer<'a>(stack: &Stack<'a>, layer: usize) -> Option<Pool<'a>>
    ensures { option_map pool_of result ≡ strings_of_layer stack.now layer }
{
    match stack.layer_table(layer) {
        Some(table) => Some(table.strings()),
        None => None,
    }
}
