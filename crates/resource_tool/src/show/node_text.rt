//! The nodes of a tree, written.

ghost use Rattle.std.specs.Prelude.{◌++◌, codes};
ghost use Rattle.std.specs.Option.{option_map};
ghost use Rattle.contract_words.specs.Writes.{Writes};
ghost use Rattle.command_base.specs.answer_text.string_pool.Pool.{pool_of};
ghost use Rattle.command_base.specs.answer_text.LayerText.{layer_text};
ghost use Rattle.command_base.specs.cert_tree.Certificate.{node_of};
ghost use Rattle.resource_tool.specs.TreeText.{no_layer, named_by, string_or_index, leaf_text, value_text, bag_text, node_label, if_text};

use crate::show::test_text::write_test_in;
use answer_text::{
    Form, StackNames, end_text, strings_of_layer, write_end_with_string, write_its_name,
    write_layer, write_string,
};
use command_base::{End, Node, Pool, ResId, Value};
use notation::write_xml_value;
use res_value::kind;
use std::io::{self, Write};

/// Writes what stands before a node in a line.
#[tactic(auto, unfolding(crate::specs::TreeText::if_text))]
pub(crate) fn write_if<W: Write + Drop>(node: &Node, out: &mut W) -> io::Result<()>
    ensures { Writes W.contents out.old out.new result (if_text (node_of node.now)) }
{
    match node {
        Node::Test(_) => out.write_all(b"if "),
        Node::Value { .. } | Node::Bag { .. } => Ok(()),
    }
}

/// Writes a test, or a leaf: a value with the string that it names, which is one of the table of its layer, or a bag with its
/// name.
#[tactic(auto, unfolding(crate::specs::TreeText::node_label))]
pub(crate) fn write_node_label<W: Write + Drop>(
    form: Form,
    stack: &StackNames<'_, '_>,
    node: &Node,
    out: &mut W,
) -> io::Result<()>
    ensures { Writes W.contents out.old out.new result (node_label form stack.now (node_of node.now)) }
{
    match node {
        Node::Test(test) => write_test_in(form, test, out),
        Node::Value { layer, value } => {
            let strings = strings_of_layer(stack.stack(), *layer);
            write_value(form, stack, strings, *layer, *value, out)
        }
        Node::Bag { id } => write_bag(stack, *id, out),
    }
}

#[tactic(auto, unfolding(crate::specs::TreeText::value_text))]
fn write_value<W: Write + Drop>(
    form: Form,
    stack: &StackNames<'_, '_>,
    strings: Option<Pool<'_>>,
    layer: usize,
    value: Value,
    out: &mut W,
) -> io::Result<()>
    ensures { Writes W.contents out.old out.new result (value_text form stack.now (option_map pool_of strings.entry) layer value) }
{
    match form {
        Form::Android => write_leaf(stack, strings, layer, value, out)?,
        Form::Raw => write_end_with_string(strings, End::Value { layer, value }, out)?,
    }
    write_no_layer(strings, out)
}

fn write_leaf<W: Write + Drop>(
    stack: &StackNames<'_, '_>,
    strings: Option<Pool<'_>>,
    layer: usize,
    value: Value,
    out: &mut W,
) -> io::Result<()>
    ensures { Writes W.contents out.old out.new result
        (codes "value " ++ layer_text layer ++ codes " " ++ leaf_text stack.now (option_map pool_of strings.entry) value) }
{
    out.write_all(b"value ")?;
    write_layer(layer, out)?;
    out.write_all(b" ")?;
    write_leaf_value(stack, strings, value, out)
}

#[tactic(auto, unfolding(crate::specs::TreeText::leaf_text))]
fn write_leaf_value<W: Write + Drop>(
    stack: &StackNames<'_, '_>,
    strings: Option<Pool<'_>>,
    value: Value,
    out: &mut W,
) -> io::Result<()>
    ensures { Writes W.contents out.old out.new result (leaf_text stack.now (option_map pool_of strings.entry) value) }
{
    let word = stack.word(ResId(value.word));
    match value.kind {
        kind::STRING => write_string_or_index(strings, value, out),
        kind::REFERENCE => write_named_by(b"@", word, value, out),
        kind::ATTRIBUTE => write_named_by(b"?", word, value, out),
        _ => write_xml_value(value, out),
    }
}

fn write_string_or_index<W: Write + Drop>(
    strings: Option<Pool<'_>>,
    value: Value,
    out: &mut W,
) -> io::Result<()>
    ensures { Writes W.contents out.old out.new result (string_or_index value (option_map pool_of strings.entry)) }
{
    match strings {
        Some(strings) => write_string(strings.get(value.word as usize), out),
        None => write_xml_value(value, out),
    }
}

fn write_named_by<W: Write + Drop>(
    sign: &[u8],
    word: Option<&[u8]>,
    value: Value,
    out: &mut W,
) -> io::Result<()>
    ensures { Writes W.contents out.old out.new result (named_by sign.now value (option_map (λ word. word.now) word.entry)) }
{
    let Some(word) = word else {
        return write_xml_value(value, out);
    };
    out.write_all(sign)?;
    out.write_all(word)
}

#[tactic(auto, unfolding(crate::specs::TreeText::no_layer))]
fn write_no_layer<W: Write + Drop>(strings: Option<Pool<'_>>, out: &mut W) -> io::Result<()>
    ensures { Writes W.contents out.old out.new result (no_layer (option_map pool_of strings.entry)) }
{
    match strings {
        Some(_) => Ok(()),
        None => out.write_all(b" (no such layer)"),
    }
}

#[tactic(auto, unfolding(crate::specs::TreeText::bag_text))]
fn write_bag<W: Write + Drop>(stack: &StackNames<'_, '_>, id: ResId, out: &mut W) -> io::Result<()>
    ensures { Writes W.contents out.old out.new result (bag_text stack.now id) }
{
    end_text(End::Bag { id }, out)?;
    write_its_name(stack, id, out)
}
