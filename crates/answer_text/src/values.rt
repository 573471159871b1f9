//! What values say.

ghost use Rattle.std.specs.Prelude.{◌≡◌, IfOk};
ghost use Rattle.std.specs.Option.{option_map};
ghost use Rattle.answer_text.specs.OnLine.{on_line};
ghost use Rattle.bags_themes.specs.string_pool.Pool.{pool_of};
ghost use Rattle.bags_themes.specs.string_pool.Shown.{shown_text};
ghost use Rattle.bags_themes.specs.string_pool.Text.{text_of, seen_text};
ghost use Rattle.answer_text.specs.ContentSeen.{value_content_of};
ghost use Rattle.answer_text.specs.ValueContent.{paired, read_content, string_content, value_content};

use crate::content::{BrokenString, ValueContent};
use crate::on_line::write_on_line;
use crate::query::strings_of_layer;
use crate::read_alike::word_read;
use bags_themes::{Pool, ResId, Value, kind};
use names::{NamedStack, Text, name_text, with_pairs};
use std::alloc::{AllocError, Global};
use string_pool::StringFault;

/// What a value says that a row of this layer holds.
#[tactic(auto, unfolding(crate::specs::ValueContent::value_content))]
pub fn value_content<'a>(
    alloc: Global,
    stack: &NamedStack<'_, 'a>,
    layer: usize,
    value: Value,
) -> Result<ValueContent<'a>, AllocError>
    ensures { IfOk result (λ content. value_content_of content ≡ value_content stack.now layer value) }
{
    match value.kind {
        kind::STRING => string_content(alloc, strings_of_layer(stack.stack(), layer), value.word),
        kind::REFERENCE => Ok(ValueContent::Reference(stack.label_of_id(
            alloc,
            ResId(value.word),
        )?)),
        kind::ATTRIBUTE => Ok(ValueContent::Attribute(stack.label_of_id(
            alloc,
            ResId(value.word),
        )?)),
        kind => Ok(ValueContent::Other {
            kind,
            word: word_read(kind, value.word),
        }),
    }
}

#[tactic(auto, unfolding(crate::specs::ValueContent::string_content))]
fn string_content<'a>(
    alloc: Global,
    strings: Option<Pool<'a>>,
    index: u32,
) -> Result<ValueContent<'a>, AllocError>
    ensures { IfOk result (λ content. value_content_of content ≡ string_content (option_map pool_of strings.entry) index) }
{
    match strings {
        Some(strings) => read_content(alloc, index, strings.get(index as usize)),
        None => Ok(ValueContent::Broken(BrokenString::NoSuch(index))),
    }
}

// A string of this index, or why it cannot be read.
#[tactic(auto, unfolding(crate::specs::ValueContent::read_content))]
fn read_content<'a>(
    alloc: Global,
    index: u32,
    string: Result<Text<'a>, StringFault>,
) -> Result<ValueContent<'a>, AllocError>
    ensures { IfOk result (λ content. value_content_of content ≡ read_content index (seen_text string.entry)) }
{
    match string {
        Ok(string) => match name_text(alloc, Ok(string))? {
            Some(text) => Ok(ValueContent::String(text)),
            None => Ok(ValueContent::Garbled(shown(alloc, string)?)),
        },
        Err(StringFault::NoSuch) => Ok(ValueContent::Broken(BrokenString::NoSuch(index))),
        Err(StringFault::Cut) => Ok(ValueContent::Broken(BrokenString::Cut(index))),
        Err(StringFault::NotEnded) => Ok(ValueContent::Broken(BrokenString::NotEnded(index))),
    }
}

// A string as it is shown, where two surrogates that make a pair are their character, and none ends the line.
fn shown(alloc: Global, string: Text<'_>) -> Result<Vec<u8>, AllocError>
    ensures { IfOk result (λ text. text.items ≡ on_line (shown_text (paired (text_of string.entry)))) }
{
    match string {
        Text::Utf8(bytes) => {
            let paired = with_pairs(alloc, bytes)?;
            written(alloc, Text::Utf8(&paired))
        }
        Text::Utf16(_) => written(alloc, string),
    }
}

fn written(alloc: Global, string: Text<'_>) -> Result<Vec<u8>, AllocError>
    ensures { IfOk result (λ text. text.items ≡ on_line (shown_text (text_of string.entry))) }
{
    let mut shown = Vec::new(alloc);
    let mut text = Vec::new(alloc);
    // To a `Vec` only a want of memory is a fault.
    if string.write_shown(&mut shown).is_err() || write_on_line(&shown, &mut text).is_err() {
        return Err(AllocError);
    }
    Ok(text)
}
