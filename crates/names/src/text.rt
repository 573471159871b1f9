//! The text of a name.

ghost use Rattle.std.specs.Prelude.{◌≡◌, IfOk, string_bytes};
ghost use Rattle.std.specs.Cow.{cow_str_bytes};
ghost use Rattle.std.specs.Option.{option_map};
ghost use Rattle.string_pool.specs.Text.{seen_text};
ghost use Rattle.string_pool.specs.Units.{units_in};
ghost use Rattle.names.specs.NameText.{name_text, text_of_bytes, text_of_units};

use crate::surrogates::with_pairs;
use std::alloc::{AllocError, Global};
use std::borrow::CowStr;
use std::str;
use string_pool::{StringFault, Text, u16_within};

// How many bytes a unit of UTF-16 has.
const UNIT_SIZE: usize = 2;

/// A name as UTF-8, where it can be read and is text. What is UTF-8 in the table is lent, and not copied, unless a
/// character stands in it as two surrogates.
///
/// ```text
/// let entry_name = name_text(alloc, table.key_name(&row))?; // Some("margin")
/// ```
#[tactic(auto, unfolding(crate::specs::NameText::name_text))]
pub fn name_text<'a>(
    alloc: Global,
    name: Result<Text<'a>, StringFault>,
) -> Result<Option<CowStr<'a, Global>>, AllocError>
    ensures { IfOk result (λ text. option_map cow_str_bytes text ≡ name_text (seen_text name.entry)) }
{
    match name {
        Ok(Text::Utf8(bytes)) => text_of_bytes(alloc, bytes),
        Ok(Text::Utf16(bytes)) => match text_of_units(alloc, bytes)? {
            Some(text) => Ok(Some(CowStr::Owned(text))),
            None => Ok(None),
        },
        Err(_) => Ok(None),
    }
}

#[tactic(auto, unfolding(crate::specs::NameText::text_of_bytes))]
fn text_of_bytes<'a>(
    alloc: Global,
    bytes: &'a [u8],
) -> Result<Option<CowStr<'a, Global>>, AllocError>
    ensures { IfOk result (λ text. option_map cow_str_bytes text ≡ text_of_bytes bytes.now) }
{
    if let Ok(text) = str::from_utf8(bytes) {
        return Ok(Some(CowStr::Borrowed(text)));
    }
    let paired = with_pairs(alloc, bytes)?;
    match String::from_utf8(paired) {
        Ok(text) => Ok(Some(CowStr::Owned(text))),
        Err(_) => Ok(None),
    }
}

fn text_of_units(alloc: Global, bytes: &[u8]) -> Result<Option<String>, AllocError>
    ensures { IfOk result (λ text. option_map string_bytes text ≡ text_of_units (units_in bytes.now)) }
{
    let units = units_in(alloc, bytes)?;
    match String::from_utf16(alloc, &units)? {
        Ok(text) => Ok(Some(text)),
        Err(_) => Ok(None),
    }
}

// The units that bytes are; a byte that is left over says nothing.
#[tactic(auto, using(string_pool::proofs::UnitSteps::unit_steps))]
fn units_in(alloc: Global, bytes: &[u8]) -> Result<Vec<u16>, AllocError>
    ensures { IfOk result (λ units. units.items ≡ units_in bytes.now) }
{
    let mut units = Vec::new(alloc);
    let mut left = bytes;
    while left.len() >= UNIT_SIZE {
        let (_, behind) = left.split_at(UNIT_SIZE);
        units.push(u16_within(left, 0))?;
        left = behind;
    }
    Ok(units)
}
