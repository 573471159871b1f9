//! What is wrong with a box, and with the numbers of a device too.

use crate::hints::members::{Member, coord_named, say_no_number, say_no_qualifier};
use crate::hints::qualifiers::{meaning, say_takes};
use crate::hints::text::Hint;
use command_base::Coord;
use json_input::list_of;
use serde_json::Value;
use std::alloc::Global;

/// The names of the members of a range.
const ENDS: &[&str] = &["from", "to"];

/// Says which number at a qualifier no device has, of a device or of a box.
pub(crate) fn say_outside(value: &Value, coord: Coord, hint: &mut Hint) {
    if let Some(number) = outside_in(value, coord) {
        hint.say_quoted(coord.name());
        hint.say(b" is never ");
        hint.say_number(number);
        hint.say(b": ");
        hint.say(meaning(coord));
    }
}

// The number of a device, or the first in a list or a range that no device has.
fn outside_in(value: &Value, coord: Coord) -> Option<u64> {
    let value = value.get(coord.name())?;
    if let Some(number) = value.as_u64() {
        return Some(number);
    }
    if let Some(items) = list_of(value) {
        for item in items {
            let number = item.as_u64()?;
            if coord.is_outside(number) {
                return Some(number);
            }
        }
        return None;
    }
    for end in ENDS {
        let number = value.get(*end)?.as_u64()?;
        if coord.is_outside(number) {
            return Some(number);
        }
    }
    None
}

/// Says of the first member of a box that is not as it has to be what is wrong.
pub(crate) fn say_box(alloc: Global, members: &[Member<'_>], hint: &mut Hint) {
    for member in members {
        let Some(coord) = coord_named(member.name) else {
            return say_no_qualifier(alloc, member.name, hint);
        };
        say_set(alloc, coord, member.value, hint);
        if !hint.is_empty() {
            return;
        }
    }
}

// What is wrong with the value of a qualifier: of a list the first item that is no number, with its place.
fn say_set(alloc: Global, coord: Coord, value: &Value, hint: &mut Hint) {
    if let Coord::Locale = coord {
        return say_texts(value, hint);
    }
    let Some(items) = list_of(value) else {
        return say_range(alloc, coord, value, hint);
    };
    for (place, item) in items.iter().enumerate() {
        if item.as_u64().is_none() {
            hint.say(b"item ");
            hint.say_number(place as u64);
            hint.say(b": ");
            return say_no_number(alloc, coord, item, hint);
        }
    }
}

// That a value is no list of texts, where it is none.
fn say_texts(value: &Value, hint: &mut Hint) {
    let items = list_of(value);
    let mut are_texts = items.is_some();
    for item in items.unwrap_or(&[]) {
        are_texts = are_texts && item.is_string();
    }
    if !are_texts {
        hint.say(b"\"locale\" takes a list of texts, as [\"es-MX\",\"de\"]");
    }
}

// What is wrong with what is no list: of a range the first end that is no number, or that there are other members too.
fn say_range(alloc: Global, coord: Coord, value: &Value, hint: &mut Hint) {
    for end in ENDS {
        if value.get(*end).is_none() {
            return say_no_set(coord, value, hint);
        }
    }
    for end in ENDS {
        if let Some(value) = value.get(*end)
            && value.as_u64().is_none()
        {
            hint.say_text(*end);
            hint.say(b": ");
            return say_no_number(alloc, coord, value, hint);
        }
    }
    hint.say(b"a range at ");
    hint.say_quoted(coord.name());
    hint.say(b" has from and to, and nothing else");
}

// What is neither a list nor a range.
fn say_no_set(coord: Coord, value: &Value, hint: &mut Hint) {
    match value.as_u64() {
        Some(number) => {
            hint.say_quoted(coord.name());
            hint.say(b" takes a list in a box: [");
            hint.say_number(number);
            hint.say(b"]");
        }
        None => say_takes(
            coord,
            b" takes a list or a range, {\"from\":1,\"to\":2}: ",
            hint,
        ),
    }
}
