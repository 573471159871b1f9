//! The members of a JSON text.

use crate::hints::nearest::Nearest;
use crate::hints::qualifiers::{number_of_word, say_takes};
use crate::hints::text::Hint;
use command_base::Coord;
use serde_json::Value;
use std::alloc::Global;

/// The most bytes of a text that a hint repeats.
const MOST_BYTES: usize = 60;

/// Whether a hint may repeat a text.
pub(crate) fn is_short(text: &str) -> bool {
    text.len() <= MOST_BYTES
}

/// A member of an object.
#[derive(Clone, Copy)]
pub(crate) struct Member<'v> {
    pub name: &'v str,
    pub value: &'v Value,
}

/// The members of an object.
pub(crate) fn members_of(alloc: Global, value: &Value) -> Option<Vec<Member<'_>>> {
    let mut members = Vec::new(alloc);
    for (name, value) in value.as_object()?.iter() {
        let name = name.as_str();
        if members.push(Member { name, value }).is_err() {
            return None;
        }
    }
    Some(members)
}

/// The qualifier of a name.
pub(crate) fn coord_named(name: &str) -> Option<Coord> {
    for coord in &Coord::ALL {
        if coord.name() == name {
            return Some(*coord);
        }
    }
    None
}

/// Says of a member that it is no qualifier.
pub(crate) fn say_no_qualifier(alloc: Global, name: &str, hint: &mut Hint) {
    if !is_short(name) {
        return;
    }
    let mut nearest = Nearest::to(name, name);
    for coord in &Coord::ALL {
        nearest.offer(alloc, coord.name(), coord.name());
    }
    hint.say_quoted(name);
    hint.say(b" is no qualifier");
    match nearest.found {
        Some(_) => nearest.say(b": did you mean ", hint),
        None => hint.say(b"; restool device 'config: land-night-xhdpi' prints some"),
    }
}

/// Says of a value that it is no number, at a qualifier that takes one: of a word of resource folders which it is. Of a long
/// text nothing is said.
pub(crate) fn say_no_number(alloc: Global, coord: Coord, value: &Value, hint: &mut Hint) {
    let Some(word) = value.as_str() else {
        return say_takes(coord, b" takes a whole number: ", hint);
    };
    if !is_short(word) {
        return hint.clear();
    }
    let number = number_of_word(alloc, coord, word);
    if number != 0 {
        hint.say_quoted(word);
        hint.say(b" is ");
        hint.say_number(u64::from(number));
        hint.say(b" at ");
        return hint.say_quoted(coord.name());
    }
    match word.parse::<u32>() {
        Ok(number) => {
            hint.say(b"write ");
            hint.say_number(u64::from(number));
            hint.say(b" without quotes at ");
            hint.say_quoted(coord.name());
        }
        Err(_) => say_takes(coord, b" takes a number: ", hint),
    }
}
