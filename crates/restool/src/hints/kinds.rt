//! JSON texts of one kind where another was expected.

use crate::hints::devices::is_fit;
use crate::hints::members::{Member, coord_named};
use crate::hints::text::Hint;
use command_base::Coord;
use json_input::list_of;
use serde_json::Value;

/// What a JSON text is, as its members say.
#[derive(Clone, Copy, PartialEq, Eq)]
pub(crate) enum Kind {
    Layers,
    Device,
    Box,
    Certificate,
}

impl Kind {
    fn name<'a>(self) -> &'a [u8] {
        match self {
            Kind::Layers => b"list of layers",
            Kind::Device => b"device",
            Kind::Box => b"box",
            Kind::Certificate => b"certificate",
        }
    }
}

/// What is wrong with a JSON text of the kind that was expected.
#[derive(Clone, Copy)]
pub(crate) enum Wrong {
    Layers,
    Device,
    DeviceDensity,
    Box,
    BoxDensity,
    /// No device has what stands at this qualifier.
    Range(Coord),
    Other,
}

/// A JSON text, of which kind it was expected to be, and what is wrong with it.
#[derive(Clone, Copy)]
pub(crate) struct JsonFile<'a> {
    pub expected: Kind,
    pub path: &'a str,
    pub wrong: Wrong,
}

/// Says that a file is of another kind, and how to make it into what was expected, where that is no matter of the order of
/// words.
pub(crate) fn say_kind(order: &[u8], file: JsonFile<'_>, kind: Kind, hint: &mut Hint) {
    hint.say_text(file.path);
    hint.say(b" is a ");
    hint.say(kind.name());
    hint.say(b", and no ");
    hint.say(file.expected.name());
    match (file.expected, kind) {
        (Kind::Box, Kind::Device) => {
            hint.say(b"; a box has a list or a range for each qualifier, as \"density\":[160,320]");
        }
        (Kind::Device, Kind::Box) => {
            hint.say(b"; a device has one value for each qualifier, as \"density\":320");
        }
        _ => {}
    }
    hint.say(order);
}

/// The kind of a JSON text, which has these members. A device has a number or a text for each qualifier, a box a list or a
/// range.
pub(crate) fn kind_of(value: &Value, members: &[Member<'_>]) -> Option<Kind> {
    if let Some(items) = list_of(value) {
        let _table = items.first()?.get("table")?;
        return Some(Kind::Layers);
    }
    if value.get("goals").is_some() {
        return Some(Kind::Certificate);
    }
    let mut has_values = false;
    let mut has_sets = false;
    for member in members {
        let coord = coord_named(member.name)?;
        if member.value.is_array() || member.value.is_object() {
            has_sets = true;
        } else if is_fit(coord, member.value) {
            has_values = true;
        } else {
            return None;
        }
    }
    match (has_values, has_sets) {
        (true, false) => Some(Kind::Device),
        (false, true) => Some(Kind::Box),
        _ => None,
    }
}
