//! What is wrong with a device.

use crate::hints::members::{Member, coord_named, say_no_number, say_no_qualifier};
use crate::hints::text::{Hint, text_of};
use command_base::{Coord, LocaleRule};
use notation::read_config_by;
use serde_json::Value;
use std::alloc::Global;
use std::str;

/// Says of the first member of a device that is not as it has to be what is wrong.
pub(crate) fn say_device(alloc: Global, members: &[Member<'_>], hint: &mut Hint) {
    for member in members {
        let Some(coord) = coord_named(member.name) else {
            return say_no_qualifier(alloc, member.name, hint);
        };
        if is_fit(coord, member.value) {
            continue;
        }
        if member.value.is_array() || member.value.is_object() {
            hint.say_quoted(coord.name());
            return hint.say(b" has one value in a device; lists and ranges are for boxes");
        }
        return match coord {
            Coord::Locale => hint.say(b"\"locale\" takes a text, as \"es-MX\""),
            _ => say_no_number(alloc, coord, member.value, hint),
        };
    }
}

/// Whether a value is of the kind that a qualifier has in a device.
pub(crate) fn is_fit(coord: Coord, value: &Value) -> bool {
    match coord {
        Coord::Locale => value.is_string(),
        _ => value.as_u64().is_some(),
    }
}

/// Says what is wrong with a part of a device that is written as words.
pub(crate) fn say_part(alloc: Global, rule: LocaleRule, part: &[u8], hint: &mut Hint) {
    if let LocaleRule::LanguageAndRegion = rule
        && let Ok(text) = str::from_utf8(part)
        // A device has a density.
        && let Some(line) = text_of(alloc, &[text, "-mdpi"])
        && read_config_by(line.as_str(), LocaleRule::Android).is_ok()
        && read_config_by(line.as_str(), LocaleRule::LanguageAndRegion).is_err()
    {
        hint.say(part);
        hint.say(b" has a script: give --locales android");
    }
}
