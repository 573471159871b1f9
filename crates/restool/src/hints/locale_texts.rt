//! Texts that give no locale.

use crate::hints::members::is_short;
use crate::hints::text::Hint;
use command_base::{Coord, LocaleRule};
use json_input::list_of;
use locales::read_locale;
use serde_json::Value;
use std::alloc::Global;

/// Says what is wrong with the text of a device, or with the first of the list of a box.
pub(crate) fn say_locales(alloc: Global, value: &Value, rule: LocaleRule, hint: &mut Hint) {
    let Some(value) = value.get(Coord::Locale.name()) else {
        return;
    };
    if let Some(text) = value.as_str() {
        return say_locale(alloc, text, rule, hint);
    }
    for item in list_of(value).unwrap_or(&[]) {
        if let Some(text) = item.as_str()
            && is_short(text)
            && read_locale(text, rule).is_err()
        {
            return say_locale(alloc, text, rule, hint);
        }
    }
}

// What to write in place of such a text, or how it is read.
fn say_locale(alloc: Global, text: &str, rule: LocaleRule, hint: &mut Hint) {
    if !is_short(text) {
        return;
    }
    if read_locale(text, LocaleRule::Android).is_ok() {
        hint.say_text(text);
        return hint.say(b" has a script: give --locales android");
    }
    let mut tag = Hint::new(alloc);
    say_subtags(text, &mut tag);
    if let Some(tag) = tag.text() {
        say_tag(tag, text, rule, hint);
    }
}

// The tag that a text is meant for, and what else to give that it is read.
fn say_tag(tag: &str, text: &str, rule: LocaleRule, hint: &mut Hint) {
    let is_read = read_locale(tag, rule).is_ok();
    if !is_read && read_locale(tag, LocaleRule::Android).is_err() {
        return;
    }
    hint.say(b"write ");
    hint.say_text(tag);
    hint.say(b" for ");
    hint.say_text(text);
    if !is_read {
        hint.say(b", and give --locales android");
    }
}

// The same subtags as texts of locales have them, a language, and behind it a script or a region: es_MX and es-rMX are es-MX,
// b+sr+Latn is sr-Latn.
fn say_subtags(text: &str, tag: &mut Hint) {
    for subtag in text.split(['-', '_', '+']) {
        match subtag.as_bytes() {
            b"" | b"b" => {}
            language if tag.is_empty() => say_cased(language, false, tag),
            subtag => {
                tag.say(b"-");
                say_cased(region_behind_r(subtag), true, tag);
            }
        }
    }
}

// A region, where it stands behind an `r`, as in folders of resources.
fn region_behind_r(subtag: &[u8]) -> &[u8] {
    let Some(region) = subtag.strip_prefix(b"r") else {
        return subtag;
    };
    for letter in region {
        if !letter.is_ascii_uppercase() && !letter.is_ascii_digit() {
            return subtag;
        }
    }
    region
}

// A script, of four letters, has a capital at its begin alone.
fn say_cased(subtag: &[u8], is_upper: bool, tag: &mut Hint) {
    let mut is_upper = is_upper;
    for letter in subtag {
        let cased = if is_upper {
            letter.to_ascii_uppercase()
        } else {
            letter.to_ascii_lowercase()
        };
        tag.say(&[cased]);
        is_upper = is_upper && subtag.len() != 4;
    }
}
