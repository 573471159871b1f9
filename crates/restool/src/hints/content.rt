//! What a file has where another was expected.

use crate::hints::kinds::Kind;
use crate::hints::text::{Hint, first_line};

/// What a file was expected to have.
#[derive(Clone, Copy)]
pub(crate) enum Expected {
    Json(Kind),
    Map,
    Table,
    Apk,
}

/// What a file has, as its first bytes say.
#[derive(Clone, Copy)]
enum Content {
    Nothing,
    Zip,
    Table,
    Xml,
    /// A text that begins as a JSON text of objects or lists does.
    Json,
    /// What `am get-config` prints.
    Config,
    /// What `make` prints where there is no certificate.
    NoCertificate,
    Other,
}

/// The most bytes of a line that a hint repeats.
const MOST_BYTES: usize = 100;

/// Says what a file has instead, which has these bytes.
pub(crate) fn say_instead(expected: Expected, path: &str, bytes: &[u8], hint: &mut Hint) {
    match (expected, content_of(bytes)) {
        (Expected::Json(Kind::Device), Content::Config) => {
            hint.say(b"give what am get-config printed itself: \"$(cat ");
            hint.say_text(path);
            hint.say(b")\"");
        }
        (Expected::Json(Kind::Certificate), Content::NoCertificate) => {
            if let Some(line) = first_line(bytes)
                && line.len() <= MOST_BYTES
            {
                hint.say(b"make printed no certificate into ");
                hint.say_text(path);
                hint.say(b" but: ");
                hint.say_text(line);
            }
        }
        (expected, content) => {
            if let Some(said) = said_of(expected, content) {
                hint.say_text(path);
                hint.say(said);
            }
        }
    }
}

// What a file is, behind its path.
fn said_of<'a>(expected: Expected, content: Content) -> Option<&'a [u8]> {
    match (expected, content) {
        (_, Content::Nothing) => Some(b" is empty"),
        (Expected::Json(Kind::Layers) | Expected::Table, Content::Zip) => {
            Some(b" is a zip file; an apk is read where its path ends in .apk")
        }
        (Expected::Json(Kind::Layers) | Expected::Apk, Content::Table) => {
            Some(b" is a table; one is read where its path ends in .arsc")
        }
        (Expected::Table | Expected::Apk, Content::Json) => Some(b" is a JSON text, and no table"),
        (Expected::Table | Expected::Apk, Content::Xml) => {
            Some(b" is a binary XML file; the table of an apk is its resources.arsc")
        }
        (Expected::Table | Expected::Apk, _) => None,
        (_, Content::Zip) => Some(b" is a zip file, and no JSON text"),
        (_, Content::Table) => Some(b" is a table, and no JSON text"),
        (_, Content::Xml) => Some(b" is a binary XML file, and no JSON text"),
        _ => None,
    }
}

fn content_of(bytes: &[u8]) -> Content {
    if bytes.starts_with(b"PK") {
        Content::Zip
    } else if bytes.starts_with(&[2, 0, 12, 0]) {
        Content::Table
    } else if bytes.starts_with(&[3, 0, 8, 0]) {
        Content::Xml
    } else if bytes.starts_with(b"config:") {
        Content::Config
    } else if bytes.starts_with(b"counter goal ") || bytes.starts_with(b"node limit") {
        Content::NoCertificate
    } else {
        match bytes.trim_ascii_start().first() {
            None => Content::Nothing,
            Some(b'{' | b'[') => Content::Json,
            Some(_) => Content::Other,
        }
    }
}
