//! Names that are read as they stand.

ghost use Rattle.std.specs.Prelude.{◌≡◌, ◌<◌, true};
ghost use Rattle.std.specs.List.{list_any};
ghost use Rattle.bstr.specs.Utf8.{lossy_chars};
ghost use Rattle.names.specs.Plain.{breaks_line, is_misread, is_plain};

use crate::name_parts::is_part;
use bstr::ByteSlice;

/// Whether a text can be a part of a word, and neither that nor the line that it stands in could be read otherwise.
pub(crate) fn is_plain(name: &str) -> bool
    ensures { result ≡ is_plain name.now }
{
    is_part(name) && !has_misread(name.as_bytes()) && !has_break(name.as_bytes())
}

fn has_misread(name: &[u8]) -> bool
    ensures { result ≡ list_any is_misread name.now }
{
    'bytes: for byte in name {
        if is_misread(*byte) {
            return true;
        }
    }
    false
}

#[tactic(auto, unfolding(crate::specs::Plain::is_misread))]
fn is_misread(byte: u8) -> bool
    ensures { result ≡ is_misread byte }
{
    matches!(byte, b' ' | b'"' | b'\\') || byte.is_ascii_control()
}

fn has_break(name: &[u8]) -> bool
    ensures { result ≡ list_any breaks_line (lossy_chars name.now) }
{
    for character in name.chars() {
        if breaks_line(character) {
            return true;
        }
    }
    false
}

/// Whether a character ends a line or turns its direction.
#[tactic(auto, unfolding(crate::specs::Plain::breaks_line))]
pub fn breaks_line(character: char) -> bool
    ensures breaks { result ≡ breaks_line character }
    ensures is_unit { result ≡ true → character < 0x1_0000 }
{
    matches!(character, '\u{85}' | '\u{2028}'..='\u{202e}' | '\u{2066}'..='\u{2069}')
}
