//! Words that ask for no resource, or name no file.

use crate::hints::Asked;
use crate::hints::members::is_short;
use crate::hints::text::{Hint, text_of};
use command_base::{Inputs, LocaleRule, Named};
use names::file_path;
use notation::{ConfigWordFault, read_config_by};
use std::alloc::Global;
use std::str;

/// How many hexadecimal digits an id has.
const ID_DIGITS: usize = 8;

const BYTE_ORDER_MARK: &[u8] = b"\xef\xbb\xbf";

/// Says what to write in place of a word that asks for no resource.
pub(crate) fn say_bad_id(alloc: Global, word: &str, hint: &mut Hint) {
    if is_short(word)
        && let Some(meant) = meant_by(alloc, word)
        && Named::read(meant.as_str()).is_some()
    {
        hint.say(b"write ");
        hint.say_text(meant.as_str());
    }
}

// A line of `restool ids` in place of a word.
fn say_columns(word: &str, hint: &mut Hint) {
    if let Some((id, _name)) = word.split_once(' ')
        && !id.contains('/')
        && is_short(word)
        && Named::read(id).is_some()
    {
        hint.say(b"a word has an id or a name, and not both: write ");
        hint.say_text(id);
    }
}

// The word that it is near to: that of a field of the class R, of eight digits, or of a reference in XML.
fn meant_by(alloc: Global, word: &str) -> Option<String> {
    if let Some(field) = word.strip_prefix("R.") {
        return name_of_field(alloc, None, field);
    }
    if let Some((package, field)) = word.split_once(".R.") {
        return name_of_field(alloc, Some(package), field);
    }
    if word.len() == ID_DIGITS {
        return text_of(alloc, &["0x", word]);
    }
    // A reference to a resource has its sign before it, or that of a new id, and one to an attribute has another.
    let name = match word.strip_prefix('@') {
        Some(name) => name.strip_prefix('+').unwrap_or(name),
        None => word.strip_prefix('?')?,
    };
    text_of(alloc, &[name])
}

fn name_of_field<'w>(alloc: Global, package: Option<&'w str>, field: &'w str) -> Option<String> {
    let (type_name, entry_name) = field.split_once('.')?;
    let (package, colon) = match package {
        Some(package) => (package, ":"),
        None => ("", ""),
    };
    text_of(alloc, &[package, colon, type_name, "/", entry_name])
}

impl<I: Inputs> Asked<'_, '_, I> {
    /// Says what is wrong with a word of a file that asks for nothing.
    pub(crate) fn say_word_of_file(&self, word: &str, hint: &mut Hint) {
        let mut meant = Hint::new(self.alloc);
        say_bad_id(self.alloc, word, &mut meant);
        self.say_word(word, &meant, hint);
    }

    /// Says what is wrong with a word that stands for no resource.
    pub(crate) fn say_no_resource(&self, word: &str, hint: &mut Hint) {
        let mut meant = Hint::new(self.alloc);
        say_columns(word, &mut meant);
        if meant.is_empty() {
            self.say_missing(word, &mut meant);
        }
        self.say_word(word, &meant, hint);
    }

    // Where a word stands that asks for nothing that is there, if that is in a file, and what is meant.
    fn say_word(&self, word: &str, meant: &Hint, hint: &mut Hint) {
        for asked in self.parts.words {
            if hint.is_empty()
                && let Some(path) = file_path(*asked)
                && let Some(bytes) = self.inputs.read_again(path)
                && let Some(number) = number_of_line(&bytes, word)
            {
                hint.say_text(path);
                hint.say(b", line ");
                hint.say_number(number);
            }
        }
        if !hint.is_empty() && !meant.is_empty() {
            hint.say(b": ");
        }
        hint.append(meant);
    }

    /// Says what a path may have been meant for, where no file lies.
    pub(crate) fn say_no_file(&self, path: &str, hint: &mut Hint) {
        if path.is_empty() {
            return hint.say(b"a word is empty: did the command fail that was to print it?");
        }
        if self.parts.device == Some(path) {
            return say_unmarked(path, hint);
        }
        for word in self.parts.words {
            if file_path(*word) == Some(path) {
                return say_marked(path, hint);
            }
        }
    }
}

// The number of the line that is a word.
fn number_of_line(bytes: &[u8], word: &str) -> Option<u64> {
    let Ok(text) = str::from_utf8(bytes.strip_prefix(BYTE_ORDER_MARK).unwrap_or(bytes)) else {
        return None;
    };
    let mut number = 0_u64;
    for line in text.lines() {
        number = number.saturating_add(1);
        if line.trim() == word {
            return Some(number);
        }
    }
    None
}

// A name with the sign of a file before it.
fn say_marked(path: &str, hint: &mut Hint) {
    let name = path.strip_prefix('+').unwrap_or(path);
    if Named::read(name).is_some() {
        hint.say(b"a word with @ before it names a file of words; for the resource write ");
        hint.say_text(name);
    }
}

// A device as Android writes it, without what stands before it.
fn say_unmarked(word: &str, hint: &mut Hint) {
    if !word.contains('-') {
        return;
    }
    match read_config_by(word, LocaleRule::Android) {
        Err(ConfigWordFault::Qualifier(_)) => {}
        Ok(_) | Err(ConfigWordFault::Device(_)) => {
            hint.say(b"write 'config: ");
            hint.say_text(word);
            hint.say(b"' for a device as Android writes it");
        }
    }
}
