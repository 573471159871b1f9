//! The text of a hint.

use std::alloc::Global;
use std::str;

/// A hint, as far as it is said.
#[derive(Drop)]
pub(crate) struct Hint {
    alloc: Global,
    text: Vec<u8>,
    /// Whether there was memory for all of it.
    is_whole: bool,
}

impl Hint {
    /// One that says nothing yet.
    pub(crate) fn new(alloc: Global) -> Hint {
        Hint {
            alloc,
            text: Vec::new(alloc),
            is_whole: true,
        }
    }

    /// What was said, where that is something and all of it.
    pub(crate) fn whole(self) -> Option<Vec<u8>> {
        if self.is_whole && !self.text.is_empty() {
            Some(self.text)
        } else {
            None
        }
    }

    pub(crate) fn is_empty(&self) -> bool {
        self.text.is_empty()
    }

    /// What was said, as text.
    pub(crate) fn text(&self) -> Option<&str> {
        str::from_utf8(&self.text).ok()
    }

    /// Takes back what was said.
    pub(crate) fn clear(&mut self) {
        self.text.clear();
    }

    pub(crate) fn say(&mut self, text: &[u8]) {
        if self.text.extend_from_slice(text).is_err() {
            self.is_whole = false;
        }
    }

    pub(crate) fn say_text(&mut self, text: &str) {
        self.say(text.as_bytes());
    }

    pub(crate) fn say_quoted(&mut self, text: &str) {
        self.say(b"\"");
        self.say_text(text);
        self.say(b"\"");
    }

    /// Says the digits of a number.
    pub(crate) fn say_number(&mut self, number: u64) {
        match number.to_string(self.alloc) {
            Ok(digits) => self.say_text(digits.as_str()),
            Err(_) => self.is_whole = false,
        }
    }

    /// Says what another does.
    pub(crate) fn append(&mut self, other: &Hint) {
        self.say(&other.text);
        self.is_whole = self.is_whole && other.is_whole;
    }
}

/// Texts, one behind the other.
pub(crate) fn text_of(alloc: Global, parts: &[&str]) -> Option<String> {
    parts.concat(alloc).ok()
}

/// The first line of a text.
pub(crate) fn first_line(bytes: &[u8]) -> Option<&str> {
    match str::from_utf8(bytes) {
        Ok(text) => text.lines().next(),
        Err(_) => None,
    }
}
