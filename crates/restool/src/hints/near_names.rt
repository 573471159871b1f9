//! Names that are near to one that is not there.

use crate::hints::Asked;
use crate::hints::again::Again;
use crate::hints::members::is_short;
use crate::hints::nearest::Nearest;
use crate::hints::text::Hint;
use command_base::{Inputs, Side};
use resource_tool::Ids;
use std::alloc::Global;
use std::str;

/// Stands for all entries of a type.
const ALL: &str = "*";

/// How many bytes the package of an id has, as 0x7f.
const PACKAGE_SIZE: usize = 4;

/// The package of an app's own ids.
const APP: &str = "0x7f";

/// A name, or what is left of one.
#[derive(Clone, Copy)]
struct Parts<'w> {
    package: Option<&'w str>,
    /// The type and the entry.
    name: &'w str,
    type_name: &'w str,
    entry_name: &'w str,
}

impl<'w> Parts<'w> {
    fn of(word: &'w str) -> Option<Parts<'w>> {
        let (package, name) = match word.split_once(':') {
            Some((package, name)) if !package.contains('/') => (Some(package), name),
            _ => (None, word),
        };
        let (type_name, entry_name) = name.split_once('/')?;
        Some(Parts {
            package,
            name,
            type_name,
            entry_name,
        })
    }

    fn is_of_all(self) -> bool {
        self.entry_name == ALL
    }
}

/// The names that are nearest to one that is wanted.
#[derive(Clone, Copy)]
struct NearNames<'w, 'n> {
    wanted: Parts<'w>,
    /// Of the package that is wanted, or else of the app.
    own: Nearest<'w, 'n>,
    others: Nearest<'w, 'n>,
}

impl<'n> NearNames<'_, 'n> {
    // Offers what a line of `restool ids` has.
    fn offer_line(&mut self, alloc: Global, line: &'n str) {
        let Some((id, word)) = named_in(line) else {
            return;
        };
        let Some(parts) = Parts::of(word) else {
            return;
        };
        let text = if self.wanted.is_of_all() {
            parts.type_name
        } else {
            parts.name
        };
        // It is of the package that is wanted, by its name or its number; without one, of the app.
        let number = id.get(..PACKAGE_SIZE);
        let is_own = match self.wanted.package {
            Some(wanted) => parts.package == Some(wanted) || number == Some(wanted),
            None => number == Some(APP),
        };
        if is_own {
            self.own.offer(alloc, text, word);
        } else {
            self.others.offer(alloc, text, word);
        }
    }

    // Of the package that is wanted any, else the nearest.
    fn found(&self) -> Option<&'n str> {
        if self.wanted.package.is_some() || self.own.is_as_near_as(&self.others) {
            self.own.found.or(self.others.found)
        } else {
            self.others.found.or(self.own.found)
        }
    }
}

impl<I: Inputs> Asked<'_, '_, I> {
    /// Says which name of the base layers is nearest to a word.
    pub(crate) fn say_missing(&self, word: &str, hint: &mut Hint) {
        let Some(wanted) = Parts::of(word.strip_prefix('@').unwrap_or(word)) else {
            return;
        };
        let (Some(old), Some(new)) = (self.parts.layers(Side::Old), self.parts.layers(Side::New))
        else {
            return;
        };
        let mut printed = Vec::new(self.alloc);
        if is_short(wanted.name)
            && print_ids(self.alloc, self.inputs, old, &mut printed)
            && (new == old || print_ids(self.alloc, self.inputs, new, &mut printed))
        {
            say_near(self.alloc, wanted, &printed, hint);
        }
    }
}

// Which name of those that `restool ids` prints is nearest.
fn say_near(alloc: Global, wanted: Parts<'_>, printed: &[u8], hint: &mut Hint) {
    let Ok(text) = str::from_utf8(printed) else {
        return;
    };
    let nearest = if wanted.is_of_all() {
        Nearest::to(wanted.name, wanted.type_name)
    } else {
        Nearest::to(wanted.name, wanted.name)
    };
    let mut near = NearNames {
        wanted,
        own: nearest,
        others: nearest,
    };
    for line in text.lines() {
        near.offer_line(alloc, line);
    }
    if let Some(found) = near.found() {
        say_found(wanted, found, hint);
    }
}

// A name that was found; for all entries of a type, behind its package where one is wanted.
fn say_found(wanted: Parts<'_>, found: &str, hint: &mut Hint) {
    hint.say(b"did you mean ");
    match Parts::of(found) {
        Some(parts) if wanted.is_of_all() => {
            if let Some(package) = parts.package
                && wanted.package.is_some()
            {
                hint.say_text(package);
                hint.say(b":");
            }
            hint.say_text(parts.type_name);
            hint.say(b"/*");
        }
        _ => hint.say_text(found),
    }
    hint.say(b"?");
}

/// Says which resource has the entry that a word is, where that has no type.
pub(crate) fn say_bare<I: Inputs>(
    alloc: Global,
    inputs: &I,
    words: &[String],
    word: &str,
    hint: &mut Hint,
) {
    if word.contains('/') || !is_short(word) {
        return;
    }
    for layers in words {
        let mut printed = Vec::new(alloc);
        if print_ids(alloc, inputs, layers.as_str(), &mut printed) {
            return say_entry(alloc, &printed, word, hint);
        }
    }
}

fn say_entry(alloc: Global, printed: &[u8], word: &str, hint: &mut Hint) {
    let Ok(text) = str::from_utf8(printed) else {
        return;
    };
    let mut nearest = Nearest::to(word, word);
    for line in text.lines() {
        if let Some((_id, name)) = named_in(line)
            && let Some((_type_name, entry_name)) = name.split_once('/')
        {
            nearest.offer(alloc, entry_name, name);
        }
    }
    nearest.say(b"a name has its type before it: did you mean ", hint);
}

// Prints what `restool ids` prints of layers, where it answers.
fn print_ids<I: Inputs>(alloc: Global, inputs: &I, layers: &str, printed: &mut Vec<u8>) -> bool {
    Ids { layers }
        .answer(alloc, &Again { inputs }, printed)
        .is_ok()
}

// The id and the name in a line of `restool ids`, where that is a word that asks for it.
fn named_in(line: &str) -> Option<(&str, &str)> {
    let (id, word) = line.split_once(' ')?;
    if word.contains('"') {
        return None;
    }
    Some((id, word))
}
