//! Lists of layers, and the paths in them.

use crate::hints::Asked;
use crate::hints::members::{is_short, members_of};
use crate::hints::nearest::Nearest;
use crate::hints::text::{Hint, text_of};
use command_base::{Inputs, LayerList, LayerParts, Side, is_list_word, layers_in_word};
use json_input::list_of;
use serde_json::Value;
use std::alloc::Global;

/// The names of the members of an item: of its table, and of an overlay's id map.
const MEMBERS: &[&str] = &["table", "map"];

/// The stacks that a request may have.
pub(crate) const SIDES: &[Side] = &[Side::Old, Side::New];

impl<I: Inputs> Asked<'_, '_, I> {
    /// The paths of the layers of a word: of each layer its table and, where it is written, its id map.
    pub(crate) fn listed_paths(&self, word: &str) -> Option<Vec<LayerParts<String>>> {
        if is_list_word(word) {
            return paths_in_word(self.alloc, word);
        }
        let json = self.inputs.read_again(word)?;
        match LayerList::read(self.alloc, &json) {
            Ok(LayerList { paths }) => Some(paths),
            Err(_) => None,
        }
    }

    /// Says from which list a path is that was not read, and where it begins.
    pub(crate) fn say_unread(&self, path: &str, hint: &mut Hint) {
        let Some(list) = self.list_with(path) else {
            return;
        };
        hint.say_text(list);
        hint.say(b" names it, where paths begin in ");
        match self.inputs.folder() {
            Some(folder) => hint.say_text(folder.as_str()),
            None => hint.say(b"the folder where restool runs"),
        }
        // The same path may be right in the folder of the list, where a file lies there.
        if let Some((folder, _name)) = list.rsplit_once('/')
            && let Some(there) = text_of(self.alloc, &[folder, "/", path])
            && self.inputs.read_again(there.as_str()).is_some()
        {
            hint.say(b": write ");
            hint.say_text(there.as_str());
        }
    }

    // The list of layers that has a path.
    fn list_with(&self, path: &str) -> Option<&str> {
        for side in SIDES {
            let list = self.parts.layers(*side)?;
            if have_path(&self.listed_paths(list)?, path) {
                return Some(list);
            }
        }
        None
    }
}

fn paths_in_word(alloc: Global, word: &str) -> Option<Vec<LayerParts<String>>> {
    let Ok(layers) = layers_in_word(alloc, word) else {
        return None;
    };
    let mut paths = Vec::new(alloc);
    for layer in &layers {
        let path = text_of(alloc, &[layer.path])?;
        if paths.push((path, None)).is_err() {
            return None;
        }
    }
    Some(paths)
}

fn have_path(layers: &[LayerParts<String>], path: &str) -> bool {
    for (table, map) in layers {
        if table.as_str() == path || map.as_deref() == Some(path) {
            return true;
        }
    }
    false
}

/// Says of the first item of a list that is not as it has to be what is wrong.
pub(crate) fn say_layers(alloc: Global, list: &Value, hint: &mut Hint) {
    for (place, item) in list_of(list).unwrap_or(&[]).iter().enumerate() {
        let mut wrong = Hint::new(alloc);
        say_item(alloc, item, &mut wrong);
        if !wrong.is_empty() {
            hint.say(b"item ");
            hint.say_number(place as u64);
            return hint.append(&wrong);
        }
    }
}

// What is said behind the place of an item.
fn say_item(alloc: Global, item: &Value, hint: &mut Hint) {
    if !item.is_object() {
        return hint.say(b" is no object, as {\"table\":\"PATH\"}");
    }
    let Some(members) = members_of(alloc, item) else {
        return;
    };
    for member in &members {
        if !MEMBERS.contains(&member.name) || !member.value.is_string() {
            return say_member(alloc, member.name, hint);
        }
    }
    if item.get("table").is_none() {
        hint.say(b" has no \"table\"");
    }
}

// What is said of a member that is no text, or has another name.
fn say_member(alloc: Global, name: &str, hint: &mut Hint) {
    if MEMBERS.contains(&name) {
        hint.say(b": ");
        hint.say_quoted(name);
        return hint.say(b" takes a text, the path of a file");
    }
    if !is_short(name) {
        return;
    }
    let mut nearest = Nearest::to(name, name);
    for member in MEMBERS {
        nearest.offer(alloc, *member, *member);
    }
    hint.say(b": ");
    hint.say_quoted(name);
    match nearest.found {
        Some(_) => nearest.say(b": did you mean ", hint),
        None => hint.say(b" is neither table nor map"),
    }
}
