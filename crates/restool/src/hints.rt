//! What a person may try where the program stops or says no, or an overlay says nothing: one line behind all else, on a
//! terminal alone. Nothing is promised of these texts. For them files are read again; where one can't be, or memory runs out, a
//! hint says less, or there is none.

mod again;
mod answers;
mod boxes;
mod content;
mod devices;
mod goal_lists;
mod goal_words;
mod json_texts;
mod kinds;
mod layer_files;
mod layers;
mod locale_texts;
mod members;
mod near_names;
mod nearest;
mod overlays;
mod qualifiers;
mod request_parts;
mod text;
mod verdicts;
mod words;

use crate::hints::devices::say_part;
use crate::hints::near_names::say_bare;
use crate::hints::request_parts::RequestParts;
use crate::hints::text::Hint;
use crate::hints::words::say_bad_id;
use crate::request::Request;
use crate::words_fault::WordsFault;
use command_base::{Coord, Inputs, Status, Stop};
use resource_tool::Reached;
use std::alloc::Global;

/// How a command ended.
#[derive(Drop)]
pub(crate) struct CommandEnd<'e, 'a> {
    pub outcome: &'e Result<Status, Stop<'a>>,
    /// What it wrote to its output, or the end of it.
    pub said: &'e [u8],
    /// What was said of the maps that were made for its layers.
    pub left: &'e [u8],
    /// How far it came.
    pub reached: Reached,
}

/// A hint for how a command ended.
pub(crate) fn hint_of<I: Inputs>(
    alloc: Global,
    inputs: &I,
    request: &Request<'_>,
    ended: &CommandEnd<'_, '_>,
) -> Option<Vec<u8>> {
    let asked = Asked {
        alloc,
        inputs,
        parts: RequestParts::of(request),
    };
    let mut hint = Hint::new(alloc);
    match ended.outcome {
        Ok(status) => {
            if let Status::Negative = status {
                asked.say_answer(request, ended.said, ended.reached, &mut hint);
            }
            asked.say_overlays(ended.left, &mut hint);
        }
        Err(stop) => asked.say_stop(stop, &mut hint),
    }
    hint.whole()
}

/// A hint for words of the command line that ask for nothing.
pub(crate) fn hint_of_words<I: Inputs>(
    alloc: Global,
    inputs: &I,
    words: &[String],
    fault: &WordsFault<'_>,
) -> Option<Vec<u8>> {
    let mut hint = Hint::new(alloc);
    match fault {
        WordsFault::BadRule(_) => hint.say(b"write --locales android, or leave it out"),
        WordsFault::BadId(word) => {
            say_bad_id(alloc, word, &mut hint);
            if hint.is_empty() {
                say_bare(alloc, inputs, words, word, &mut hint);
            }
        }
        _ => {}
    }
    hint.whole()
}

/// What the words of a request name, and what these files have.
#[derive(Drop)]
pub(crate) struct Asked<'t, 'a, I> {
    pub alloc: Global,
    pub inputs: &'t I,
    pub parts: RequestParts<'t, 'a>,
}

impl<I: Inputs> Asked<'_, '_, I> {
    // What the files tell of it, or else what is said of all such.
    fn say_stop(&self, stop: &Stop<'_>, hint: &mut Hint) {
        match stop {
            Stop::File(path) => self.say_no_file(path, hint),
            Stop::LayerFile(path) => self.say_unread(path.as_str(), hint),
            Stop::WordOfFile(word) => self.say_word_of_file(word.as_str(), hint),
            Stop::NoResource(name) => self.say_no_resource(name.as_str(), hint),
            Stop::NoWord(Coord::UiType) => {
                hint.say(b"give \"uiType\":1, which a line means that names no kind of device");
            }
            Stop::DevicePart(part) => say_part(self.alloc, self.parts.rule, part, hint),
            Stop::Tool(fault) => self.say_fault(*fault, hint),
            _ => {}
        }
        if hint.is_empty()
            && let Some(said) = stop.hint()
        {
            hint.say_text(said);
        }
    }
}
