//! Overlays of which nothing maps.

use crate::hints::Asked;
use crate::hints::again::Again;
use crate::hints::layers::SIDES;
use crate::hints::text::Hint;
use command_base::{Inputs, LayerFiles, LayerParts, ListedLayer, has_overlays, layers_in_word};
use std::alloc::Global;

/// The id map of an overlay that has no resource of its base.
const NOTHING: &[u8] = b"[]\n";

impl<I: Inputs> Asked<'_, '_, I> {
    /// Says which is the first overlay of a word of which nothing maps, where something was said of made maps.
    pub(crate) fn say_overlays(&self, left: &[u8], hint: &mut Hint) {
        if left.is_empty() {
            return;
        }
        let again = Again {
            inputs: self.inputs,
        };
        for side in SIDES {
            if hint.is_empty()
                && let Some(word) = self.parts.layers(*side)
                && has_overlays(word)
                && let Ok(files) = LayerFiles::read(self.alloc, &again, word)
            {
                say_of_files(self.alloc, word, &files, hint);
            }
        }
    }
}

fn say_of_files(alloc: Global, word: &str, files: &LayerFiles, hint: &mut Hint) {
    if let Ok(layers) = files.layers(alloc)
        && let Some(place) = place_of_nothing(&layers)
        && let Ok(listed) = layers_in_word(alloc, word)
    {
        say_nothing_maps(&listed, place, hint);
    }
}

// The first layer of which nothing maps.
fn place_of_nothing(layers: &[LayerParts<&[u8]>]) -> Option<usize> {
    for (place, (_table, map)) in layers.iter().enumerate() {
        if *map == Some(NOTHING) {
            return Some(place);
        }
    }
    None
}

fn say_nothing_maps(listed: &[ListedLayer<'_>], place: usize, hint: &mut Hint) {
    let Some(overlay) = listed.get(place) else {
        return;
    };
    if let Some(base) = overlay.base
        && let Some(target) = listed.get(base)
    {
        hint.say(b"nothing of layer ");
        hint.say_number(place as u64);
        hint.say(b", ");
        hint.say_text(overlay.path);
        hint.say(b", maps to ");
        hint.say_text(target.path);
        hint.say(b": does it stand behind the right base?");
    }
}
