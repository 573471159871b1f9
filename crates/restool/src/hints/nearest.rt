//! The nearest of some texts.

use crate::hints::text::Hint;
use std::alloc::Global;
use strsim::levenshtein;

/// Looks for the text that is nearest to one that was written.
#[derive(Clone, Copy)]
pub(crate) struct Nearest<'w, 'n> {
    wanted: &'w str,
    /// As many edits are too many.
    too_many: usize,
    /// The word that stands for the nearest text.
    pub found: Option<&'n str>,
}

impl<'w, 'n> Nearest<'w, 'n> {
    /// Looks for what was wanted, which is all that was written, or a part of it.
    pub(crate) fn to(written: &str, wanted: &'w str) -> Nearest<'w, 'n> {
        Nearest {
            wanted,
            too_many: written.len() / 3 + 2,
            found: None,
        }
    }

    /// Keeps the word that stands for a text where none before is as near.
    pub(crate) fn offer(&mut self, alloc: Global, text: &str, word: &'n str) {
        if text.len().abs_diff(self.wanted.len()) < self.too_many
            && let Ok(edits) = levenshtein(alloc, self.wanted, text)
            && edits < self.too_many
        {
            self.too_many = edits;
            self.found = Some(word);
        }
    }

    /// Whether what was found is as near as what another has found.
    pub(crate) fn is_as_near_as(&self, other: &Nearest<'_, '_>) -> bool {
        self.found.is_some() && self.too_many <= other.too_many
    }

    /// Says what was found, behind a text.
    pub(crate) fn say(&self, before: &[u8], hint: &mut Hint) {
        if let Some(near) = self.found {
            hint.say(before);
            hint.say_text(near);
            hint.say(b"?");
        }
    }
}
