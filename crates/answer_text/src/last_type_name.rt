//! The text of a type's name that comes again.

ghost use Rattle.std.specs.Prelude.{◌≡◌, true};
ghost use Rattle.std.specs.Option.{ForSome};
ghost use Rattle.contract_words.specs.Writes.{Writes};
ghost use Rattle.bags_themes.specs.string_pool.Shown.{shown_text, string_text};
ghost use Rattle.bags_themes.specs.string_pool.Text.{seen_text, text_of};

use arrayvec::ArrayVec;
use std::io::{self, Write};
use string_pool::{StringFault, Text, write_string};

/// How many bytes of text are kept; a longer text is written anew each time.
const KEPT: usize = 128;

/// The name that was written last, and its text. The rows of a type follow each other, so a text is mostly made once
/// for a type.
#[derive(Drop)]
pub(crate) struct LastTypeName<'a> {
    last: Option<Text<'a>>,
    text: ArrayVec<u8, KEPT>,
    ghost known: { ForSome last (λ last. text.items ≡ shown_text (text_of last)) },
}

impl<'a> LastTypeName<'a> {
    /// Nothing was written yet.
    pub fn none() -> Self {
        LastTypeName {
            last: None,
            text: ArrayVec::new(),
        }
    }

    // A name with its text, where that is short.
    fn of(name: Text<'a>) -> Option<Self>
        ensures { ForSome result (λ kept. kept.text.items ≡ shown_text (text_of name.entry)) }
    {
        let mut text = ArrayVec::new();
        match name.write_shown(&mut text) {
            Ok(()) => Some(LastTypeName {
                last: Some(name),
                text,
            }),
            Err(_) => None,
        }
    }

    // The text that is kept, where it is that of a name.
    fn text_of(&self, name: &Text<'_>) -> Option<&[u8]>
        ensures { ForSome result (λ text. text.now ≡ shown_text (text_of name.now)) }
    {
        match &self.last {
            Some(last) if is_same(last, name) => Some(&self.text),
            _ => None,
        }
    }

    /// Writes a name, or why there is none.
    #[tactic(auto, unfolding(crate::specs::Unfolded::string_text))]
    pub fn write<W: Write + Drop>(
        &mut self,
        name: Result<Text<'a>, StringFault>,
        out: &mut W,
    ) -> io::Result<()>
        ensures { Writes W.contents out.old out.new result (string_text (seen_text name.entry)) }
    {
        match name {
            Ok(name) => self.write_text(name, out),
            Err(_) => write_string(name, out),
        }
    }

    fn write_text<W: Write + Drop>(&mut self, name: Text<'a>, out: &mut W) -> io::Result<()>
        ensures { Writes W.contents out.old out.new result (shown_text (text_of name.entry)) }
    {
        if let Some(text) = self.text_of(&name) {
            return out.write_all(text);
        }
        match LastTypeName::of(name) {
            Some(kept) => {
                *self = kept;
                out.write_all(&self.text)
            }
            None => name.write_shown(out),
        }
    }
}

fn is_same(name: &Text<'_>, other: &Text<'_>) -> bool
    ensures { result ≡ true → text_of name.now ≡ text_of other.now }
{
    match (name, other) {
        (Text::Utf8(name), Text::Utf8(other)) => name == other,
        (Text::Utf16(name), Text::Utf16(other)) => name == other,
        _ => false,
    }
}
