//! The text of a record that comes again.

ghost use Rattle.std.specs.Prelude.{◌≡◌, OnOk};
ghost use Rattle.std.specs.Option.{ForSome};
ghost use Rattle.contract_words.specs.Writes.{Writes};
ghost use Rattle.bags_themes.specs.config_record.Record.{record_bytes};
ghost use Rattle.bags_themes.specs.config_record.Qualifiers.{record_text};

use arrayvec::ArrayVec;
use bags_themes::Record;
use std::io::{self, Write};

/// How many bytes of text are kept; a longer text is written anew each time.
const KEPT: usize = 256;

/// The record that was written last, and its text. The rows of a type have one record and follow each other,
/// so a text is mostly made once for a type.
#[derive(Drop)]
pub(crate) struct LastRecord<'a> {
    last: Option<Record<'a>>,
    text: ArrayVec<u8, KEPT>,
    ghost known: { ForSome last (λ last. text.items ≡ record_text (record_bytes last)) },
}

impl<'a> LastRecord<'a> {
    /// Nothing was written yet.
    pub fn none() -> Self {
        LastRecord {
            last: None,
            text: ArrayVec::new(),
        }
    }

    // A record with its text, where that is short.
    fn of(config: Record<'a>) -> Option<Self>
        ensures { ForSome result (λ kept. kept.text.items ≡ record_text (record_bytes config.entry)) }
    {
        let mut text = ArrayVec::new();
        match config.write_qualifiers(&mut text) {
            Ok(()) => Some(LastRecord {
                last: Some(config),
                text,
            }),
            Err(_) => None,
        }
    }

    // The text that is kept, where it is that of a record.
    fn text_of(&self, config: &Record<'_>) -> Option<&[u8]>
        ensures { ForSome result (λ text. text.now ≡ record_text (record_bytes config.now)) }
    {
        match &self.last {
            Some(last) if last.has_bytes_of(config) => Some(&self.text),
            _ => None,
        }
    }

    /// Writes the qualifiers of a record.
    pub fn write<W: Write + Drop>(&mut self, config: Record<'a>, out: &mut W) -> io::Result<()>
        ensures { Writes W.contents out.old out.new result (record_text (record_bytes config.entry)) }
    {
        if let Some(text) = self.text_of(&config) {
            return out.write_all(text);
        }
        match LastRecord::of(config) {
            Some(kept) => {
                *self = kept;
                out.write_all(&self.text)
            }
            None => config.write_qualifiers(out),
        }
    }
}
