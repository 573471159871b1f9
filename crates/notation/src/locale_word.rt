//! The words of a device's locales.

ghost use Rattle.std.specs.Prelude.{◌≡◌, option_map, OnOk};
ghost use Rattle.std.specs.List.{flat_map};
ghost use Rattle.contract_words.specs.Writes.{Writes};
ghost use Rattle.config_record.specs.locales.Locale.{dash};
ghost use Rattle.notation.specs.Cut.{cut_at};
ghost use Rattle.notation.specs.LocaleWord.{is_region, with_plus, word_by, text_word, locale_word};

use crate::cut::cut_at;
use crate::locale_parts::write_behind;
use crate::words::is_word;
use arrayvec::ArrayVec;
use config_record::{Locale, write_locale};
use std::io::{self, Write};

/// The length of the longest text of a locale: a language and a region of which neither is in letters, and a script.
pub(crate) const LONGEST: usize = 23;

/// Writes the word of a locale, by its number: `es-rMX`, or `b+sr+Latn+RS` where a script is shown, or `no-locale`.
#[tactic(auto, unfolding(crate::specs::LocaleWord::locale_word))]
pub(crate) fn write_locale_word<W: Write + Drop>(number: u64, out: &mut W) -> io::Result<()>
    ensures { Writes W.contents out.old out.new result (locale_word number) }
{
    let mut text = ArrayVec::<u8, LONGEST>::new();
    write_locale(Locale::of_number(number), &mut text)?;
    write_text_word(&text, out)
}

#[tactic(auto, unfolding(crate::specs::LocaleWord::text_word))]
fn write_text_word<W: Write + Drop>(text: &[u8], out: &mut W) -> io::Result<()>
    ensures { Writes W.contents out.old out.new result (text_word text.now) }
{
    if text.is_empty() {
        return out.write_all(b"no-locale");
    }
    let (language, others) = cut_at(b'-', text);
    write_by(text, language, others, out)
}

fn write_by<W: Write + Drop>(
    text: &[u8],
    language: &[u8],
    others: Option<&[u8]>,
    out: &mut W,
) -> io::Result<()>
    ensures { Writes W.contents out.old out.new result
        (word_by text.now (language.now, option_map (λ others. others.now) others.entry)) }
{
    if is_region(others) && !is_word(language) {
        out.write_all(language)?;
        return write_behind(b"-r", others, out);
    }
    out.write_all(b"b+")?;
    write_with_pluses(text, out)
}

// A script is longer.
fn is_region(text: Option<&[u8]>) -> bool
    ensures { result ≡ is_region (option_map (λ text. text.now) text.entry) }
{
    match text {
        Some(text) => text.len() <= 3,
        None => true,
    }
}

/// Writes a text with a plus for each dash.
#[tactic(auto, using(contract_words::proofs::TextSteps::puts))]
pub(crate) fn write_with_pluses<W: Write + Drop>(text: &[u8], out: &mut W) -> io::Result<()>
    ensures { Writes W.contents out.old out.new result (flat_map with_plus text.now) }
{
    for byte in text {
        write_with_plus(*byte, out)?;
    }
    Ok(())
}

#[tactic(auto, unfolding(crate::specs::LocaleWord::with_plus))]
fn write_with_plus<W: Write + Drop>(byte: u8, out: &mut W) -> io::Result<()>
    ensures { Writes W.contents out.old out.new result (with_plus byte) }
{
    out.write_all(&[if byte == b'-' { b'+' } else { byte }])
}
