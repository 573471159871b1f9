//! Words of 32 bits as text.

ghost use Rattle.std.specs.Prelude.{◌++◌, OnOk};
ghost use Rattle.contract_words.specs.Writes.{Writes};
ghost use Rattle.res_value.specs.Word.{eight_digits, word_text};

use chunk_walk::word_digits;
use std::io::{self, Write};

/// How many bytes stand before the digits of a word.
const BEFORE_DIGITS: usize = 2;

/// Writes a word or flags as `0x` and eight small hexadecimal digits.
#[tactic(auto, unfolding(crate::specs::Word::word_text, crate::specs::Word::eight_digits))]
pub fn write_word<W: Write + Drop>(word: u32, out: &mut W) -> io::Result<()>
    ensures { Writes W.contents out.old out.new result (word_text word) }
{
    let mut text = *b"0x00000000";
    text[BEFORE_DIGITS..].copy_from_slice(&word_digits(word));
    out.write_all(&text)
}

/// Writes what stands before a word, and then the word's eight digits.
#[tactic(auto, unfolding(crate::specs::Word::eight_digits))]
pub(crate) fn write_digits<W: Write + Drop>(before: &str, word: u32, out: &mut W) -> io::Result<()>
    ensures { Writes W.contents out.old out.new result
        (before.now ++ eight_digits word) }
{
    out.write_all(before.as_bytes())?;
    out.write_all(&word_digits(word))
}
