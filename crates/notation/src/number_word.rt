//! The words of a device's numbers, and the letters of those that have none.

ghost use Rattle.std.specs.Prelude.{◌≡◌, OnOk};
ghost use Rattle.std.specs.Fmt.{decimal};
ghost use Rattle.contract_words.specs.Writes.{Writes};
ghost use Rattle.notation.specs.Forms.{forms, form_for};
ghost use Rattle.notation.specs.NumberWord.{letters_of, letters_by, letters_at, in_letters, number_text, number_word};

use crate::forms::form_for;
use crate::words::word_for;
use config_record::Coord;
use std::io::{self, Write};

/// What stands before a number and behind it. The sign is left out where another one stands there.
#[derive(Clone, Copy)]
pub(crate) struct Letters {
    pub front: &'static [u8],
    pub sign: &'static [u8],
    pub end: &'static [u8],
}

/// Those of a coordinate.
#[tactic(auto, unfolding(crate::specs::NumberWord::letters_at))]
pub(crate) fn letters_at(coord: Coord) -> Letters
    ensures { letters_of result ≡ letters_at coord }
{
    match coord {
        Coord::Sdk => Letters {
            front: b"v",
            sign: b"",
            end: b"",
        },
        _ => letters_by(coord),
    }
}

fn letters_by(coord: Coord) -> Letters
    ensures { letters_of result ≡ letters_by coord (form_for forms coord) }
{
    match form_for(coord) {
        Some(form) => Letters {
            front: form.front,
            sign: b"",
            end: form.end,
        },
        None => Letters {
            front: coord.name().as_bytes(),
            sign: b"=",
            end: b"",
        },
    }
}

/// Writes `land`, or `sw600dp`, or `width=600`.
#[tactic(auto, unfolding(crate::specs::NumberWord::number_word))]
pub(crate) fn write_number_word<W: Write + Drop>(
    coord: Coord,
    number: u32,
    out: &mut W,
) -> io::Result<()>
    ensures { Writes W.contents out.old out.new result (number_word coord number) }
{
    match word_for(coord, number) {
        Some(word) => out.write_all(word),
        None => {
            let letters = letters_at(coord);
            write_in_letters(letters, letters.sign, u64::from(number), out)
        }
    }
}

/// Writes letters around a number, with this sign before it.
pub(crate) fn write_in_letters<W: Write + Drop>(
    letters: Letters,
    sign: &[u8],
    number: u64,
    out: &mut W,
) -> io::Result<()>
    ensures { Writes W.contents out.old out.new result (in_letters (letters_of letters) sign.now (decimal number)) }
{
    out.write_all(letters.front)?;
    out.write_all(sign)?;
    write!(out, "{number}")?;
    out.write_all(letters.end)
}
