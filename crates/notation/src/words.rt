//! The words that are a number at a coordinate.

ghost use Rattle.std.specs.Prelude.{◌≡◌, map, is_some, option_map};
ghost use Rattle.notation.specs.Words.{word_of, words, find_word, word_for};

use config_record::Coord;

/// A word, and the number that it is at a coordinate.
#[derive(Clone, Copy)]
pub(crate) struct Word {
    pub text: &'static [u8],
    pub coord: Coord,
    pub number: u64,
}

/// All of them (AOSP: `Configuration.resourceQualifierString`).
#[rattlefmt::skip]
const WORDS: [Word; 50] = [
    Word { text: b"mnc00", coord: Coord::Mnc, number: 65535 },
    Word { text: b"ldltr", coord: Coord::LayoutDirection, number: 1 },
    Word { text: b"ldrtl", coord: Coord::LayoutDirection, number: 2 },
    Word { text: b"small", coord: Coord::ScreenSize, number: 1 },
    Word { text: b"normal", coord: Coord::ScreenSize, number: 2 },
    Word { text: b"large", coord: Coord::ScreenSize, number: 3 },
    Word { text: b"xlarge", coord: Coord::ScreenSize, number: 4 },
    Word { text: b"notlong", coord: Coord::Long, number: 1 },
    Word { text: b"long", coord: Coord::Long, number: 2 },
    Word { text: b"notround", coord: Coord::Round, number: 1 },
    Word { text: b"round", coord: Coord::Round, number: 2 },
    Word { text: b"nowidecg", coord: Coord::WideColor, number: 1 },
    Word { text: b"widecg", coord: Coord::WideColor, number: 2 },
    Word { text: b"lowdr", coord: Coord::Hdr, number: 1 },
    Word { text: b"highdr", coord: Coord::Hdr, number: 2 },
    Word { text: b"port", coord: Coord::Orientation, number: 1 },
    Word { text: b"land", coord: Coord::Orientation, number: 2 },
    Word { text: b"square", coord: Coord::Orientation, number: 3 },
    Word { text: b"desk", coord: Coord::UiType, number: 2 },
    Word { text: b"car", coord: Coord::UiType, number: 3 },
    Word { text: b"television", coord: Coord::UiType, number: 4 },
    Word { text: b"appliance", coord: Coord::UiType, number: 5 },
    Word { text: b"watch", coord: Coord::UiType, number: 6 },
    Word { text: b"vrheadset", coord: Coord::UiType, number: 7 },
    Word { text: b"notnight", coord: Coord::Night, number: 1 },
    Word { text: b"night", coord: Coord::Night, number: 2 },
    Word { text: b"ldpi", coord: Coord::Density, number: 120 },
    Word { text: b"mdpi", coord: Coord::Density, number: 160 },
    Word { text: b"tvdpi", coord: Coord::Density, number: 213 },
    Word { text: b"hdpi", coord: Coord::Density, number: 240 },
    Word { text: b"xhdpi", coord: Coord::Density, number: 320 },
    Word { text: b"xxhdpi", coord: Coord::Density, number: 480 },
    Word { text: b"xxxhdpi", coord: Coord::Density, number: 640 },
    Word { text: b"anydpi", coord: Coord::Density, number: 65534 },
    Word { text: b"nodpi", coord: Coord::Density, number: 65535 },
    Word { text: b"notouch", coord: Coord::Touchscreen, number: 1 },
    Word { text: b"stylus", coord: Coord::Touchscreen, number: 2 },
    Word { text: b"finger", coord: Coord::Touchscreen, number: 3 },
    Word { text: b"keysexposed", coord: Coord::KeysHidden, number: 1 },
    Word { text: b"keyshidden", coord: Coord::KeysHidden, number: 2 },
    Word { text: b"keyssoft", coord: Coord::KeysHidden, number: 3 },
    Word { text: b"nokeys", coord: Coord::Keyboard, number: 1 },
    Word { text: b"qwerty", coord: Coord::Keyboard, number: 2 },
    Word { text: b"12key", coord: Coord::Keyboard, number: 3 },
    Word { text: b"navexposed", coord: Coord::NavHidden, number: 1 },
    Word { text: b"navhidden", coord: Coord::NavHidden, number: 2 },
    Word { text: b"nonav", coord: Coord::Navigation, number: 1 },
    Word { text: b"dpad", coord: Coord::Navigation, number: 2 },
    Word { text: b"trackball", coord: Coord::Navigation, number: 3 },
    Word { text: b"wheel", coord: Coord::Navigation, number: 4 },
];

#[tactic(auto, unfolding(crate::specs::Words::words))]
fn all_words() -> &'static [Word]
    ensures { map word_of result.now ≡ words }
{
    &WORDS
}

/// The word that a text is.
pub(crate) fn find_word(text: &[u8]) -> Option<Word>
    ensures { option_map word_of result ≡ find_word words text.now }
{
    word_among(all_words(), text)
}

#[tactic(auto, unfolding(crate::specs::Words::find_word))]
fn word_among(words: &[Word], text: &[u8]) -> Option<Word>
    ensures { option_map word_of result ≡ find_word (map word_of words.now) text.now }
{
    'words: for word in words {
        if word.text == text {
            return Some(*word);
        }
    }
    None
}

/// Whether a text is the word of some number.
pub(crate) fn is_word(text: &[u8]) -> bool
    ensures { result ≡ is_some (find_word words text.now) }
{
    find_word(text).is_some()
}

/// The text of the word that is a number at a coordinate.
pub(crate) fn word_for(coord: Coord, number: u32) -> Option<&'static [u8]>
    ensures { option_map (λ text. text.now) result ≡ word_for words coord number }
{
    text_among(all_words(), coord, number)
}

#[tactic(auto, unfolding(crate::specs::Words::word_for))]
fn text_among(words: &[Word], coord: Coord, number: u32) -> Option<&'static [u8]>
    ensures { option_map (λ text. text.now) result ≡ word_for (map word_of words.now) coord number }
{
    'words: for word in words {
        if word.coord.place() == coord.place() && word.number == u64::from(number) {
            return Some(word.text);
        }
    }
    None
}
