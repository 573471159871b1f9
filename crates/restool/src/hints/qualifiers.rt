//! What may stand at a qualifier.

use crate::hints::text::{Hint, text_of};
use command_base::{Coord, LocaleRule};
use notation::read_config_by;
use std::alloc::Global;

/// Says what a qualifier takes in place of what stands there, and what its numbers mean.
pub(crate) fn say_takes(coord: Coord, takes: &[u8], hint: &mut Hint) {
    hint.say_quoted(coord.name());
    hint.say(takes);
    hint.say(meaning(coord));
}

/// What the numbers of a qualifier mean.
pub(crate) fn meaning<'a>(coord: Coord) -> &'a [u8] {
    match coord {
        Coord::Mcc => b"a country code, as 310",
        Coord::Mnc => b"a network code, as 4, or 65535 for 00",
        Coord::Locale => b"a text, as \"es-MX\"",
        Coord::LayoutDirection => b"1 left to right, 2 right to left",
        Coord::SmallestWidthDp | Coord::WidthDp | Coord::HeightDp => b"in dp, as 411",
        Coord::ScreenSize => b"1 small, 2 normal, 3 large, 4 xlarge",
        Coord::Long | Coord::Round | Coord::WideColor | Coord::Night => b"1 no, 2 yes",
        Coord::Hdr => b"1 low, 2 high",
        Coord::Orientation => b"1 port, 2 land, 3 square",
        Coord::UiType => {
            b"1 normal, 2 desk, 3 car, 4 television, 5 appliance, 6 watch, 7 vrheadset"
        }
        Coord::Density => b"1 to 32767, as 320 for xhdpi",
        Coord::Touchscreen => b"1 notouch, 2 stylus, 3 finger",
        Coord::KeysHidden => b"1 exposed, 2 hidden, 3 soft",
        Coord::NavHidden => b"1 exposed, 2 hidden",
        Coord::Keyboard => b"1 nokeys, 2 qwerty, 3 12key",
        Coord::Navigation => b"1 nonav, 2 dpad, 3 trackball, 4 wheel",
        Coord::Width | Coord::Height => b"in pixels, as 1080",
        Coord::Sdk => b"the version of the platform, as 27",
        Coord::Minor => b"the part of the version behind its dot, mostly 0",
    }
}

/// The number that a word of resource folders is at a qualifier, as `xhdpi` is 320; 0 where it is none.
pub(crate) fn number_of_word(alloc: Global, coord: Coord, word: &str) -> u32 {
    // A device has a density.
    let density = match coord {
        Coord::Density => "",
        _ => "-mdpi",
    };
    let Some(line) = text_of(alloc, &[word, density]) else {
        return 0;
    };
    match read_config_by(line.as_str(), LocaleRule::LanguageAndRegion) {
        Ok(device) => device.get(coord),
        Err(_) => 0,
    }
}
