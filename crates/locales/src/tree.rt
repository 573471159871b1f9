//! The line of a locale in the tree of regions: itself, its parent, the parent of that, and so on.

ghost use Rattle.std.specs.Prelude.{◌≡◌, ℕ, ◌+◌};
ghost use Rattle.locales.specs.Line.{first_above, line_of, first_met, is_near_us_english_of};

use crate::facts::parent;
use arrayvec::ArrayVec;

/// How many locales a line has at most.
pub const LONGEST_LINE: usize = 4;

// en
const ENGLISH: u32 = 0x656E_0000;

// en-001
const WORLD_ENGLISH: u32 = 0x656E_8400;

// Latn
const LATIN: u32 = 0x4C61_746E;

/// The line of a locale under a script (AOSP: `findAncestors`): the locale, its parent, the parent of that, and
/// so on, up to one that has none.
///
/// ```text
/// line(0x656E_4154, 0x4C61_746E); // en-AT: en-AT, en-150, en-001, en
/// ```
#[tactic(auto, using(crate::proofs::Above::none_left))]
pub fn line(locale: u32, script: u32) -> ArrayVec<u32, LONGEST_LINE>
    ensures value { result.items ≡ line_of locale script }
    ensures whole { (more : ℕ) → first_above (3 + more) locale script ≡ first_above 3 locale script }
{
    let mut line = ArrayVec::new();
    line.push(locale);
    let mut last = locale;
    'up: while let Some(parent) = parent(last, script) {
        line.push(parent);
        last = parent;
    }
    line
}

/// Whether English in a region is nearer to that of the US than to that of the world (AOSP:
/// `localeDataIsCloseToUsEnglish`). Region 0 is none.
pub fn is_near_us_english(region: u16) -> bool
    ensures { result ≡ is_near_us_english_of region }
{
    let line = line(ENGLISH + u32::from(region), LATIN);
    first_of(&line, ENGLISH, WORLD_ENGLISH) == Some(ENGLISH)
}

/// The one of two locales to which a line comes first.
pub fn first_of(line: &[u32], one: u32, other: u32) -> Option<u32>
    ensures { result ≡ first_met line.now one other }
{
    line.iter()
        .copied()
        .find(|locale| *locale == one || *locale == other)
}
