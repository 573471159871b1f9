//! Which of two regions is nearer to a device, in the tree of regions.

ghost use Rattle.std.specs.Prelude.{◌≡◌, ◌==◌, position};
ghost use Rattle.locales.specs.Nearer.{is_special_spanish, stand_in, stands_in, distance, is_nearer_aside, is_nearer_locale, is_nearer_of};

use crate::compared::DeviceLocale;
use crate::facts::is_representative;
use crate::parts::{language_of, region_of};
use crate::tree::{first_of, line};
use crate::words::exactly_one;

// es-US
const US_SPANISH: u32 = 0x6573_5553;

// es-MX
const MEXICAN_SPANISH: u32 = 0x6573_4D58;

// es-419
const LATIN_AMERICAN: u32 = 0x6573_A424;

/// Whether the first of two regions is nearer to a device than the second (AOSP: `localeDataCompareRegions`).
#[tactic(auto, unfolding(crate::specs::Nearer::is_nearer_of))]
pub(crate) fn is_nearer(one: u16, other: u16, device: DeviceLocale) -> bool
    ensures { result ≡ is_nearer_of one other device }
{
    let wanted = device.locale;
    let x = language_of(wanted) + u32::from(one);
    let y = language_of(wanted) + u32::from(other);
    let script = device.script;
    is_nearer_locale(
        stand_in(x, y),
        stand_in(y, x),
        script,
        &line(wanted, script),
    )
}

// Spanish of the US or of Mexico gives way to that of Latin America.
#[tactic(auto, unfolding(crate::specs::Nearer::stand_in, crate::specs::TextNumber::number_of))]
fn stand_in(locale: u32, other: u32) -> u32
    ensures { result ≡ stand_in locale other }
{
    if is_special_spanish(locale) && !is_special_spanish(other) && other != LATIN_AMERICAN {
        LATIN_AMERICAN
    } else {
        locale
    }
}

#[tactic(auto, unfolding(crate::specs::TextNumber::number_of))]
fn is_special_spanish(locale: u32) -> bool
    ensures { result ≡ is_special_spanish locale }
{
    locale == US_SPANISH || locale == MEXICAN_SPANISH
}

// Of two locales the one that the device's line meets first.
#[tactic(auto, unfolding(crate::specs::Nearer::is_nearer_locale))]
fn is_nearer_locale(x: u32, y: u32, script: u32, wanted: &[u32]) -> bool
    ensures { result ≡ is_nearer_locale x y script wanted.now }
{
    match first_of(wanted, x, y) {
        Some(met) => met == x,
        None => is_nearer_aside(x, y, script, wanted),
    }
}

// Of two locales that the device's line does not meet.
#[tactic(auto, unfolding(crate::specs::Nearer::is_nearer_aside))]
fn is_nearer_aside(x: u32, y: u32, script: u32, wanted: &[u32]) -> bool
    ensures { result ≡ is_nearer_aside x y script wanted.now }
{
    let here = distance(&line(x, script), wanted);
    let there = distance(&line(y, script), wanted);
    if here != there {
        return here < there;
    }
    let stands_for_language = is_representative(x, script);
    if exactly_one(stands_for_language, is_representative(y, script)) {
        stands_for_language
    } else {
        region_of(x) < region_of(y)
    }
}

// How far it is from the first of a line to the first locale that stands in another one, and there to its first.
#[tactic(auto, unfolding(crate::specs::Nearer::distance))]
fn distance(from: &[u32], to: &[u32]) -> usize
    ensures { result ≡ distance from.now to.now }
{
    let up = first_shared(from, to).unwrap_or(0);
    let shared = from.get(up).copied().unwrap_or(0);
    up + place_in(to, shared).unwrap_or(0)
}

// The place of the first locale of a line that stands in another one.
fn first_shared(from: &[u32], to: &[u32]) -> Option<usize>
    ensures value { result ≡ position (stands_in to.now) from.now }
{
    from.iter().position(|locale| stands_in(to, *locale))
}

fn stands_in(line: &[u32], locale: u32) -> bool
    ensures { result ≡ stands_in line.now locale }
{
    line.iter().any(|other| *other == locale)
}

fn place_in(line: &[u32], locale: u32) -> Option<usize>
    ensures value { result ≡ position (λ other. other == locale) line.now }
{
    line.iter().position(|other| *other == locale)
}
