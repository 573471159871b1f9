//! Locales, as the number of their eight bytes, language first, script last.

ghost use Rattle.std.specs.Prelude.{◌≡◌};
ghost use Rattle.config_match.specs.Locale.{language, region, says_nothing, is_by_language_and_region};
ghost use Rattle.config_record.specs.ComparedNumber.{has_script_or_variant};
ghost use Rattle.config_match.specs.Comparisons.{locale_rank, plain_answer, phone_answer, locale_answer};

use crate::answer::Answer;
use crate::given::{always_larger, is_given};
use config_record::{DeviceLocale, RecordLocale};

/// How many scripts there are to a region: a script has four bytes.
const SCRIPTS: u64 = 0x1_0000_0000;

/// How many regions there are to a language: a region has two bytes.
const REGIONS: u64 = 0x1_0000;

/// What a record has for a script where Android has looked for one, and has found none.
const LOOKED_FOR: u64 = 2;

pub(crate) fn language(locale: u64) -> u64
    ensures { result ≡ language locale }
{
    locale / SCRIPTS / REGIONS
}

pub(crate) fn region(locale: u64) -> u64
    ensures { result ≡ region locale }
{
    locale / SCRIPTS % REGIONS
}

pub(crate) fn says_nothing(locale: u64) -> bool
    ensures { result ≡ says_nothing locale }
{
    locale / SCRIPTS == 0
}

/// Of a record.
pub(crate) fn has_script_or_variant(locale: u64) -> bool
    ensures { result ≡ has_script_or_variant locale }
{
    let script = locale % SCRIPTS;
    script != 0 && script != LOOKED_FOR
}

/// Whether a device is compared so, and not as a phone is.
pub(crate) fn is_by_language_and_region(device: u64) -> bool
    ensures { result ≡ is_by_language_and_region device }
{
    device % SCRIPTS == 0
}

/// The one that says more; on a phone the one that is nearer to the device's.
#[tactic(auto, unfolding(crate::specs::Comparisons::locale_answer))]
pub(crate) fn by_locale(a: u64, b: u64, device: u64) -> Answer
    ensures { result ≡ locale_answer a b device }
{
    if is_by_language_and_region(device) {
        by_rank(a, b)
    } else {
        as_a_phone(a, b, device)
    }
}

fn by_rank(a: u64, b: u64) -> Answer
    ensures { result ≡ plain_answer a b }
{
    always_larger(rank(a), rank(b))
}

fn as_a_phone(a: u64, b: u64, device: u64) -> Answer
    ensures { result ≡ phone_answer a b device }
{
    let (a, b) = (RecordLocale::of_number(a), RecordLocale::of_number(b));
    if a.is_better(b, DeviceLocale::of_number(device)) {
        Answer::Yes
    } else {
        Answer::Pass
    }
}

fn rank(locale: u64) -> u64
    ensures { result ≡ locale_rank locale }
{
    match (is_given(language(locale)), is_given(region(locale))) {
        (true, true) => 2,
        (false, false) => 0,
        (true, false) | (false, true) => 1,
    }
}
