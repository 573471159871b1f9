//! Which of two records that suit a device is better by its locale?

ghost use Rattle.std.specs.Prelude.{◌≡◌, IsTrue, IsFalse};
ghost use Rattle.locales.specs.Suits.{suits_of};
ghost use Rattle.locales.specs.Better.{is_us_english, is_good_region, is_better_language, is_better_in_region, is_better_of};

use crate::compared::{DeviceLocale, RecordLocale};
use crate::nearer::is_nearer;
use crate::parts::{language_of, region_of};
use crate::tree::is_near_us_english;
use crate::words::{are_alike, exactly_one};

// en
const ENGLISH: u32 = 0x656E_0000;

// US
const UNITED_STATES: u16 = 0x5553;

impl RecordLocale {
    /// Whether it is better than another record that suits the device too (AOSP: `isLocaleBetterThan`). Where it is not,
    /// nothing is said: the other one need not be better.
    #[tactic(auto, using(crate::proofs::BetterLaws::one_sided, crate::proofs::BetterLaws::not_itself))]
    pub fn is_better(self, other: RecordLocale, device: DeviceLocale) -> bool
        ensures value { result ≡ is_better_of self other device }
        ensures one_sided { IsTrue result → IsTrue (suits_of self device) → IsTrue (suits_of other device) → IsFalse (is_better_of other self device) }
        ensures not_itself { IsFalse (is_better_of self self device) }
    {
        self.is_better_by_steps(other, device)
    }

    #[tactic(auto, unfolding(crate::specs::Better::is_better_of))]
    fn is_better_by_steps(self, other: RecordLocale, device: DeviceLocale) -> bool
        ensures { result ≡ is_better_of self other device }
    {
        let wanted = device.locale;
        if wanted == 0 || (self.says_nothing() && other.says_nothing()) {
            return false;
        }
        let (here, there) = (self.locale, other.locale);
        if !are_alike(language_of(here), language_of(there)) {
            return is_better_language(here, there, wanted);
        }
        if region_of(here) != region_of(there) {
            return is_nearer(region_of(here), region_of(there), device);
        }
        self.is_better_in_region(other, device)
    }

    // In one region a variant is worse, since no device has one. Of Tagalog and Filipino one is the device's own.
    #[tactic(auto, unfolding(crate::specs::Better::is_better_in_region))]
    fn is_better_in_region(self, other: RecordLocale, device: DeviceLocale) -> bool
        ensures { result ≡ is_better_in_region self other device }
    {
        let wanted = language_of(device.locale);
        if exactly_one(self.has_variant, other.has_variant) {
            return other.has_variant;
        }
        let is_own = language_of(self.locale) == wanted;
        is_own && language_of(other.locale) != wanted
    }
}

// Where one of two locales has no language: the other is better, unless the device's English is that of the US or near
// to it, where rows without a locale are in that English.
#[tactic(auto, unfolding(crate::specs::Better::is_better_language))]
fn is_better_language(here: u32, there: u32, wanted: u32) -> bool
    ensures { result ≡ is_better_language here there wanted }
{
    let has_language = language_of(here) != 0;
    if !is_us_english(wanted) {
        has_language
    } else if has_language {
        is_good_region(wanted, region_of(here))
    } else {
        !is_good_region(wanted, region_of(there))
    }
}

#[tactic(auto, unfolding(crate::specs::Better::is_us_english, crate::specs::TextNumber::number_of))]
fn is_us_english(wanted: u32) -> bool
    ensures { result ≡ is_us_english wanted }
{
    language_of(wanted) == ENGLISH
        && (region_of(wanted) == UNITED_STATES || is_near_us_english(region_of(wanted)))
}

#[tactic(auto, unfolding(crate::specs::Better::is_good_region, crate::specs::TextNumber::number_of))]
fn is_good_region(wanted: u32, region: u16) -> bool
    ensures { result ≡ is_good_region wanted region }
{
    if region_of(wanted) == UNITED_STATES {
        region == 0 || region == UNITED_STATES
    } else {
        is_near_us_english(region)
    }
}
