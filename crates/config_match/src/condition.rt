//! Whether a number of a record suits that of a device.

ghost use Rattle.std.specs.Prelude.{◌≡◌};
ghost use Rattle.config_record.specs.declared.coord.Coord.TheVariants as coords;
ghost use Rattle.config_record.specs.ComparedNumber.{record_number, device_number};
ghost use Rattle.config_record.specs.DeviceSeen.{device_numbers};
ghost use Rattle.config_record.specs.Record.{record_bytes};
ghost use Rattle.config_match.specs.Locale.{is_by_language_and_region};
ghost use Rattle.config_match.specs.Condition.{is_equal, is_at_most, keys_suit, plain_suits, locale_suits};

use crate::locale::{
    has_script_or_variant, is_by_language_and_region, language, region, says_nothing,
};
use config_record::{Coord, Device, DeviceLocale, Record, RecordLocale};

/// Exposed keys, as a number of `Coord::KeysHidden`.
const EXPOSED_KEYS: u64 = 1;

/// Keys on the screen, as a number of `Coord::KeysHidden`.
pub const SOFT_KEYS: u64 = 3;

pub(crate) fn is_equal(stored: u64, device: u64) -> bool
    ensures { result ≡ is_equal stored device }
{
    stored == 0 || stored == device
}

pub(crate) fn is_at_most(stored: u64, device: u64) -> bool
    ensures { result ≡ is_at_most stored device }
{
    stored == 0 || stored <= device
}

pub(crate) fn keys_suit(stored: u64, device: u64) -> bool
    ensures { result ≡ keys_suit stored device }
{
    is_equal(stored, device) || (stored == EXPOSED_KEYS && device == SOFT_KEYS)
}

/// Whether the locale of a record suits a device: what `Kind::LocaleSuits` asks, for callers that ask nothing
/// else.
pub fn suits_locale(stored: &Record, device: &Device) -> bool
    ensures { result ≡ locale_suits (record_number (record_bytes stored.now) coords.Locale)
        (device_number (device_numbers device.now) coords.Locale) }
{
    let stored = stored.compared_number(Coord::Locale);
    locale_suits(stored, device.compared_number(Coord::Locale))
}

/// Whether a device is compared by language and region alone, and not as a phone is.
pub fn is_compared_plainly(device: &Device) -> bool
    ensures { result ≡ is_by_language_and_region (device_number (device_numbers device.now) coords.Locale) }
{
    is_by_language_and_region(device.compared_number(Coord::Locale))
}

#[tactic(auto, unfolding(crate::specs::Condition::locale_suits))]
pub(crate) fn locale_suits(stored: u64, device: u64) -> bool
    ensures { result ≡ locale_suits stored device }
{
    if is_by_language_and_region(device) {
        plain_suits(stored, device)
    } else {
        RecordLocale::of_number(stored).suits(DeviceLocale::of_number(device))
    }
}

fn plain_suits(stored: u64, device: u64) -> bool
    ensures { result ≡ plain_suits stored device }
{
    !has_script_or_variant(stored)
        && (says_nothing(stored)
            || (language(stored) == language(device) && is_equal(region(stored), region(device))))
}
