//! Whether a record matches a device, and what fails where it does not.

ghost use Rattle.std.specs.Prelude.{◌≡◌, false, is_none, IsTrue};
ghost use Rattle.config_match.specs.config_record.Record.{record_bytes};
ghost use Rattle.config_match.specs.config_record.DeviceSeen.{device_numbers};
ghost use Rattle.config_match.specs.Matching.{is_match, is_set_aside_at, mismatch_of, has_region_alone};

use crate::condition::{is_compared_plainly, suits_locale};
use crate::match_table::conditions;
use crate::reason::Mismatch;
use crate::table::{deciding_place, table_answer};
use config_record::{Device, Record};

/// Whether a record matches a device (AOSP: `ResTable_config::match`). One with a region and no language matches
/// none; one with a script or a variant matches none that is compared by language and region.
///
/// The locale is asked first, since most rows of a table are for a locale that is not the device's.
#[tactic(auto, using(crate::proofs::OtherLocale::no_match, crate::proofs::SetAside::no_match_aside), unfolding(crate::specs::Matching::is_match))]
pub fn matches(stored: &Record, device: &Device) -> bool
    ensures value { result ≡ is_match (record_bytes stored.now) (device_numbers device.now) }
    ensures region_alone { IsTrue (has_region_alone (record_bytes stored.now)) → result ≡ false }
    ensures set_aside { IsTrue (is_set_aside_at (record_bytes stored.now) (device_numbers device.now)) → result ≡ false }
{
    if !suits_locale(stored, device) {
        return false;
    }
    table_answer(conditions(), stored, stored, device).is_pass()
}

/// What fails first; nothing where the record matches.
#[tactic(auto, using(crate::proofs::SetAside::no_match_aside), unfolding(crate::specs::Matching::mismatch_of, crate::specs::Matching::is_match))]
pub fn mismatch(stored: &Record, device: &Device) -> Option<Mismatch>
    ensures value { result ≡ mismatch_of (record_bytes stored.now) (device_numbers device.now) }
    ensures none { is_none result ≡ is_match (record_bytes stored.now) (device_numbers device.now) }
{
    if is_set_aside_at(stored, device) {
        return Some(Mismatch::SetAside);
    }
    let rules = conditions();
    let place = deciding_place(rules, stored, stored, device)?;
    Some(Mismatch::At(rules[place].coord))
}

// By language and region a script or a variant sets a record aside.
fn is_set_aside_at(stored: &Record, device: &Device) -> bool
    ensures { result ≡ is_set_aside_at (record_bytes stored.now) (device_numbers device.now) }
{
    stored.set_aside() && is_compared_plainly(device)
}
