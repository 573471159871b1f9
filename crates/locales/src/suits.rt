//! Does a record suit a device?

ghost use Rattle.std.specs.Prelude.{◌≡◌};
ghost use Rattle.locales.specs.Suits.{suits_of};

use crate::compared::{DeviceLocale, RecordLocale};
use crate::parts::{language_of, region_of};
use crate::words::are_alike;

impl RecordLocale {
    /// Whether it suits a device (AOSP: `ResTable_config::match`): it says nothing, or the language is the device's and so
    /// is the script; where that cannot be told, the region is the device's, or there is none.
    #[tactic(auto, unfolding(crate::specs::Suits::suits_of))]
    pub fn suits(self, device: DeviceLocale) -> bool
        ensures { result ≡ suits_of self device }
    {
        let (locale, wanted) = (self.locale, device.locale);
        if self.says_nothing() {
            return true;
        }
        if !are_alike(language_of(locale), language_of(wanted)) {
            return false;
        }
        let script = self.script_number();
        let wanted_script = device.script_number();
        let is_unknown = script.is_none() && !self.script_was_computed;
        if wanted_script.is_none() || is_unknown {
            return region_of(locale) == 0 || region_of(locale) == region_of(wanted);
        }
        script == wanted_script
    }
}
