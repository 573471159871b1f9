//! What a phone compares of a record's locale and of a device's, as it is cut from their numbers.

ghost use Rattle.std.specs.Prelude.{◌≡◌};
ghost use Rattle.locales.specs.Compared.{record_locale_of, device_locale_of};

use crate::facts::likely;
use crate::words::UNKNOWN_SCRIPT;

/// How many scripts there are to a language and a region.
const SCRIPTS: u64 = 0x1_0000_0000;

/// How many there are without a variant. Above them stand those with one.
const WITHOUT_VARIANT: u64 = 0x8000_0000;

/// What a record has for a script where Android has looked for one, and has found none.
const LOOKED_FOR: u64 = 2;

/// The locale of a record, with all that a phone compares of it.
#[derive(Clone, Copy)]
pub struct RecordLocale {
    /// Its language above its region, as the lists of CLDR have them.
    pub locale: u32,
    /// The number of its own script, 0 where it has none.
    pub script: u32,
    pub has_variant: bool,
    /// Android has looked for its script: where it has none, none is known.
    pub script_was_computed: bool,
}

/// The locale of a device.
#[derive(Clone, Copy)]
pub struct DeviceLocale {
    /// Its language above its region, as the lists of CLDR have them.
    pub locale: u32,
    /// The number of its script: of that of its text, or of the likely one; 1 where none is known.
    pub script: u32,
}

impl RecordLocale {
    ghost use Rattle.locales.specs.Words.{says_nothing, script_of_record};

    /// That of a record with this number at the locale.
    #[tactic(auto, unfolding(crate::specs::Compared::record_locale_of))]
    pub fn of_number(number: u64) -> RecordLocale
        ensures { result ≡ record_locale_of number }
    {
        let kept = number % WITHOUT_VARIANT;
        RecordLocale {
            locale: (number / SCRIPTS) as u32,
            script: if kept == LOOKED_FOR { 0 } else { kept as u32 },
            has_variant: number / WITHOUT_VARIANT % 2 == 1,
            script_was_computed: kept == LOOKED_FOR,
        }
    }

    /// Whether it has neither a language nor a region.
    pub fn says_nothing(self) -> bool
        ensures { result ≡ says_nothing self }
    {
        self.locale == 0
    }

    /// The number of its script: of its own, or else, where Android has not looked for one, of the one in which its
    /// locale is likely written.
    #[tactic(auto, unfolding(crate::specs::Words::script_of_record))]
    pub fn script_number(self) -> Option<u32>
        ensures { result ≡ script_of_record self }
    {
        if self.script != 0 {
            return Some(self.script);
        }
        if self.script_was_computed {
            return None;
        }
        likely(self.locale)
    }
}

impl DeviceLocale {
    ghost use Rattle.locales.specs.Words.{script_of_device};

    /// That of a device with this number at the locale.
    #[tactic(auto, unfolding(crate::specs::Compared::device_locale_of))]
    pub fn of_number(number: u64) -> DeviceLocale
        ensures { result ≡ device_locale_of number }
    {
        DeviceLocale {
            locale: (number / SCRIPTS) as u32,
            script: (number % SCRIPTS) as u32,
        }
    }

    /// The number of its script.
    #[tactic(auto, unfolding(crate::specs::Words::script_of_device))]
    pub fn script_number(self) -> Option<u32>
        ensures { result ≡ script_of_device self }
    {
        if self.script <= UNKNOWN_SCRIPT {
            None
        } else {
            Some(self.script)
        }
    }
}
