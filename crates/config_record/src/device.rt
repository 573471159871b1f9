//! Devices: the configurations that are asked for.

ghost use Rattle.std.specs.Prelude.{◌≡◌, ◌≢◌, ◌≤◌, ◌<◌, ◌*◌, ◌^◌};
ghost use Rattle.config_record.specs.declared.coord.Coord as coord;
ghost use Rattle.config_record.specs.declared.coord.Coord.TheVariants as coords;
ghost use Rattle.config_record.specs.Coord.{greatest_of_device, number_at};
ghost use Rattle.config_record.specs.Device.{device_locale, CanHave};
ghost use Rattle.locales.specs.Text.{IsGiven};

use crate::coord::{COORD_COUNT, Coord};
use crate::fields::{DeviceFault, Fields, fill_numbers, locale_number_in};
use crate::json::device_of_members;
use json_tokens::{MOST_DEPTH, Scratch, Tokens};
use locales::{Locale, LocaleFault, LocaleRule};
use std::alloc::Global;

/// A configuration that is asked for: 24 numbers, none above the greatest of its coordinate, and a
/// locale that a text gives. The density is one of 1 to 32767.
#[derive(Clone, Copy)]
pub struct Device {
    /// What is compared at each coordinate, in their order; at the locale the number of its bytes.
    numbers: [u64; COORD_COUNT],
    ghost in_range: { (c : coord.Coord) → c ≢ coords.Locale → number_at numbers c ≤ greatest_of_device c },
    ghost with_density: { 1 ≤ number_at numbers coords.Density },
    ghost with_locale: { IsGiven (device_locale numbers) },
}

impl Device {
    ghost use Rattle.std.specs.Prelude.{IfOk, IfErr};
    ghost use Rattle.locales.specs.contract_words.Exact.{GivesOr};
    ghost use Rattle.config_record.specs.declared.fields.DeviceFault.TheVariants.{FieldRange, RegionAlone, OutOfMemory};
    ghost use Rattle.config_record.specs.ComparedNumber.{device_number};
    ghost use Rattle.config_record.specs.Device.{device_with, device_in, device_coordinate};
    ghost use Rattle.config_record.specs.DeviceJson.{device_in_json, device_in_json_by};
    ghost use Rattle.locales.specs.Locale.{IsOfSomeText};
    ghost use Rattle.config_record.specs.DeviceSeen.{device_numbers, seen};

    /// The device of these fields. For callers that have numbers and a locale, as one that asks the
    /// system it runs on; a JSON text is for `read`.
    ///
    /// ```text
    /// let mut numbers = [0; COORD_COUNT];
    /// numbers[Coord::Density.place()] = 420;
    /// numbers[Coord::Sdk.place()] = 27;
    /// let device = Device::check(&Fields { numbers, locale: Locale::read("fr-CA")? })?;
    /// ```
    pub fn check(fields: &Fields) -> Result<Device, DeviceFault>
        ensures value { seen result ≡ device_in fields.now }
        ensures numbers { IfOk result (λ device. (c : coord.Coord) → c ≢ coords.Locale
            → device_number (device_numbers device) c ≡ number_at fields.now.numbers c) }
        ensures locale { IfOk result (λ device. device_locale (device_numbers device) ≡ fields.now.locale) }
        ensures some_text { IfOk result (λ device. IsOfSomeText (device_locale (device_numbers device))) }
        ensures not_refused { IsOfSomeText fields.now.locale
            → IfErr result (λ fault. (fault ≢ RegionAlone) × (fault ≢ FieldRange coords.Locale)) }
    {
        Device::with(&fields.numbers, fields.locale.checked())
    }

    /// The device of a JSON text: an object with a number for each coordinate and a text for the locale.
    /// What is missing is 0, or no locale.
    pub fn read(alloc: Global, json: &[u8]) -> Result<Device, DeviceFault>
        ensures { GivesOr OutOfMemory device_numbers result (device_in_json json.now) }
    {
        Device::read_by(alloc, json, LocaleRule::LanguageAndRegion)
    }

    /// The same, where the text of the locale is read by a rule, by which it is then compared.
    pub fn read_by(alloc: Global, json: &[u8], rule: LocaleRule) -> Result<Device, DeviceFault>
        ensures { GivesOr OutOfMemory device_numbers result (device_in_json_by rule json.now) }
    {
        let mut scratch = Scratch::new(alloc);
        let mut tokens = Tokens::of(json, &mut scratch)?;
        let mut slots = [None; COORD_COUNT];
        let no_others = tokens.fields(MOST_DEPTH, &Coord::names(), &mut slots)?;
        tokens.end()?;
        device_of_members(&slots, no_others, rule)
    }

    /// The device of the numbers that are compared at each coordinate, in their order.
    pub fn of_numbers(numbers: [u64; COORD_COUNT]) -> Device
        requires { (c : coord.Coord) → CanHave c (number_at numbers c) }
        ensures { device_numbers result ≡ numbers }
    {
        Device { numbers }
    }

    #[tactic(auto, unfolding(crate::specs::Device::device_with, crate::specs::Coord::all_coords))]
    pub(crate) fn with(
        asked: &[u64; COORD_COUNT],
        locale: Result<Locale, LocaleFault>,
    ) -> Result<Device, DeviceFault>
        requires { IfOk locale (λ locale. IsGiven locale) }
        ensures { seen result ≡ device_with asked.now locale }
    {
        let mut numbers = [0; COORD_COUNT];
        fill_numbers(asked, locale_number_in(locale), &Coord::ALL, &mut numbers)?;
        Ok(Device { numbers })
    }

    /// The number at a coordinate; 0 at the locale.
    #[tactic(auto, unfolding(crate::specs::Device::device_coordinate))]
    pub fn get(&self, coord: Coord) -> u32
        ensures value { result ≡ device_coordinate (device_numbers self.now) coord }
        ensures within { result ≤ greatest_of_device coord }
    {
        match coord {
            Coord::Locale => 0,
            _ => self.compared_number(coord) as u32,
        }
    }

    /// The number that is compared with that of a record: the one of a coordinate, or of the bytes of the
    /// locale, language first. A locale without a language has no region, and
    /// no script is known.
    pub fn compared_number(&self, coord: Coord) -> u64
        ensures value { result ≡ device_number (device_numbers self.now) coord }
        ensures within { coord ≢ coords.Locale → result ≤ greatest_of_device coord }
        ensures with_density { coord ≡ coords.Density → 1 ≤ result }
        ensures with_language { coord ≡ coords.Locale → result < 65536 * 2 ^ 32 → result ≤ 1 }
    {
        self.numbers[coord.place()]
    }

    /// Its locale, with the script by which it is compared.
    pub fn locale(&self) -> Locale
        ensures value { result ≡ device_locale (device_numbers self.now) }
        ensures given { IsGiven result }
    {
        Locale::of_number(self.compared_number(Coord::Locale))
    }

    /// The same device with another number to compare at one coordinate; at the locale that of the bytes
    /// of another locale.
    pub fn changed(&self, at: Coord, number: u64) -> Device
        requires { CanHave at number }
        ensures same { device_number (device_numbers result) at ≡ number }
        ensures others { (c : coord.Coord) → c ≢ at
            → device_number (device_numbers result) c ≡ device_number (device_numbers self.now) c }
    {
        let mut numbers = self.numbers;
        numbers[at.place()] = number;
        Device { numbers }
    }
}
