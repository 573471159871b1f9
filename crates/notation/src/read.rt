//! The device of a line.

ghost use Rattle.std.specs.Prelude.{◌≡◌, ℕ, List, Ok, IfOk};
ghost use Rattle.config_record.specs.DeviceSeen.{device_numbers};
ghost use Rattle.config_record.specs.DeviceSeen as device;
ghost use Rattle.config_record.specs.locales.Text.{IsGiven};
ghost use Rattle.config_record.specs.locales.declared.locale_rule.LocaleRule.TheVariants.{Android};
ghost use Rattle.notation.specs.LineLocale.{IsGivenFor};
ghost use Rattle.notation.specs.Fault.{seen};
ghost use Rattle.notation.specs.Parts.{parts_of};
ghost use Rattle.notation.specs.Reorders.{Reorders};
ghost use Rattle.notation.specs.Said.{with_parts};
ghost use Rattle.notation.specs.Config.{nothing_said, or_no_device, device_of_fields, device_said, device_of_config_by, without_locale, with_locale};

use crate::fault::ConfigWordFault;
use crate::parts::first_part;
use crate::said::Said;
use config_record::{Coord, Device, DeviceFault, Fields, Locale, LocaleRule};

/// The device of a line as Android writes it: its parts in any order, each kind at most once. The locale is read by a rule,
/// by which it is then compared. For a phone it may have a script, as `b+zh+Hans+CN` has.
///
/// ```text
/// let device = read_config_by("mcc310-mnc4-es-rMX-ldltr-sw411dp-port-560dpi-v27", rule)?;
/// ```
pub fn read_config_by(line: &str, rule: LocaleRule) -> Result<Device, ConfigWordFault<'_>>
    ensures device { seen device_numbers result ≡ device_of_config_by rule line.now }

    // Its parts say the same in any order.
    ensures any_order { IfOk result (λ device. (other : List ℕ) → Reorders (parts_of line.now) (parts_of other) → device_of_config_by rule other ≡ Ok (device_numbers device)) }
{
    read_line(line.as_bytes(), rule)
}

#[tactic(auto, unfolding(crate::specs::Config::device_of_config_by))]
pub(crate) fn read_line(line: &[u8], rule: LocaleRule) -> Result<Device, ConfigWordFault<'_>>
    ensures { seen device_numbers result ≡ device_of_config_by rule line.now }
{
    device_said(said_in(line, rule)?, rule)
}

fn said_in(line: &[u8], rule: LocaleRule) -> Result<Said, ConfigWordFault<'_>>
    ensures value { seen (λ said. said) result ≡ with_parts rule (parts_of line.now) (nothing_said rule) }
    ensures given { IfOk result (λ said. IsGivenFor rule said.fields.locale) }
{
    let mut said = Said::nothing(rule);
    let mut left = Some(line);
    'parts: while let Some(text) = left {
        let (part, behind) = first_part(text);
        said = said.with_part(part, rule)?;
        left = behind;
    }
    Ok(said)
}

#[tactic(auto, unfolding(crate::specs::Config::device_said))]
fn device_said(said: Said, rule: LocaleRule) -> Result<Device, ConfigWordFault<'static>>
    requires { IsGivenFor rule said.fields.locale }
    ensures { seen device_numbers result ≡ device_said rule said }
{
    match device_of_fields(&said.fields, rule) {
        Ok(device) => Ok(device),
        Err(fault) => Err(ConfigWordFault::Device(fault)),
    }
}

#[tactic(auto, unfolding(crate::specs::Config::device_of_fields))]
fn device_of_fields(fields: &Fields, rule: LocaleRule) -> Result<Device, DeviceFault>
    requires { IsGivenFor rule fields.now.locale }
    ensures { device.seen result ≡ device_of_fields rule fields.now }
{
    match rule {
        LocaleRule::LanguageAndRegion => Device::check(fields),
        LocaleRule::Android => {
            let plain = Device::check(&without_locale(fields))?;
            Ok(with_locale(plain, fields.locale))
        }
    }
}

fn without_locale(fields: &Fields) -> Fields
    ensures { result ≡ without_locale fields.now }
{
    Fields {
        locale: Locale::NONE,
        ..*fields
    }
}

#[tactic(auto, using(crate::proofs::DeviceSteps::located))]
fn with_locale(device: Device, locale: Locale) -> Device
    requires { IsGiven locale }
    ensures { device_numbers result ≡ with_locale locale (device_numbers device) }
{
    device.changed(Coord::Locale, locale.number())
}
