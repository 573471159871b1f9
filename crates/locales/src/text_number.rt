//! The number by which a locale stands in the lists.

ghost use Rattle.std.specs.Prelude.{◌≡◌};
ghost use Rattle.locales.specs.TextNumber.{number_of};

use crate::locale::Locale;

/// The number of the four bytes of its language and its region, the first one the highest. Its script does not count.
#[tactic(auto, unfolding(crate::specs::TextNumber::number_of))]
pub fn number_of(locale: Locale) -> u32
    ensures { result ≡ number_of locale }
{
    let Locale {
        language: [a, b],
        region: [c, d],
        ..
    } = locale;
    u32::from_be_bytes([a, b, c, d])
}
