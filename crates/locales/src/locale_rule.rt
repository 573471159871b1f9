//! By which rule a locale is compared.

ghost use Rattle.std.specs.Prelude.{◌≡◌};
ghost use Rattle.locales.specs.LocaleRule.{rule_of};

use crate::locale::Locale;
use crate::zero::is_zero;

/// By which rule locales are read and compared.
#[derive(Clone, Copy, Debug, PartialEq, Eq)]
pub enum LocaleRule {
    /// By language and region alone.
    LanguageAndRegion,
    /// As a phone does it: by language and script, and by a tree of regions.
    Android,
}

impl LocaleRule {
    /// The one by which a device's locale is compared. Its script says it: zeros, or that of the text, or the likely one, or
    /// that none is known.
    pub fn of(locale: Locale) -> LocaleRule
        ensures { result ≡ rule_of locale }
    {
        if is_zero(&locale.script) {
            LocaleRule::LanguageAndRegion
        } else {
            LocaleRule::Android
        }
    }
}
