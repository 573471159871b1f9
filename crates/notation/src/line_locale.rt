//! The part of a line that gives locales.

ghost use Rattle.std.specs.Prelude.{◌≡◌, option_map, IfSome, Some};
ghost use Rattle.notation.specs.LineLocale.{plain_locale, locale_of_texts, with_others, by_dash, by_plus, one_locale, locale_in, IsGivenFor};

use crate::cut::{behind, cut_at};
use crate::phone_locale::phone_locale;
use config_record::{Locale, LocaleRule};

/// The first of the locales that a part has, with commas between them. The others are not looked at.
#[tactic(auto, unfolding(crate::specs::LineLocale::locale_in))]
pub(crate) fn locale_in(part: &[u8], rule: LocaleRule) -> Option<Locale>
    ensures value { result ≡ locale_in rule part.now }
    ensures given { IfSome result (λ locale. IsGivenFor rule locale) }
{
    let (first, _) = cut_at(b',', part);
    one_locale(first, rule)
}

#[tactic(auto, unfolding(crate::specs::LineLocale::one_locale))]
fn one_locale(text: &[u8], rule: LocaleRule) -> Option<Locale>
    ensures value { result ≡ one_locale rule text.now }
    ensures given { IfSome result (λ locale. IsGivenFor rule locale) }
{
    match behind(b"b+", text) {
        Some(marked) => by_plus(marked, rule),
        None => by_dash(text, rule),
    }
}

fn by_plus(text: &[u8], rule: LocaleRule) -> Option<Locale>
    ensures value { result ≡ by_plus rule text.now }
    ensures given { IfSome result (λ locale. IsGivenFor rule locale) }
{
    match cut_at(b'+', text) {
        (language, Some(others)) => with_others(language, others, rule),
        (language, None) => locale_of_texts(language, None, rule),
    }
}

#[tactic(auto, unfolding(crate::specs::LineLocale::with_others))]
fn with_others(language: &[u8], others: &[u8], rule: LocaleRule) -> Option<Locale>
    ensures value { result ≡ with_others rule language.now others.now }
    ensures given { IfSome result (λ locale. IsGivenFor rule locale) }
{
    match rule {
        LocaleRule::LanguageAndRegion => plain_locale(language, Some(others)),
        LocaleRule::Android => {
            let (second, third) = cut_at(b'+', others);
            phone_locale(language, Some(second), third)
        }
    }
}

fn by_dash(text: &[u8], rule: LocaleRule) -> Option<Locale>
    ensures value { result ≡ by_dash rule text.now }
    ensures given { IfSome result (λ locale. IsGivenFor rule locale) }
{
    match cut_at(b'-', text) {
        (language, Some(text)) => locale_of_texts(language, Some(behind(b"r", text)?), rule),
        (language, None) => locale_of_texts(language, None, rule),
    }
}

#[tactic(auto, unfolding(crate::specs::LineLocale::locale_of_texts))]
fn locale_of_texts(language: &[u8], region: Option<&[u8]>, rule: LocaleRule) -> Option<Locale>
    ensures value { result ≡ locale_of_texts rule language.now (option_map (λ region. region.now) region.entry) }
    ensures given { IfSome result (λ locale. IsGivenFor rule locale) }
{
    let plain = plain_locale(language, region)?;
    match rule {
        LocaleRule::LanguageAndRegion => Some(plain),
        LocaleRule::Android => phone_locale(language, region, None),
    }
}

fn plain_locale(language: &[u8], region: Option<&[u8]>) -> Option<Locale>
    ensures { result ≡ plain_locale language.now (option_map (λ region. region.now) region.entry) }
{
    if language.is_empty() {
        return None;
    }
    Locale::of_parts(language, region).ok()
}
