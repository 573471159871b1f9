//! The texts of locales: those of a language and a region, and those that may have a script between them.

ghost use Rattle.std.specs.Prelude.{◌≡◌, ◌≢◌, ◌==◌, ◌≤◌, length, [], ◌++◌, Some, is_some, position, Ok, IfOk};
ghost use Rattle.std.specs.List.{position_or_len};
ghost use Rattle.locales.specs.contract_words.Writes.{Writes};
ghost use Rattle.locales.specs.Locale.{locale_of};
ghost use Rattle.locales.specs.declared.locale_rule.LocaleRule.TheVariants.{LanguageAndRegion, Android};
ghost use Rattle.locales.specs.LocaleRule.{rule_of};
ghost use Rattle.locales.specs.Words.{number_of_script};
ghost use Rattle.locales.specs.Text.{likely_number, in_script, in_likely_script, written_script, is_dash, language_part, behind_language, with_script, with_likely_script, scripted_locale_of, locale_by, language_alone, region_alone, text_with_script, shows_script, locale_text, IsGiven, IsGivenBy};

use crate::facts::likely;
use crate::locale::{Locale, LocaleFault, write_plain_locale};
use crate::locale_rule::LocaleRule;
use crate::text_number::number_of;
use crate::words::{UNKNOWN_SCRIPT, number_of_script};
use std::io::{self, Write};

/// The locale of a text, read by a rule. By language and region it is `""`, or a language and, if it has one, a dash and a
/// region. For a phone there may be a dash and a script behind the language: so two texts of one language, script and region
/// give one locale, since it has the script of its text, or else the likely one.
///
/// ```text
/// read_locale("zh-Hant-HK", LocaleRule::Android) // that of zh-HK
/// ```
#[tactic(auto, using(crate::proofs::GivenLemmas::is_given))]
pub fn read_locale(text: &str, rule: LocaleRule) -> Result<Locale, LocaleFault>
    ensures value { result ≡ locale_by rule text.now }
    ensures by_rule { IfOk result (λ locale. rule_of locale ≡ rule) }
    ensures given { IfOk result (λ locale. IsGiven locale) }
{
    locale_by(text, rule)
}

#[tactic(auto, unfolding(crate::specs::Text::locale_by))]
fn locale_by(text: &str, rule: LocaleRule) -> Result<Locale, LocaleFault>
    ensures value { result ≡ locale_by rule text.now }
    ensures by_rule { IfOk result (λ locale. rule_of locale ≡ rule) }
    ensures given { IfOk result (λ locale. IsGivenBy rule locale) }
{
    match rule {
        LocaleRule::LanguageAndRegion => plain_locale(text),
        LocaleRule::Android => scripted_locale(text),
    }
}

#[tactic(auto, using(crate::proofs::ReadBack::plain_by_rule, crate::proofs::ReadBack::plain_back))]
fn plain_locale(text: &str) -> Result<Locale, LocaleFault>
    ensures value { result ≡ locale_of text.now }
    ensures by_rule { IfOk result (λ locale. rule_of locale ≡ LanguageAndRegion) }
    ensures given { IfOk result (λ locale. IsGivenBy LanguageAndRegion locale) }
{
    Locale::read(text)
}

#[tactic(auto, unfolding(crate::specs::Text::scripted_locale_of))]
fn scripted_locale(text: &str) -> Result<Locale, LocaleFault>
    ensures value { result ≡ scripted_locale_of text.now }
    ensures by_rule { IfOk result (λ locale. rule_of locale ≡ Android) }
    ensures given { IfOk result (λ locale. IsGivenBy Android locale) }
{
    let bytes = text.as_bytes();
    match written_script(language_part(behind_language(bytes))) {
        Some(script) => with_script(bytes, script),
        None => with_likely_script(text),
    }
}

// A locale in the script in which it is likely written.
#[tactic(auto, unfolding(crate::specs::Text::in_likely_script))]
fn in_likely_script(locale: Locale) -> Locale
    ensures value { result ≡ in_likely_script locale }
    ensures script { number_of_script result.script ≡ likely_number locale }
    ensures some { 1 ≤ likely_number locale }
{
    in_script(likely_number(locale).to_be_bytes(), locale)
}

fn in_script(script: [u8; 4], locale: Locale) -> Locale
    ensures { result ≡ in_script script locale }
{
    Locale { script, ..locale }
}

const DASH: u8 = b'-';

fn likely_number(locale: Locale) -> u32
    ensures value { result ≡ likely_number locale }
    ensures some { 1 ≤ likely_number locale }
{
    likely(number_of(locale)).unwrap_or(UNKNOWN_SCRIPT)
}

// ---- from a text

// The text itself where it has no dash.
fn language_part(text: &[u8]) -> &[u8]
    ensures { result.now ≡ language_part text.now }
{
    &text[..first_dash(text)]
}

// Nothing where it has no dash.
fn behind_language(text: &[u8]) -> &[u8]
    ensures { result.now ≡ behind_language text.now }
{
    text.get(first_dash(text) + 1..).unwrap_or(&[])
}

// Its place, or the end.
#[tactic(auto, using(crate::proofs::TextLemmas::first_place))]
fn first_dash(text: &[u8]) -> usize
    ensures value { result ≡ position_or_len is_dash text.now }
    ensures within { result ≤ length text.now }
{
    dash_in(text).unwrap_or(text.len())
}

fn dash_in(text: &[u8]) -> Option<usize>
    ensures { result ≡ position is_dash text.now }
{
    text.iter().position(|byte| *byte == DASH)
}

fn written_script(text: &[u8]) -> Option<[u8; 4]>
    ensures { result ≡ written_script text.now }
{
    match text {
        [a, b, c, d]
            if a.is_ascii_uppercase()
                && b.is_ascii_lowercase()
                && c.is_ascii_lowercase()
                && d.is_ascii_lowercase() => { Some([*a, *b, *c, *d]) }
        _ => None,
    }
}

fn with_script(text: &[u8], script: [u8; 4]) -> Result<Locale, LocaleFault>
    requires { written_script (language_part (behind_language text.now)) ≡ Some script }
    ensures { result ≡ with_script text.now script }
{
    let language = language_part(text);
    if language.is_empty() {
        return Err(LocaleFault::Malformed);
    }
    let (_, region) = behind_language(text).split_at(script.len());
    let locale = read_pieces(language, region)?;
    Ok(in_script(script, locale))
}

fn with_likely_script(text: &str) -> Result<Locale, LocaleFault>
    ensures value { result ≡ with_likely_script text.now }
    ensures by_rule { IfOk result (λ locale. rule_of locale ≡ Android) }
    ensures given { IfOk result (λ locale. IsGivenBy Android locale) }
{
    let locale = Locale::read(text)?;
    Ok(in_likely_script(locale))
}

// The locale of two pieces of a text, of which the second begins with its first dash, or is empty.
fn read_pieces(language: &[u8], region: &[u8]) -> Result<Locale, LocaleFault>
    requires no_dash { position_or_len is_dash language.now ≡ length language.now }
    requires dash { position_or_len is_dash region.now ≡ 0 }
    ensures { result ≡ locale_of (language.now ++ region.now) }
{
    match region.split_first() {
        Some((_, region)) => Locale::of_parts(language, Some(region)),
        None => Locale::of_parts(language, None),
    }
}

// ---- as a text

/// Writes the text of a locale: the one that it is read from by its rule, or, where a part is not what a text gives, `x` and
/// the eight digits of its language and its region. Its script is written only where that is not the likely one. For callers
/// that show a locale by itself; `write_qualifiers` shows it with all others.
///
/// ```text
/// write_locale(device.locale(), &mut out)?; // fr-CA, or sr-Latn-RS
/// ```
#[tactic(auto, unfolding(crate::specs::Text::locale_text))]
pub fn write_locale<W: Write + Drop>(locale: Locale, out: &mut W) -> io::Result<()>
    ensures { Writes W.contents out.old out.new result (locale_text locale) }
{
    if shows_script(locale) {
        write_with_script(locale, out)
    } else {
        write_plain_locale(locale, out)
    }
}

fn shows_script(locale: Locale) -> bool
    ensures { result ≡ shows_script locale }
{
    written_script(&locale.script).is_some()
        && number_of_script(locale.script) != likely_number(locale)
}

fn write_with_script<W: Write + Drop>(locale: Locale, out: &mut W) -> io::Result<()>
    ensures { Writes W.contents out.old out.new result (text_with_script locale) }
{
    write_plain_locale(language_alone(locale), out)?;
    out.write_all(b"-")?;
    out.write_all(&locale.script)?;
    write_plain_locale(region_alone(locale), out)
}

fn language_alone(locale: Locale) -> Locale
    ensures { result ≡ language_alone locale }
{
    Locale::without_script(locale.language, Locale::NONE.region)
}

fn region_alone(locale: Locale) -> Locale
    ensures { result ≡ region_alone locale }
{
    Locale::without_script(Locale::NONE.language, locale.region)
}
