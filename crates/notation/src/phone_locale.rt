//! Locales with a script, as a phone reads them.

ghost use Rattle.std.specs.Prelude.{◌≡◌, ◌≤◌, ◌+◌, ◌++◌, nat_le, true, Bool, length, if◌then◌else◌, Some, None, option_map, IfSome};
ghost use Rattle.config_record.specs.locales.Text.{IsGiven};
ghost use Rattle.notation.specs.PhoneLocale.{behind_dash, dashed, utf8_locale, phone_locale};

use arrayvec::ArrayVec;
use config_record::{Locale, LocaleRule, read_locale};

/// The length of the longest text, as `fil-Latn-419`.
const LONGEST: usize = 12;

/// The locale of a language and of one or two texts behind it, which a part has with other signs than dashes between them.
#[tactic(auto, unfolding(crate::specs::PhoneLocale::phone_locale))]
pub(crate) fn phone_locale(
    language: &[u8],
    second: Option<&[u8]>,
    third: Option<&[u8]>,
) -> Option<Locale>
    ensures value { result ≡ phone_locale (dashed language.now (option_map (λ text. text.now) second.entry) (option_map (λ text. text.now) third.entry)) }
    ensures given { IfSome result IsGiven }
{
    let mut text = ArrayVec::new();
    if !add(language, &mut text)
        || !add_behind_dash(second, &mut text)
        || !add_behind_dash(third, &mut text)
    {
        return None;
    }
    utf8_locale(&text)
}

// False where there is no room for it.
fn add(bytes: &[u8], text: &mut ArrayVec<u8, LONGEST>) -> bool
    ensures fits { result ≡ nat_le (length text.old.items + length bytes.now) 12 }
    ensures added { result ≡ true → text.new.items ≡ text.old.items ++ bytes.now }
{
    text.try_extend_from_slice(bytes).is_ok()
}

fn add_behind_dash(part: Option<&[u8]>, text: &mut ArrayVec<u8, LONGEST>) -> bool
    requires room { length text.old.items ≤ 12 }
    ensures fits { result ≡ nat_le (length text.old.items + length (behind_dash (option_map (λ text. text.now) part.entry))) 12 }
    ensures added { result ≡ true → text.new.items ≡ text.old.items ++ behind_dash (option_map (λ text. text.now) part.entry) }
{
    match part {
        Some(part) => add(b"-", text) && add(part, text),
        None => true,
    }
}

#[tactic(auto, unfolding(crate::specs::PhoneLocale::utf8_locale))]
fn utf8_locale(text: &[u8]) -> Option<Locale>
    ensures value { result ≡ utf8_locale text.now }
    ensures given { IfSome result IsGiven }
{
    match str::from_utf8(text) {
        Ok(text) => read_locale(text, LocaleRule::Android).ok(),
        Err(_) => None,
    }
}
