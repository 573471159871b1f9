//! Locales that AOSP compares otherwise, by the numbers of their bytes.

ghost use Rattle.std.specs.Prelude.{◌≡◌};
ghost use Rattle.resource_tool.specs.Locales.{says_nothing, language_in, region_in, is_one_of, is_filipino, has_scripts, is_pseudolocale, has_pseudolocale, regions_differ, differs_at, differs_somewhere};

/// How far the region stands above the script.
const SCRIPTS: u64 = 0x1_0000_0000;

/// How far the language stands above the region.
const REGIONS: u64 = 65536;

/// `tl` and `fil`.
const FILIPINO_LANGUAGES: [u64; 2] = [0x746c, 0xad05];

/// The languages that some regions write in another script: `az`, `ha`, `kk`, `ku`, `ky`, `man`, `mn`, `ms`, `pa`,
/// `rif`, `sd`, `sr`, `tg`, `ug`, `unr`, `uz`, `yue`, `zh`.
const LANGUAGES_OF_SCRIPTS: [u64; 18] = [
    0x617a, 0x6861, 0x6b6b, 0x6b75, 0x6b79, 0xb40c, 0x6d6e, 0x6d73, 0x7061, 0x9511, 0x7364, 0x7372,
    0x7467, 0x7567, 0xc5b4, 0x757a, 0x9298, 0x7a68,
];

/// `en-XA` and `ar-XB`.
const PSEUDOLOCALES: [u64; 2] = [0x656e_5841_0000_0000, 0x6172_5842_0000_0000];

/// Their languages.
const LANGUAGES_OF_PSEUDOLOCALES: [u64; 2] = [0x656e, 0x6172];

/// Whether a locale has neither a language nor a region.
pub(crate) fn says_nothing(locale: u64) -> bool
    ensures { result ≡ says_nothing locale }
{
    locale / SCRIPTS == 0
}

fn language_in(locale: u64) -> u64
    ensures { result ≡ language_in locale }
{
    locale / SCRIPTS / REGIONS
}

fn region_in(locale: u64) -> u64
    ensures { result ≡ region_in locale }
{
    locale / SCRIPTS % REGIONS
}

fn is_one_of(languages: &[u64], language: u64) -> bool
    ensures { result ≡ is_one_of languages.now language }
{
    languages.contains(&language)
}

#[tactic(auto, unfolding(crate::specs::Locales::is_filipino))]
fn is_filipino(language: u64) -> bool
    ensures { result ≡ is_filipino language }
{
    is_one_of(&FILIPINO_LANGUAGES, language)
}

#[tactic(auto, unfolding(crate::specs::Locales::has_scripts))]
fn has_scripts(language: u64) -> bool
    ensures { result ≡ has_scripts language }
{
    is_one_of(&LANGUAGES_OF_SCRIPTS, language)
}

#[tactic(auto, unfolding(crate::specs::Locales::is_pseudolocale))]
fn is_pseudolocale(locale: u64) -> bool
    ensures { result ≡ is_pseudolocale locale }
{
    is_one_of(&PSEUDOLOCALES, locale)
}

#[tactic(auto, unfolding(crate::specs::Locales::has_pseudolocale))]
fn has_pseudolocale(language: u64) -> bool
    ensures { result ≡ has_pseudolocale language }
{
    is_one_of(&LANGUAGES_OF_PSEUDOLOCALES, language)
}

fn regions_differ(row_locale: u64, device_locale: u64) -> bool
    ensures { result ≡ regions_differ row_locale device_locale }
{
    if region_in(row_locale) == 0 {
        region_in(device_locale) != 0
            && (has_scripts(language_in(row_locale)) || is_pseudolocale(device_locale))
    } else {
        region_in(row_locale) != region_in(device_locale)
    }
}

/// Whether AOSP may compare a row of a locale, with a script or a variant or without, otherwise at a device of another.
#[tactic(auto, unfolding(crate::specs::Locales::differs_at))]
pub(crate) fn differs_at(row_locale: u64, set_aside: bool, device_locale: u64) -> bool
    ensures { result ≡ differs_at row_locale set_aside device_locale }
{
    let row_language = language_in(row_locale);
    let device_language = language_in(device_locale);
    if row_language == 0 {
        return set_aside;
    }
    if row_language == device_language {
        return set_aside || regions_differ(row_locale, device_locale);
    }
    is_filipino(row_language) && is_filipino(device_language)
}

/// Whether there is such a device.
#[tactic(auto, unfolding(crate::specs::Locales::differs_somewhere))]
pub(crate) fn differs_somewhere(row_locale: u64, set_aside: bool) -> bool
    ensures { result ≡ differs_somewhere row_locale set_aside }
{
    let language = language_in(row_locale);
    if set_aside {
        return true;
    }
    language != 0
        && (region_in(row_locale) != 0
            || is_filipino(language)
            || has_scripts(language)
            || has_pseudolocale(language))
}
