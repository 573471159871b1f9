//! What CLDR says of a locale: its likely script, its parent, and whether it stands for its language.

ghost use Rattle.std.specs.Prelude.{◌≡◌, ◌<◌, IfSome};
ghost use Rattle.locales.specs.Lines.{script_in, parent_in};
ghost use Rattle.locales.specs.LikelyScripts.{likely_scripts};
ghost use Rattle.locales.specs.Parents.{parents};
ghost use Rattle.locales.specs.Facts.{likely_of, parent_of, is_representative_of};

use crate::lines::{has_line, parent_in, script_in};
use crate::parts::language_of;
use crate::tables::likely_scripts::LIKELY_SCRIPTS;
use crate::tables::parents::PARENTS;
use crate::tables::representatives::REPRESENTATIVES;

/// The script in which a locale is likely written (AOSP: `localeDataComputeScript`). Where the region has no line
/// of its own, that of the language says it. The pseudolocales en-XA and ar-XB have scripts of their own, `~~~A`
/// and `~~~B`.
#[tactic(auto, unfolding(crate::specs::Facts::likely_of))]
pub fn likely(locale: u32) -> Option<u32>
    ensures value { result ≡ likely_of locale }
    ensures letters { IfSome result (λ script. 1 < script) }
{
    let language = language_of(locale);
    if language == 0 {
        return None;
    }
    listed_script(locale).or_else(|| listed_script(language))
}

/// The parent of a locale under a script (AOSP: `findParent`): the listed one, or else its language. A locale
/// without a region has none.
#[tactic(auto, unfolding(crate::specs::Facts::parent_of))]
pub fn parent(locale: u32, script: u32) -> Option<u32>
    ensures { result ≡ parent_of locale script }
{
    let language = language_of(locale);
    if locale == language {
        return None;
    }
    Some(listed_parent(locale, script).unwrap_or(language))
}

/// Whether a locale stands for its language in a script (AOSP: `isRepresentative`). English has two in Latin
/// letters, and Spanish three.
#[tactic(auto, unfolding(crate::specs::Facts::is_representative_of))]
pub fn is_representative(locale: u32, script: u32) -> bool
    ensures { result ≡ is_representative_of locale script }
{
    has_line(&REPRESENTATIVES, locale, script)
}

fn listed_script(locale: u32) -> Option<u32>
    ensures value { result ≡ script_in likely_scripts locale }
    ensures letters { IfSome result (λ script. 1 < script) }
{
    script_in(&LIKELY_SCRIPTS, locale)
}

fn listed_parent(locale: u32, script: u32) -> Option<u32>
    ensures { result ≡ parent_in parents locale script }
{
    parent_in(&PARENTS, locale, script)
}
