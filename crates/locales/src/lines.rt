//! Lines of CLDR's lists, in order, and how one is found among them.

ghost use Rattle.std.specs.Prelude.{◌≡◌};
ghost use Rattle.locales.specs.Lines.{script_in, parent_in, has_line, key_of, IsRising, AllFit};

/// A locale and a script.
pub(crate) struct ScriptLine {
    pub locale: u32,
    pub script: u32,
}

/// A locale, and its parent under a script.
pub(crate) struct ParentLine {
    pub script: u32,
    pub locale: u32,
    pub parent: u32,
}

/// How many numbers a locale can have.
const LOCALES: u64 = 0x1_0000_0000;

/// The script in the line of a locale.
pub(crate) fn script_in(lines: &[ScriptLine], locale: u32) -> Option<u32>
    requires { IsRising (λ line. line.locale) lines.now }
    ensures { result ≡ script_in lines.now locale }
{
    match lines.binary_search_by_key(&locale, |line| line.locale) {
        Ok(place) => Some(lines[place].script),
        Err(_) => None,
    }
}

/// The parent in the line of a locale and a script.
pub(crate) fn parent_in(lines: &[ParentLine], locale: u32, script: u32) -> Option<u32>
    requires rising { IsRising (λ line. key_of line.script line.locale) lines.now }
    requires fit { AllFit (λ line. line.locale) lines.now }
    ensures { result ≡ parent_in lines.now locale script }
{
    let sought = key(script, locale);
    match lines.binary_search_by_key(&sought, |line| key(line.script, line.locale)) {
        Ok(place) => Some(lines[place].parent),
        Err(_) => None,
    }
}

/// Whether a line has the locale and the script.
pub(crate) fn has_line(lines: &[ScriptLine], locale: u32, script: u32) -> bool
    requires rising { IsRising (λ line. key_of line.script line.locale) lines.now }
    requires fit { AllFit (λ line. line.locale) lines.now }
    ensures { result ≡ has_line lines.now locale script }
{
    let sought = key(script, locale);
    lines
        .binary_search_by_key(&sought, |line| key(line.script, line.locale))
        .is_ok()
}

// A script above a locale, so that lines are in the order of scripts, and below each of locales.
fn key(script: u32, locale: u32) -> u64
    ensures { result ≡ key_of script locale }
{
    u64::from(script) * LOCALES + u64::from(locale)
}
