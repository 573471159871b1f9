//! The rows that are set aside, by the rule that compares locales.

ghost use Rattle.std.specs.Prelude.{◌≡◌};
ghost use Rattle.command_base.specs.SetAside.{rows_set_aside};

use answer_text::Stack;
use cert_tree::LocaleRule;

/// How many rows of all layers are set aside: as a phone compares locales none is.
pub fn rows_set_aside(stack: &Stack<'_>, rule: LocaleRule) -> u128
    ensures { result ≡ rows_set_aside rule stack.now }
{
    match rule {
        LocaleRule::LanguageAndRegion => stack.set_aside(),
        LocaleRule::Android => 0,
    }
}
