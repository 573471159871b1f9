//! What a box has to say, and does not.

ghost use Rattle.std.specs.Prelude.{◌≡◌, ◌==◌};
ghost use Rattle.std.specs.List.{list_all};
ghost use Rattle.command_base.specs.cert_tree.config_box.BoxSeen.{values_seen};
ghost use Rattle.command_base.specs.cert_tree.box_answers.NumberSet.{locale_numbers};
ghost use Rattle.resource_tool.specs.BoxGaps.{locales_of_set, is_unknown};
ghost use Rattle.resource_tool.specs.Locales.{says_nothing};

use crate::locale_differences::says_nothing;
use command_base::{Locale, Values};

/// The locales of a coordinate that has some.
pub(crate) fn locales_of(values: Values<'_>) -> &[Locale]
    ensures { locale_numbers result.now ≡ locales_of_set (values_seen values.entry) }
{
    match values {
        Values::Locales(locales) => locales,
        _ => &[],
    }
}

/// Whether all of them say nothing.
pub(crate) fn is_unknown(values: Values<'_>) -> bool
    ensures { result ≡ is_unknown (values_seen values.entry) }
{
    match values {
        Values::Range(low, high) => low == 0 && high == 0,
        Values::Numbers(numbers) => are_zero(numbers),
        Values::Locales(locales) => are_unknown(locales),
    }
}

fn are_zero(numbers: &[u32]) -> bool
    ensures { result ≡ list_all (λ n. n == 0) numbers.now }
{
    for number in numbers {
        if *number != 0 {
            return false;
        }
    }
    true
}

fn are_unknown(locales: &[Locale]) -> bool
    ensures { result ≡ list_all says_nothing (locale_numbers locales.now) }
{
    for locale in locales {
        if !says_nothing(locale.number()) {
            return false;
        }
    }
    true
}
