//! Keys and navigation that can be hidden.

ghost use Rattle.std.specs.Prelude.{◌≡◌};
ghost use Rattle.config_match.specs.Comparisons.{keys_answer, navigation_answer};

use crate::answer::Answer;
use crate::given::is_given;

/// The record that says just what the device says is better than one that says something else.
pub(crate) fn by_keys(a: u64, b: u64, device: u64) -> Answer
    ensures { result ≡ keys_answer a b device }
{
    let one_is_not_given = !is_given(a) || !is_given(b);
    let one_is_exact = a == device || b == device;
    Answer::decided(
        a != b && is_given(device) && (one_is_not_given || one_is_exact),
        is_given(a) && (!is_given(b) || a == device),
    )
}

pub(crate) fn by_navigation(a: u64, b: u64, device: u64) -> Answer
    ensures { result ≡ navigation_answer a b device }
{
    let one_is_not_given = !is_given(a) || !is_given(b);
    Answer::decided(a != b && is_given(device) && one_is_not_given, is_given(a))
}
