//! Which of two pairs of dimensions is nearer to the device's.

ghost use Rattle.std.specs.Prelude.{◌≡◌, pos, negsuc, ◌≤ℤ◌, ◌+ℤ◌};
ghost use Rattle.config_match.specs.Comparisons.{rest_of, rest_of_both, smaller_answer, dimensions_answer};

use crate::answer::Answer;
use crate::kind::Numbers;

/// The record that leaves less of the device's dimensions unused.
#[tactic(auto, unfolding(crate::specs::Comparisons::dimensions_answer))]
pub(crate) fn by_dimensions(a: Numbers, b: Numbers, device: Numbers) -> Answer
    ensures { result ≡ dimensions_answer a b device }
{
    by_smaller(rest_of_both(a, device), rest_of_both(b, device))
}

#[tactic(auto, unfolding(crate::specs::Comparisons::smaller_answer))]
fn by_smaller(x: i128, y: i128) -> Answer
    ensures { result ≡ smaller_answer x y }
{
    if x < y {
        Answer::Yes
    } else if y < x {
        Answer::No
    } else {
        Answer::Pass
    }
}

#[tactic(auto, unfolding(crate::specs::Comparisons::rest_of_both))]
fn rest_of_both(stored: Numbers, device: Numbers) -> i128
    ensures { result ≡ rest_of_both stored device }
{
    sum(
        rest_of(stored.first, device.first),
        rest_of(stored.second, device.second),
    )
}

#[tactic(auto, unfolding(crate::specs::Comparisons::rest_of))]
fn rest_of(stored: u64, device: u64) -> i128
    ensures value { result ≡ rest_of stored device }
    ensures low { negsuc 18446744073709551615 ≤ℤ result }
    ensures high { result ≤ℤ pos 18446744073709551615 }
{
    if device == 0 {
        0
    } else {
        i128::from(device) - i128::from(stored)
    }
}

fn sum(x: i128, y: i128) -> i128
    requires low { (negsuc 18446744073709551615 ≤ℤ x) × (negsuc 18446744073709551615 ≤ℤ y) }
    requires high { (x ≤ℤ pos 18446744073709551615) × (y ≤ℤ pos 18446744073709551615) }
    ensures { result ≡ x +ℤ y }
{
    x + y
}
