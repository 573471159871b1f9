//! The record that says something, or more, is better.

ghost use Rattle.std.specs.Prelude.{◌≡◌};
ghost use Rattle.config_match.specs.Comparisons.{is_given, given_answer, larger_answer, always_larger_answer};

use crate::answer::Answer;

/// Whether a number says something.
pub(crate) fn is_given(number: u64) -> bool
    ensures { result ≡ is_given number }
{
    number != 0
}

pub(crate) fn given(a: u64, b: u64, device: u64) -> Answer
    ensures { result ≡ given_answer a b device }
{
    Answer::decided(a != b && is_given(device), is_given(a))
}

pub(crate) fn larger(a: u64, b: u64, device: u64) -> Answer
    ensures { result ≡ larger_answer a b device }
{
    Answer::decided(a != b && is_given(device), a > b)
}

pub(crate) fn always_larger(a: u64, b: u64) -> Answer
    ensures { result ≡ always_larger_answer a b }
{
    Answer::decided(a != b, a > b)
}
