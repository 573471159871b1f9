//! Which of two screen sizes is better.

ghost use Rattle.std.specs.Prelude.{◌≡◌};
ghost use Rattle.config_match.specs.Comparisons.{counted_size, is_better_size, screen_size_answer};

use crate::answer::Answer;
use crate::given::is_given;

const NORMAL: u64 = 2;

pub(crate) fn by_screen_size(a: u64, b: u64, device: u64) -> Answer
    ensures { result ≡ screen_size_answer a b device }
{
    Answer::decided(a != b && is_given(device), is_better(a, b, device))
}

fn is_better(a: u64, b: u64, device: u64) -> bool
    ensures { result ≡ is_better_size a b device }
{
    if device < NORMAL {
        return a > b;
    }
    let (x, y) = (counted(a), counted(b));
    if x == y { is_given(a) } else { x > y }
}

fn counted(size: u64) -> u64
    ensures { result ≡ counted_size size }
{
    if size == 0 { NORMAL } else { size }
}
