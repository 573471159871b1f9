//! Which of two densities is better.

ghost use Rattle.std.specs.Prelude.{◌≡◌};
ghost use Rattle.config_match.specs.Comparisons.{counted_density, is_larger_better, is_better_density, density_answer};

use crate::answer::Answer;

/// What a record without a density counts as. Beside one that says 160, each is better than the other at a device of 160 or
/// more, and neither at a lower one: the later takes over, or the earlier stays.
const MEDIUM: u64 = 160;

const ANY: u64 = 65534;

pub(crate) fn by_density(a: u64, b: u64, device: u64) -> Answer
    ensures { result ≡ density_answer a b device }
{
    Answer::decided(a != b, is_better(a, b, device))
}

fn is_better(a: u64, b: u64, device: u64) -> bool
    ensures { result ≡ is_better_density a b device }
{
    let (x, y) = (counted(a), counted(b));
    if x == ANY {
        true
    } else if y == ANY {
        false
    } else if x >= y {
        is_larger_better(y, x, device)
    } else {
        !is_larger_better(x, y, device)
    }
}

fn counted(density: u64) -> u64
    ensures { result ≡ counted_density density }
{
    if density == 0 { MEDIUM } else { density }
}

// Scaling down counts as twice as good as scaling up.
#[tactic(auto, unfolding(crate::specs::Comparisons::is_larger_better))]
fn is_larger_better(low: u64, high: u64, device: u64) -> bool
    ensures { result ≡ is_larger_better low high device }
{
    if device >= high {
        return true;
    }
    if low >= device {
        return false;
    }
    let scaled_up = low.saturating_sub(device - low);
    u128::from(scaled_up) * u128::from(high) <= u128::from(device) * u128::from(device)
}
