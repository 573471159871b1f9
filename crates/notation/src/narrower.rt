//! Where a part of a box is narrower than the whole.

ghost use Rattle.std.specs.Prelude.{◌≡◌};
ghost use Rattle.std.specs.List.{list_any};
ghost use Rattle.config_record.specs.Coord.{all_coords};
ghost use Rattle.config_box.specs.BoxSeen.{values_seen};
ghost use Rattle.notation.specs.Narrower.{number_count, is_narrower};

use config_box::{ConfigBox, Coord, Values};

/// Whether the part has fewer numbers at some coordinate.
#[tactic(auto, unfolding(crate::specs::Unfolded::all_coords))]
pub fn is_narrower_at_one(whole: &ConfigBox, part: &ConfigBox) -> bool
    ensures { result ≡ list_any (is_narrower whole.now part.now) all_coords }
{
    Coord::ALL
        .iter()
        .any(|coord| is_narrower(whole, part, *coord))
}

/// Whether the part has fewer numbers at a coordinate.
#[tactic(auto, unfolding(crate::specs::Narrower::is_narrower))]
pub fn is_narrower(whole: &ConfigBox, part: &ConfigBox, coord: Coord) -> bool
    ensures { result ≡ is_narrower whole.now part.now coord }
{
    number_count(part.values(coord)) < number_count(whole.values(coord))
}

fn number_count(values: Values<'_>) -> u64
    ensures { result ≡ number_count (values_seen values.entry) }
{
    match values {
        Values::Range(low, high) => u64::from(high.saturating_sub(low)) + 1,
        Values::Numbers(numbers) => numbers.len() as u64,
        Values::Locales(locales) => locales.len() as u64,
    }
}
