//! UTF-16 in bytes.

ghost use Rattle.std.specs.Prelude.{◌≡◌, ◌<◌, [], ◌∷◌, ◌++◌, length, MatchOption, IfSome};
ghost use Rattle.std.specs.Str.{bytes_eq};
ghost use Rattle.string_pool.specs.Escapes.{piece_text, pair_of};
ghost use Rattle.string_pool.specs.Shown.{unit_text, units_text};
ghost use Rattle.string_pool.specs.Units.{units_in, units_of};

use chunk_walk::u16_within;
use string_bytes::UNIT_SIZE;

// A character past 16 bits is a pair of units: a high surrogate, and a low one.
const HIGH_START: u16 = 0xd800;

const LOW_START: u16 = 0xdc00;

const LOW_END: u16 = 0xe000;

const PAIRS_START: u32 = 0x1_0000;

// The first unit, and the bytes behind it.
#[tactic(auto, using(crate::proofs::UnitSteps::unit_steps))]
fn first_unit(left: &[u8]) -> Option<(u16, &[u8])>
    ensures first { MatchOption result (units_in left.now ≡ []) (λ found. units_in left.now ≡ found.0 ∷ units_in found.1.now) }
    ensures shorter { IfSome result (λ found. length found.1.now < length left.now) }
{
    if left.len() < UNIT_SIZE {
        return None;
    }
    let (_, behind) = left.split_at(UNIT_SIZE);
    Some((u16_within(left, 0), behind))
}

/// The first character, or the first unit where that is a lone surrogate, and the bytes behind it.
#[tactic(auto, using(crate::proofs::UnitTexts::character_steps))]
pub(crate) fn first_character(left: &[u8]) -> Option<(Result<char, u16>, &[u8])>
    ensures text { MatchOption result (units_text (units_in left.now) ≡ [])
        (λ found. units_text (units_in left.now) ≡ piece_text found.0 ++ units_text (units_in found.1.now)) }
    ensures shorter { IfSome result (λ found. length found.1.now < length left.now) }
{
    let (unit, behind) = first_unit(left)?;
    let Some((low, others)) = first_unit(behind) else {
        return Some((single_unit(unit), behind));
    };
    match surrogate_pair(unit, low) {
        Some(character) => Some((Ok(character), others)),
        None => Some((single_unit(unit), behind)),
    }
}

// The character of a unit that is in no pair, or the unit where it is a surrogate.
fn single_unit(unit: u16) -> Result<char, u16>
    ensures { piece_text result ≡ unit_text unit }
{
    char::from_u32(u32::from(unit)).ok_or(unit)
}

// The character of two units, if they are a pair of surrogates.
#[tactic(auto, unfolding(crate::specs::Escapes::pair_of))]
fn surrogate_pair(high: u16, low: u16) -> Option<char>
    ensures { result ≡ pair_of high low }
{
    if !(HIGH_START..LOW_START).contains(&high) || !(LOW_START..LOW_END).contains(&low) {
        return None;
    }
    let in_pairs = u32::from(high - HIGH_START) << 10 | u32::from(low - LOW_START);
    char::from_u32(PAIRS_START + in_pairs)
}

/// Whether bytes are the units of a text.
#[tactic(auto, using(crate::proofs::UnitSteps::compares))]
pub(crate) fn are_units_of(bytes: &[u8], text: &str) -> bool
    ensures { result ≡ bytes_eq (units_in bytes.now) (units_of text.now) }
{
    let mut left = bytes;
    for unit in text.encode_utf16() {
        let Some((first, behind)) = first_unit(left) else {
            return false;
        };
        if first != unit {
            return false;
        }
        left = behind;
    }
    left.len() < UNIT_SIZE
}
