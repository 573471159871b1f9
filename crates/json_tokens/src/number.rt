//! Numbers.

ghost use Rattle.std.specs.Prelude.{◌≡◌, ◌<◌, ◌==◌, length, slice_index, IsTrue, true, false, Some, None, MatchResult};
ghost use Rattle.std.specs.Option.{option_map};
ghost use Rattle.serde_json.specs.Find.{as_u64};
ghost use Rattle.serde_json.specs.Read.{number_of, number_from, float_of};

use crate::malformed::Malformed;
use fast_float::Numeral;

/// The number that a text spells, where it has 64 bits, no sign, no fraction and no exponent. Others have to be small
/// enough for a float.
pub(crate) fn whole_number(text: &str) -> Result<Option<u64>, Malformed>
    ensures { MatchResult result (λ n. option_map as_u64 (number_of text.now) ≡ Some n)
        (λ _. number_of text.now ≡ None) }
{
    let bytes = text.as_bytes();
    if has_minus(bytes) {
        negative(&Numeral::scan(&bytes[1..]))
    } else {
        unsigned(&Numeral::scan(bytes))
    }
}

fn has_minus(bytes: &[u8]) -> bool
    ensures value { result ≡ (slice_index bytes.now 0 == 45) }
    ensures some { IsTrue result → 0 < length bytes.now }
{
    !bytes.is_empty() && bytes[0] == b'-'
}

fn unsigned(numeral: &Numeral<'_>) -> Result<Option<u64>, Malformed>
    ensures { MatchResult result (λ n. option_map as_u64 (number_from false numeral.now) ≡ Some n)
        (λ _. number_from false numeral.now ≡ None) }
{
    match numeral.to_u64() {
        Some(n) => Ok(Some(n)),
        None => float(false, numeral),
    }
}

fn negative(numeral: &Numeral<'_>) -> Result<Option<u64>, Malformed>
    ensures { MatchResult result (λ n. option_map as_u64 (number_from true numeral.now) ≡ Some n)
        (λ _. number_from true numeral.now ≡ None) }
{
    if let Some(n) = numeral.to_i64(true) {
        if n < 0 {
            return Ok(None);
        }
    }
    float(true, numeral)
}

fn float(negative: bool, numeral: &Numeral<'_>) -> Result<Option<u64>, Malformed>
    ensures { MatchResult result (λ n. option_map as_u64 (float_of negative numeral.now) ≡ Some n)
        (λ _. float_of negative numeral.now ≡ None) }
{
    if numeral.to_float::<f64>(negative).is_finite() {
        Ok(None)
    } else {
        Err(Malformed)
    }
}
