//! Numbers as digits.

ghost use Rattle.std.specs.Prelude.{◌≡◌, ◌^◌, ◌&&◌, nat_lt, Some, None, if◌then◌else◌};
ghost use Rattle.config_record.specs.locales.Locale.{is_digit};
ghost use Rattle.notation.specs.Numeral.{with_digit, number_of};

/// The number that digits spell, at least one of them, where it fits in 64 bits.
#[tactic(auto, unfolding(crate::specs::Numeral::number_of, crate::specs::Numeral::with_digits))]
pub(crate) fn number_of(digits: &[u8]) -> Option<u64>
    ensures { result ≡ number_of digits.now }
{
    if digits.is_empty() {
        return None;
    }
    let mut number = 0;
    'digits: for digit in digits {
        number = with_digit(number, *digit)?;
    }
    Some(number)
}

// The number with one more digit.
fn with_digit(number: u64, byte: u8) -> Option<u64>
    ensures { result ≡ (if is_digit byte && nat_lt (with_digit number byte) (2 ^ 64) then Some (with_digit number byte) else None) }
{
    if !is_digit(byte) {
        return None;
    }
    number.checked_mul(10)?.checked_add(u64::from(byte - b'0'))
}

pub(crate) fn is_digit(byte: u8) -> bool
    ensures { result ≡ is_digit byte }
{
    byte >= b'0' && byte <= b'9'
}
