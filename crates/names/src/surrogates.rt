//! Characters that stand in UTF-8 as two surrogates.

ghost use Rattle.std.specs.Prelude.{◌≡◌, ◌≤◌, Some, IfOk, IfSome, length};
ghost use Rattle.bstr.specs.Utf8.{continues};
ghost use Rattle.names.specs.Surrogates.{surrogate_at, pair_at, pair_of, with_pairs};

use std::alloc::{AllocError, Global};

/// How many bytes a surrogate has.
const SURROGATE_SIZE: usize = 3;

/// How many bytes a pair has.
const PAIR_SIZE: usize = 2 * SURROGATE_SIZE;

/// The bytes, in which two surrogates of three bytes each that make a pair are their character in UTF-8. Some tools
/// write characters past U+FFFF so.
///
/// ```text
/// let name = with_pairs(alloc, b"\xed\xa0\xbd\xed\xb8\x80")?; // the four bytes of U+1F600
/// ```
pub fn with_pairs(alloc: Global, bytes: &[u8]) -> Result<Vec<u8>, AllocError>
    ensures { IfOk result (λ paired. paired.items ≡ with_pairs bytes.now) }
{
    let mut paired = Vec::new(alloc);
    let mut left = bytes;
    while let Some((byte, others)) = left.split_first() {
        if let Some(character) = pair_at(left) {
            paired.extend_from_slice(character.encode_utf8(&mut [0; 4]).as_bytes())?;
            let (_, behind) = left.split_at(PAIR_SIZE);
            left = behind;
        } else {
            paired.push(*byte)?;
            left = others;
        }
    }
    Ok(paired)
}

// The character of a pair that stands at the front.
#[tactic(auto, unfolding(crate::specs::Surrogates::pair_at, crate::specs::Surrogates::pair_of))]
fn pair_at(bytes: &[u8]) -> Option<char>
    ensures { (result ≡ pair_at bytes.now) × IfSome result (λ character. 6 ≤ length bytes.now) }
{
    let high = surrogate_at(bytes)?;
    let low = surrogate_at(&bytes[SURROGATE_SIZE..])?;
    pair_of(high, low)
}

// The character of two surrogates, if they make a pair.
#[tactic(auto, unfolding(crate::specs::Surrogates::pair_of))]
fn pair_of(high: u32, low: u32) -> Option<char>
    ensures { result ≡ pair_of (Some high) (Some low) }
{
    if !(0xd800..0xdc00).contains(&high) || !(0xdc00..0xe000).contains(&low) {
        return None;
    }
    char::from_u32(0x1_0000 + (high - 0xd800) * 0x400 + (low - 0xdc00))
}

// The number of three bytes that stand at the front, where they are spelled as a surrogate is.
#[tactic(auto, unfolding(crate::specs::Surrogates::surrogate_at))]
fn surrogate_at(bytes: &[u8]) -> Option<u32>
    ensures { (result ≡ surrogate_at bytes.now) × IfSome result (λ number. 3 ≤ length bytes.now) }
{
    let [0xed, second, third, ..] = bytes else {
        return None;
    };
    if !continues(*second) || !continues(*third) {
        return None;
    }
    Some(0xd000 + u32::from(*second - 0x80) * 0x40 + u32::from(*third - 0x80))
}

// Whether a byte may continue a character.
fn continues(byte: u8) -> bool
    ensures { result ≡ continues byte }
{
    (0x80..0xc0).contains(&byte)
}
