//! Numbers at a place, the least significant byte first.

ghost use Rattle.std.specs.Prelude.{◌≡◌, ◌+◌, ◌≤◌, length};
ghost use Rattle.chunk_walk.specs.Number.{number, number_at};

use byteorder::{ByteOrder, LittleEndian};

/// The number of two bytes at a place, where they fit: for bytes whose length was not compared yet. Where
/// it was, `u16_within` gives the number itself.
///
/// ```text
/// let Some(kind) = u16_at(bytes, 0) else {
///     return Err(Fault::Short); // fewer than two bytes are left
/// };
/// ```
#[tactic(auto, unfolding(crate::specs::Number::number))]
pub fn u16_at(bytes: &[u8], at: usize) -> Option<u16>
    ensures { result ≡ number_at 2 bytes.now at }
{
    let left = bytes.get(at..)?;
    if left.len() < 2 {
        return None;
    }
    Some(LittleEndian::read_u16(left))
}

/// The number of four bytes at a place, where they fit; `u32_within` where they are known to.
#[tactic(auto, unfolding(crate::specs::Number::number))]
pub fn u32_at(bytes: &[u8], at: usize) -> Option<u32>
    ensures { result ≡ number_at 4 bytes.now at }
{
    let left = bytes.get(at..)?;
    if left.len() < 4 {
        return None;
    }
    Some(LittleEndian::read_u32(left))
}

/// The number of two bytes at a place where they are known to fit.
#[tactic(auto, unfolding(crate::specs::Number::number))]
pub fn u16_within(bytes: &[u8], at: usize) -> u16
    requires { at + 2 ≤ length bytes.now }
    ensures { result ≡ number 2 bytes.now at }
{
    LittleEndian::read_u16(&bytes[at..])
}

/// The number of four bytes at a place where they are known to fit.
#[tactic(auto, unfolding(crate::specs::Number::number))]
pub fn u32_within(bytes: &[u8], at: usize) -> u32
    requires { at + 4 ≤ length bytes.now }
    ensures { result ≡ number 4 bytes.now at }
{
    LittleEndian::read_u32(&bytes[at..])
}
