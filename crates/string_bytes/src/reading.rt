//! Reads the bytes of a string: their length, the bytes, and the zero that closes them.

ghost use Rattle.std.specs.Prelude.{◌≡◌};
ghost use Rattle.string_bytes.specs.Bytes.{length_in, closed_in, utf8_bytes_in, utf16_bytes_in};
ghost use Rattle.string_bytes.specs.Front.{front_of, seen_front};
ghost use Rattle.string_bytes.specs.Part.{seen_part};

use crate::fault::StringFault;
use chunk_walk::u16_at;

/// How many bytes a unit of UTF-16 has.
pub const UNIT_SIZE: usize = 2;

// The highest bit of a length's first unit says that a second unit follows.
const LONG_BYTE: u8 = 0x80;

const LONG_UNIT: u16 = 0x8000;

/// A number at the front of bytes, and the bytes behind it.
#[derive(Clone, Copy)]
pub(crate) struct Front<'a> {
    pub number: u32,
    pub behind: &'a [u8],
}

/// The bytes of the string of UTF-8 at the front of what is left.
///
/// ```text
/// let bytes = utf8_bytes(b"\x02\x02Hi\0")?; // Hi
/// ```
#[tactic(auto, unfolding(crate::specs::Bytes::utf8_bytes_in))]
pub fn utf8_bytes(left: &[u8]) -> Result<&[u8], StringFault>
    ensures { seen_part result ≡ utf8_bytes_in left.now }
{
    let units = byte_length(left)?;
    let count = byte_length(units.behind)?;
    closed_bytes(count)
}

/// The bytes of the string of UTF-16 at the front of what is left.
#[tactic(auto, unfolding(crate::specs::Bytes::utf16_bytes_in))]
pub fn utf16_bytes(left: &[u8]) -> Result<&[u8], StringFault>
    ensures { seen_part result ≡ utf16_bytes_in left.now }
{
    let count = unit_length(left)?;
    closed_units(count)
}

// The length of one byte or two at the front of what is left.
#[tactic(auto, unfolding(crate::specs::Bytes::length_in, crate::specs::Bytes::front_in, chunk_walk::specs::Number::number))]
fn byte_length(left: &[u8]) -> Result<Front<'_>, StringFault>
    ensures { seen_front result ≡ length_in 1 left.now }
{
    let Some((first, behind)) = left.split_first() else {
        return Err(StringFault::Cut);
    };
    if *first < LONG_BYTE {
        return Ok(Front {
            number: u32::from(*first),
            behind,
        });
    }
    let Some((second, behind)) = behind.split_first() else {
        return Err(StringFault::Cut);
    };
    Ok(Front {
        number: u32::from(*first & !LONG_BYTE) << 8 | u32::from(*second),
        behind,
    })
}

// The length of one unit or two at the front of what is left.
#[tactic(auto, unfolding(crate::specs::Bytes::length_in, crate::specs::Bytes::front_in))]
fn unit_length(left: &[u8]) -> Result<Front<'_>, StringFault>
    ensures { seen_front result ≡ length_in 2 left.now }
{
    let Some(first) = u16_at(left, 0) else {
        return Err(StringFault::Cut);
    };
    let behind = &left[UNIT_SIZE..];
    if first < LONG_UNIT {
        return Ok(Front {
            number: u32::from(first),
            behind,
        });
    }
    let Some(second) = u16_at(behind, 0) else {
        return Err(StringFault::Cut);
    };
    Ok(Front {
        number: u32::from(first & !LONG_UNIT) << 16 | u32::from(second),
        behind: &behind[UNIT_SIZE..],
    })
}

// So many bytes, which a zero byte closes.
#[tactic(auto, unfolding(crate::specs::Bytes::closed_in, crate::specs::Bytes::front_in, chunk_walk::specs::Number::number))]
fn closed_bytes(count: Front<'_>) -> Result<&[u8], StringFault>
    ensures { seen_part result ≡ closed_in 1 (front_of count.entry) }
{
    let size = count.number as usize;
    if count.behind.len() < size {
        return Err(StringFault::Cut);
    }
    let (bytes, behind) = count.behind.split_at(size);
    match behind.first() {
        None => Err(StringFault::Cut),
        Some(0) => Ok(bytes),
        Some(_) => Err(StringFault::NotEnded),
    }
}

// The bytes of so many units, which a unit of zero closes.
#[tactic(auto, unfolding(crate::specs::Bytes::closed_in, crate::specs::Bytes::front_in))]
fn closed_units(count: Front<'_>) -> Result<&[u8], StringFault>
    ensures { seen_part result ≡ closed_in 2 (front_of count.entry) }
{
    let size = UNIT_SIZE * count.number as usize;
    if count.behind.len() < size {
        return Err(StringFault::Cut);
    }
    let (units, behind) = count.behind.split_at(size);
    match u16_at(behind, 0) {
        None => Err(StringFault::Cut),
        Some(0) => Ok(units),
        Some(_) => Err(StringFault::NotEnded),
    }
}
