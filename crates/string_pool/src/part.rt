//! Parts of bytes.

ghost use Rattle.std.specs.Prelude.{◌≡◌, take, drop};
ghost use Rattle.string_pool.specs.Pool.{part_in, before_styles};
ghost use Rattle.string_bytes.specs.Part.{seen_part};

use crate::fault::PoolFault;

/// The bytes from a place on, none where that is behind their end.
pub(crate) fn bytes_from(bytes: &[u8], place: usize) -> &[u8]
    ensures { result.now ≡ drop place bytes.now }
{
    match bytes.get(place..) {
        Some(left) => left,
        None => &[],
    }
}

/// The bytes from where so many strings or styles start.
pub(crate) fn part_from(bytes: &[u8], count: u32, start: u32) -> Result<&[u8], PoolFault>
    ensures { seen_part result ≡ part_in bytes.now count start }
{
    let start = start as usize;
    if count != 0 && bytes.len() < start {
        return Err(PoolFault::Start);
    }
    Ok(bytes_from(bytes, start))
}

/// The bytes before so many styles, which start at a place.
pub(crate) fn before_styles(bytes: &[u8], count: u32, start: u32) -> &[u8]
    ensures { result.now ≡ before_styles bytes.now count start }
{
    if count == 0 {
        return bytes;
    }
    match bytes.get(..start as usize) {
        Some(front) => front,
        None => bytes,
    }
}
