//! The bytes that a call is given.

use std::alloc::Global;
use std::test::Fail;

/// Begins bytes that are given as hexadecimal digits.
const DIGITS: char = '#';

/// The bytes of a word: what the digits behind `#` say, or its own.
pub(crate) fn bytes_of(alloc: Global, word: &str) -> Result<Vec<u8>, Fail> {
    match word.strip_prefix(DIGITS) {
        Some(digits) => Ok(hex::decode(alloc, digits.as_bytes())?),
        None => Ok(Vec::from_slice(alloc, word.as_bytes())?),
    }
}
