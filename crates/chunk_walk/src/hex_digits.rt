//! Bytes as hexadecimal digits, two small ones for each byte.

ghost use Rattle.std.specs.Prelude.{◌≡◌, ◌≤◌, length, OnOk};
ghost use Rattle.std.specs.Int.{w32, to_be_bytes};
ghost use Rattle.contract_words.specs.Writes.{Writes};
ghost use Rattle.hex.specs.Hex.{encode_lower};

use std::io::{self, Write};

/// Writes the digits of at most eight bytes.
pub fn write_hex<W: Write + Drop>(bytes: &[u8], out: &mut W) -> io::Result<()>
    requires { length bytes.now ≤ 8 }
    ensures { Writes W.contents out.old out.new result (encode_lower bytes.now) }
{
    let mut buffer = [0; 16];
    let digits = &mut buffer[..2 * bytes.len()];
    let _ = hex::encode_to_slice(bytes, digits);
    out.write_all(digits)
}

/// The eight digits of a word of 32 bits, the most significant first.
pub fn word_digits(word: u32) -> [u8; 8]
    ensures { result ≡ encode_lower (to_be_bytes w32 word) }
{
    let bytes = word.to_be_bytes();
    let mut digits = [0; 8];
    let _ = hex::encode_to_slice(&bytes, &mut digits);
    digits
}
