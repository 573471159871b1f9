//! A value as it stands in a table.

ghost use Rattle.std.specs.Prelude.{◌≡◌, ◌≤◌, length};
ghost use Rattle.res_value.specs.Layout.{value_size};
ghost use Rattle.res_value.specs.Value.{value_in, value_at};

use chunk_walk::{u16_within, u32_within};

// Where the parts of a value stand.
const SIZE_FIELD: usize = 0;

const KIND: usize = 3;

const WORD: usize = 4;

/// A value (AOSP: `Res_value`): a kind, mostly one of those in `kind`, and a word to which the kind
/// gives its meaning.
#[derive(Clone, Copy, Debug, PartialEq, Eq)]
pub struct Value {
    pub kind: u8,
    pub word: u32,
}

impl Value {
    /// How many bytes a value has, as its size field has to say.
    pub const SIZE: usize = 8;

    /// The value that the bytes begin with. None where fewer than eight bytes are there, or where the
    /// size field says another number.
    pub fn read(bytes: &[u8]) -> Option<Value>
        ensures { result ≡ value_in bytes.now }
    {
        if bytes.len() < Value::SIZE || u16_within(bytes, SIZE_FIELD) as usize != Value::SIZE {
            return None;
        }
        Some(Value::within(bytes))
    }

    /// The value that the bytes begin with, where its size is known.
    pub(crate) fn within(bytes: &[u8]) -> Value
        requires { value_size ≤ length bytes.now }
        ensures { result ≡ value_at bytes.now }
    {
        Value {
            kind: bytes[KIND],
            word: u32_within(bytes, WORD),
        }
    }
}
