//! The kinds of values that are printed by a name or a sign (AOSP: `Res_value::TYPE_NULL` and on; 0x08, a dynamic
//! attribute, is printed by its number), and what their words mean.

/// Nothing: undefined or empty, as its word says.
pub const NULL: u8 = 0x00;
/// The id of another resource.
pub const REFERENCE: u8 = 0x01;
/// The id of an attribute, whose value a theme gives.
pub const ATTRIBUTE: u8 = 0x02;
/// The index of a string in the table's pool.
pub const STRING: u8 = 0x03;
/// The bits of a float of 32 bits.
pub const FLOAT: u8 = 0x04;
/// A number with a point, and a unit such as dp.
pub const DIMENSION: u8 = 0x05;
/// A number with a point, of a whole or of a parent.
pub const FRACTION: u8 = 0x06;
/// The id of a resource in a shared library.
pub const DYNAMIC_REFERENCE: u8 = 0x07;
/// A number that was written in decimal.
pub const INT_DEC: u8 = 0x10;
/// A number that was written in hexadecimal.
pub const INT_HEX: u8 = 0x11;
/// False is 0, and every other word is true.
pub const INT_BOOLEAN: u8 = 0x12;
/// A colour that was written as `#aarrggbb`.
pub const INT_COLOR_ARGB8: u8 = 0x1c;
/// A colour that was written as `#rrggbb`.
pub const INT_COLOR_RGB8: u8 = 0x1d;
/// A colour that was written as `#argb`.
pub const INT_COLOR_ARGB4: u8 = 0x1e;
/// A colour that was written as `#rgb`.
pub const INT_COLOR_RGB4: u8 = 0x1f;

/// The word of `NULL` for undefined (AOSP: `Res_value::DATA_NULL_UNDEFINED`).
pub const NULL_UNDEFINED: u32 = 0;
/// The word of `NULL` for empty (AOSP: `Res_value::DATA_NULL_EMPTY`).
pub const NULL_EMPTY: u32 = 1;
