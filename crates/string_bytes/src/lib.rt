//! Reads the bytes of one string of a pool: its length stands before them, and a zero closes them. Nothing is copied.
//!
//! For the crate above: `utf8_bytes` and `utf16_bytes` give the bytes of the string at the front of what is left, lent from
//! it, as `specs/Bytes.antt` says, or the first fault on the way.
//!
//! ```text
//! let bytes = utf8_bytes(b"\x02\x02Hi\0")?; // Hi
//! ```
#![tactic(auto)]

mod fault;
mod reading;

pub use fault::StringFault;
pub use reading::{UNIT_SIZE, utf8_bytes, utf16_bytes};
