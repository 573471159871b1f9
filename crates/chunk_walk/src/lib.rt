//! Walks the chunks of a resource file, and reads the numbers in them. Nothing is copied: a chunk
//! lends its parts from the bytes that it was found in. And writes bytes as hexadecimal digits.
//!
//! For the crates above: `chunk_at` gives the chunk at a place or its first fault, and `Chunks` the
//! chunks that stand one behind the other, up to the first that has a fault. What `write_hex` appends is the
//! digits of the bytes, two small ones for each, and nothing else; `word_digits` gives those of a word.
//!
//! ```text
//! let table = chunk_at(file, 0, 12)?;
//! for child in table.children() {
//!     let child = child?;
//!     println!(rt; "{:#06x} at {}", child.kind, child.place)?;
//! }
//! ```
#![tactic(auto)]

mod chunk;
mod chunk_header;
mod chunks;
mod hex_digits;
mod number;

pub use chunk::{ALIGNMENT, Chunk, ChunkFault};
pub use chunk_header::chunk_at;
pub use chunks::Chunks;
pub use hex_digits::{word_digits, write_hex};
pub use number::{u16_at, u16_within, u32_at, u32_within};
