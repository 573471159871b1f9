//! Reads the string pools of resource files: strings in UTF-8 or UTF-16, and styles, which are spans
//! of strings. Nothing is copied: a string is lent from the bytes of its file.
//!
//! For the crates above: `Pool::get` gives the string that the bytes spell, a range of the input, or
//! the first fault in it; `Pool::spans` likewise the spans of a style; and what `Text::write_shown`
//! writes is the one text of each string, as `specs/` define them.
//!
//! ```text
//! let pool = Pool::open(&chunk)?;
//! for index in 0..pool.len() {
//!     let string = pool.get(index)?;
//!     string.write_shown(&mut out)?; // "Hi"
//! }
//! ```
#![tactic(auto)]

mod fault;
mod layout;
mod part;
mod plain;
mod pool;
mod pool_flags;
mod shown;
mod span;
mod spans;
mod text;
mod units;

pub use chunk_walk::{ALIGNMENT, Chunk, ChunkFault, chunk_at, u16_within, u32_within};
pub use fault::PoolFault;
pub use pool::Pool;
pub use shown::write_string;
pub use span::Span;
pub use spans::Spans;
pub use string_bytes::StringFault;
pub use text::Text;
