//! What the calls share: each needs its words, and is told apart from what is made before and printed behind it.
//!
//! On the standard error the line `call` says that the call begins, and `end` that it has ended. What it needs is made
//! before, and what came out is told behind, so that memory can be refused to the call alone.

mod arguments;
mod given_bytes;
mod marks;
mod told;
mod writer;

pub(crate) use arguments::{word, words};
pub(crate) use given_bytes::bytes_of;
pub(crate) use marks::{begin, end};
pub(crate) use told::{tell, tell_end};
pub(crate) use writer::Writer;
