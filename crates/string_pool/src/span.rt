//! What a span is.

/// A run of characters of a string that is marked, as by a tag of HTML (AOSP:
/// `ResStringPool_span`).
#[derive(Clone, Copy, Debug)]
pub struct Span {
    /// The index of the mark's name among the strings of the pool.
    pub name: u32,
    /// The first character that is marked, counted from 0.
    pub first: u32,
    /// The last character that is marked.
    pub last: u32,
}
