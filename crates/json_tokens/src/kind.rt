//! Kinds of values.

/// What a value is, as far as its readers ask.
#[derive(Clone, Copy, Drop)]
pub enum Kind<'a> {
    /// A number of 64 bits, spelled without a sign, a fraction and an exponent.
    Number(u64),
    Text(&'a str),
    List,
    Object,
    Other,
}
