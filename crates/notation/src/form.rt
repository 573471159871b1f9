//! The two forms of an answer.

/// How an answer is written.
#[derive(Clone, Copy)]
pub enum Form {
    /// In Android's notation, as people read it.
    Android,
    /// With each number as a table has it, for other programs.
    Raw,
}
