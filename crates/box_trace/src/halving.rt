//! What a test does to a box.

/// What becomes of a box by a test.
#[derive(Clone, Copy)]
pub enum Halving {
    /// Its halves are opened.
    Opened,
    /// The test is of the wrong kind for it.
    WrongKind,
    /// All members answer alike, so one half would have none.
    EmptyHalf,
}
