//! How far long work over goals is.

/// Where the caller wants to know how far the work is.
pub trait Progress {
    /// `done` of `all` goals are done.
    fn goals_done(&mut self, done: usize, all: usize);
}

/// Nobody asks how far the work is.
#[derive(Drop)]
pub struct Unwatched;

impl Progress for Unwatched {
    fn goals_done(&mut self, _done: usize, _all: usize) {}
}
