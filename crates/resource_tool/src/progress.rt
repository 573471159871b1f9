//! How far the making of a certificate has come.

use resource_text::Progress;
use std::cell::Cell;
use std::io::Write;
use std::time::{Clock, Duration, Instant};

/// Puts the cursor of a terminal at the start of its line, and erases the line.
const ERASE_LINE: &[u8] = b"\r\x1b[K";

/// Work that ends within so many milliseconds shows nothing.
const BEFORE_THE_FIRST: u64 = 1_000;

/// A line stands for at least so many milliseconds before it is rewritten.
const BETWEEN_TWO: u64 = 250;

/// Whether long work says on the errors how far it is, and by which clock.
#[derive(Clone, Copy)]
pub struct Watch<'a, C> {
    pub clock: &'a C,
    /// They go to a terminal. Nowhere else is anything shown.
    pub is_terminal: bool,
    /// How far the work came last, where it was watched.
    pub reached: &'a Cell<Reached>,
}

/// How far work came over goals, or over names.
#[derive(Clone, Copy)]
pub struct Reached {
    pub done: usize,
    pub all: usize,
}

impl<C> Progress for Watch<'_, C> {
    fn goals_done(&mut self, done: usize, all: usize) {
        self.reached.set(Reached { done, all });
    }
}

/// A line on a terminal that says how many goals are done, and is rewritten in place. A failure of the
/// stream or the clock is passed over.
#[derive(Drop)]
pub struct ProgressLine<'a, E, C> {
    errors: &'a mut E,
    watch: Watch<'a, C>,
    /// When the line is next due; None where it never is.
    due: Option<Instant>,
    /// The line stands on the terminal.
    is_shown: bool,
}

impl<'a, E: Write, C: Clock> ProgressLine<'a, E, C> {
    /// Begins to count the time; writes nothing yet.
    pub fn new(errors: &'a mut E, watch: Watch<'a, C>) -> Self {
        let due = after(BEFORE_THE_FIRST, watch.clock);
        ProgressLine {
            errors,
            watch,
            due,
            is_shown: false,
        }
    }

    /// Takes the line away.
    pub fn clear(&mut self) {
        if self.is_shown {
            let _ = self.errors.write_all(ERASE_LINE);
            self.is_shown = false;
        }
    }

    fn is_due(&self) -> bool {
        match (self.due, Instant::now(self.watch.clock)) {
            (Some(due), Ok(now)) => now >= due,
            _ => false,
        }
    }
}

impl<E: Write, C: Clock> Progress for ProgressLine<'_, E, C> {
    fn goals_done(&mut self, done: usize, all: usize) {
        self.watch.goals_done(done, all);
        if done == all {
            self.clear();
        } else if self.is_due() {
            let _ = write!(self.errors, "\r{done} of {all} goals done");
            self.is_shown = true;
            self.due = after(BETWEEN_TWO, self.watch.clock);
        }
    }
}

// The time so many milliseconds from now; None where the clock fails.
fn after<C: Clock>(milliseconds: u64, clock: &C) -> Option<Instant> {
    Instant::now(clock)
        .ok()?
        .checked_add(Duration::from_millis(milliseconds))
}
