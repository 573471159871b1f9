//! What is told of a call. What cannot be written is missing in what `tests/stops/calls.py` reads.

use bags_themes::End;
use resource_text::end_text;
use std::fmt::Debug;

/// Prints an answer.
pub(crate) fn tell<D: Debug + Drop>(rt: &HostRuntime, answer: D) {
    let _ = println!(rt; "{answer:?}");
}

/// Prints where an id ends.
pub(crate) fn tell_end(rt: &HostRuntime, end: End) {
    let _ = end_text(end, &mut rt.stdout());
    let _ = println!(rt);
}
