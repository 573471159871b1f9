//! What a check says.

use crate::rule::Rule;
use box_trace::{Device, End};

/// What a check says of a certificate.
#[derive(Clone, Copy)]
pub enum Verdict {
    /// No rule fails.
    Accepted,
    /// The first node of the first goal at which a rule fails, both counted from 0, and of the rules that fail
    /// there the one of the lowest number. Where the goals are not those that are asked, the goal is the first
    /// place at which they differ, and the node is 0.
    Rejected {
        goal: usize,
        node: usize,
        rule: Rule,
        shown: Shown,
    },
}

/// The devices that show why a rule fails.
#[derive(Clone, Copy)]
pub enum Shown {
    /// Where the certificate itself shows it.
    Nothing,
    /// Two devices at the leaf that differ in one coordinate alone, and by one where the box has a range. At the
    /// first question that devices at the leaf answer differently (does a candidate match; where it matches all
    /// of them, does it take over) the first answers yes, the second no.
    Two(Device, Device),
    /// The device that has at each coordinate the least value of all devices at the leaf, and where the goal ends
    /// for it.
    One(Device, End),
}
