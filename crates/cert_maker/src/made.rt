//! What the maker answers.

use cert_checker::{Cert, Device, End};

/// What the maker answers.
#[derive(Drop)]
pub enum Made {
    /// A certificate that is accepted, within the limit. Its tests are all needed.
    Cert(Cert),
    /// A device of the box for which a goal, counted from 0, ends at no value and no bag, and where it ends.
    Counter {
        goal: usize,
        device: Device,
        ending: End,
    },
    /// There are trees of needed tests that have more nodes, all goals together, than the limit. Where several
    /// coordinates of the box have several values, a certificate within the limit may be accepted all the same.
    NodeLimit,
}
