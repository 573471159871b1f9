//! What the maker answers where it leaves goals out.

use cert_checker::{Cert, Device, End};

/// A goal that is left out, since it has no value at some device.
#[derive(Drop)]
pub struct Omitted {
    /// Its place among the goals that are asked, from 0.
    pub goal: usize,
    /// A device of the box for which it ends at no value and no bag.
    pub device: Device,
    /// Where it ends there.
    pub ending: End,
}

/// What the maker answers where it leaves goals out.
#[derive(Drop)]
pub enum Omitting {
    /// A certificate of the goals that are kept, as of `Made`, and those that are left out, in rising places.
    Cert {
        certificate: Cert,
        omitted: Vec<Omitted>,
    },
    /// The limit is passed at a goal: there are trees of needed tests for it and for those before it that have a value at
    /// all devices, with more nodes all together. It may itself have no value at some device.
    NodeLimit,
}
