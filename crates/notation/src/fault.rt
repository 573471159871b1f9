//! Why a line is no device.

use config_record::DeviceFault;
use std::fmt::{self, Debug, Display, Formatter};
use thiserror::Error;

/// What is wrong with a line, which lends its part. Parts are looked at from the left; what they say is checked when
/// all are read.
#[derive(Clone, Copy, Error)]
pub enum ConfigWordFault<'a> {
    /// A part is no qualifier, or of a kind that an earlier one is of.
    #[error("Qualifier")]
    Qualifier(&'a [u8]),
    /// No device has what the parts say.
    #[error("{0}")]
    Device(DeviceFault),
}

/// By its text.
impl Debug for ConfigWordFault<'_> {
    fn fmt<W: fmt::Write>(&self, f: &mut Formatter<W>) -> fmt::Result {
        Display::fmt(self, f)
    }
}
