//! How `make` is answered.

use command_base::Status;

/// How a command was answered, and which of its goals the answer is about.
#[derive(Clone, Copy)]
pub(crate) struct Answered {
    pub status: Status,
    /// The place of the goal from 0: the one that has no value on a device.
    pub about: Option<usize>,
}
