//! What the calls share: stacks of tables that lie in memory, and devices of written qualifiers.

mod device;
mod stacks;

pub(crate) use device::device_of;
pub(crate) use stacks::{SAME, push_base, push_overlay, stack_of_base};

/// What a call is given does not make a stack or a device.
#[derive(Clone, Copy, Debug)]
pub(crate) struct Malformed;
