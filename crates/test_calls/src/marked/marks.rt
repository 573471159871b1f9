//! Where a call begins and ends.

use std::io::Write;

/// Says that a call begins. Where it cannot be said, no memory is refused to the call.
pub(crate) fn begin(rt: &HostRuntime) {
    let _ = rt.stderr().write_all(b"call\n");
}

/// Says that it has ended.
pub(crate) fn end(rt: &HostRuntime) {
    let _ = rt.stderr().write_all(b"end\n");
}
