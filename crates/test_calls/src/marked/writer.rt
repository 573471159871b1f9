//! A writer over memory.

use std::alloc::{AllocError, Global};
use std::io::{self, ErrorKind, Write};

/// How many bytes it has room for from the start.
const ROOM: usize = 4096;

/// A writer that keeps what is written, and fails at one of its calls.
#[derive(Drop)]
pub(crate) struct Writer {
    fails_at: usize,
    pub calls: usize,
    pub text: Vec<u8>,
}

impl Writer {
    /// One that fails at this call, the first is 1, and not for want of memory.
    pub fn failing_at(alloc: Global, call: usize) -> Result<Writer, AllocError> {
        Ok(Writer {
            fails_at: call,
            calls: 0,
            text: Vec::with_capacity(alloc, ROOM)?,
        })
    }
}

impl Write for Writer {
    fn write(&mut self, bytes: &[u8]) -> io::Result<usize> {
        self.calls = self.calls.saturating_add(1);
        if self.calls == self.fails_at {
            return Err(ErrorKind::Other.into());
        }
        self.text.extend_from_slice(bytes)?;
        Ok(bytes.len())
    }

    fn flush(&mut self) -> io::Result<()> {
        Ok(())
    }
}
