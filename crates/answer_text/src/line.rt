//! A line in memory.

ghost use Rattle.std.specs.Prelude.{◌≡◌, ◌≤◌, ◌++◌, [], Some, OnOk, OnErr, length};

use std::io::{self, ErrorKind, Write};

/// How many bytes a line has room for.
const ROOM: usize = 1024;

/// What is put together of a line before it is written. An `ArrayVec` would write zeros over its bytes to be
/// empty again, and copy pieces of a known length by a call.
#[derive(Drop)]
pub(crate) struct Line {
    bytes: [u8; ROOM],
    size: usize,
    ghost fits: { size ≤ length bytes },
}

impl Line {
    ghost use Rattle.answer_text.specs.Line.{line_text};

    pub fn new() -> Line
        ensures { line_text result ≡ [] }
    {
        Line {
            bytes: [0; ROOM],
            size: 0,
        }
    }

    pub fn clear(&mut self)
        ensures { line_text self.new ≡ [] }
    {
        self.size = 0;
    }

    pub fn text(&self) -> &[u8]
        ensures { result.now ≡ line_text self.now }
    {
        &self.bytes[..self.size]
    }

    // Puts bytes behind what is there, if there is room for all of them.
    #[inline(always)]
    fn push(&mut self, bytes: &[u8]) -> io::Result<()>
        ensures ok { OnOk result (line_text self.new ≡ line_text self.old ++ bytes.now) }
        ensures err { OnErr result (line_text self.new ≡ line_text self.old) }
    {
        if bytes.len() > ROOM - self.size {
            return Err(io::Error::from(ErrorKind::WriteZero));
        }
        let end = self.size + bytes.len();
        self.bytes[self.size..end].copy_from_slice(bytes);
        self.size = end;
        Ok(())
    }
}

impl Write for Line {
    ghost use Rattle.answer_text.specs.Line.{line_text};

    ghost contents = { λ line. Some (line_text line) };

    fn write(&mut self, bytes: &[u8]) -> io::Result<usize> {
        self.push(bytes)?;
        Ok(bytes.len())
    }

    fn flush(&mut self) -> io::Result<()> {
        Ok(())
    }

    #[inline(always)]
    fn write_all(&mut self, bytes: &[u8]) -> io::Result<()> {
        self.push(bytes)
    }
}
