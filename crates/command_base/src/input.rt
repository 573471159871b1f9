//! Inputs of bounded length.

ghost use Rattle.std.specs.Prelude.{◌≡◌};
ghost use Rattle.command_base.specs.Input.{ReadsWithin};
ghost use Rattle.command_base.specs.declared.input.InputFault.TheVariants.{OutOfMemory};

use std::alloc::{AllocError, Global};
use std::fmt::{self, Debug, Display, Formatter};
use std::io::{ErrorKind, Read};
use thiserror::Error;

/// How many bytes are asked for in one read.
const PIECE_SIZE: usize = 16_384;

/// How many bytes there is room for at first. The C library gives so much in pages of its own, which take memory once
/// they are written and are moved when more is needed; smaller rooms would stay with the process once outgrown.
const FIRST_ROOM: usize = 1_048_576;

/// Why an input was not read.
#[derive(Clone, Copy, Error)]
pub enum InputFault {
    /// A read failed, or the end did not come within the reads that are made at most.
    #[error("Read")]
    Read,
    /// More bytes came than the limit.
    #[error("TooLarge")]
    TooLarge,
    #[error("OutOfMemory")]
    OutOfMemory,
}

/// By its text.
impl Debug for InputFault {
    fn fmt<W: fmt::Write>(&self, f: &mut Formatter<W>) -> fmt::Result {
        Display::fmt(self, f)
    }
}

impl From<AllocError> for InputFault {
    ghost from_gives = { λ _ e. e ≡ OutOfMemory };

    fn from(_error: AllocError) -> InputFault {
        InputFault::OutOfMemory
    }
}

/// All bytes that a reader gives up to its end, `limit` bytes at most. At most `limit + 1` reads are
/// made; one that was interrupted is made again, and counts.
pub fn read_input<R: Read>(
    alloc: Global,
    reader: &mut R,
    limit: usize,
) -> Result<Vec<u8>, InputFault>
    ensures { ReadsWithin limit (R.remaining reader.old) (R.remaining reader.new) result }
{
    let mut input = Vec::with_capacity(alloc, FIRST_ROOM)?;
    let mut piece = [0; PIECE_SIZE];
    for _ in 0..=limit {
        match reader.read(&mut piece) {
            Ok(0) => return Ok(input),
            Ok(count) if count > limit - input.len() => return Err(InputFault::TooLarge),
            Ok(count) => input.extend_from_slice(&piece[..count])?,
            // A read that was interrupted is made again.
            Err(error) if error.kind() == ErrorKind::Interrupted => {}
            Err(_) => return Err(InputFault::Read),
        }
    }
    Err(InputFault::Read)
}
