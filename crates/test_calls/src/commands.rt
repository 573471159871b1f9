//! Calls of the commands over bytes and a writer. Where a command is done, it is given again for each of its writes, which
//! then fails.

mod asked;
mod given;

use crate::commands::asked::Asked;
use crate::commands::given::give;
use std::test::Fail;

/// Gives the command that the first word names, of the other words.
pub fn call(rt: &HostRuntime, words: &[String]) -> Result<(), Fail> {
    give(rt, &Asked::read(rt.alloc(), words)?)
}
