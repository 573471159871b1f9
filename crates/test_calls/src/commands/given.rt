//! How a command ends.

use crate::commands::asked::Asked;
use crate::marked::{Writer, begin, end, tell};
use resource_tool::ToolFault;
use std::io::Write;
use std::test::Fail;

/// Gives a command, and prints what it writes and how it ends; or its fault, and how many writes there were.
pub fn give(rt: &HostRuntime, asked: &Asked<'_>) -> Result<(), Fail> {
    let mut out = Writer::failing_at(rt.alloc(), 0)?;
    begin(rt);
    let ended = asked.answer(rt.alloc(), &mut out);
    end(rt);
    match ended {
        Ok(status) => {
            rt.stdout().write_all(&out.text)?;
            tell(rt, status);
            fail_each_write(rt, asked, out.calls)?;
        }
        Err(ToolFault::OutOfMemory) => tell(rt, ToolFault::OutOfMemory),
        Err(fault) => tell(rt, (fault, out.calls)),
    }
    Ok(())
}

// Prints each write that fails where the command does not end so, or writes again.
fn fail_each_write(rt: &HostRuntime, asked: &Asked<'_>, writes: usize) -> Result<(), Fail> {
    for place in 1..=writes {
        let mut failing = Writer::failing_at(rt.alloc(), place)?;
        let ended = asked.answer(rt.alloc(), &mut failing);
        if !matches!(ended, Err(ToolFault::Write)) || failing.calls != place {
            tell(rt, (place, failing.calls, ended));
        }
    }
    Ok(())
}
