//! Calls over the stack of a table.

mod boxes;
mod ends;
mod themes;

use crate::layers::{Malformed, stack_of_base};
use crate::marked::{bytes_of, word};
use bags_themes::Stack;
use std::test::Fail;

/// Makes the call that the first word names, over the stack of a table.
pub fn call(rt: &HostRuntime, words: &[String]) -> Result<(), Fail> {
    let bytes = bytes_of(rt.alloc(), word(words, 1))?;
    call_of_table(rt, &bytes, words)
}

fn call_of_table(rt: &HostRuntime, bytes: &[u8], words: &[String]) -> Result<(), Fail> {
    let stack = stack_of_base(rt.alloc(), bytes).ok_or(Malformed)?;
    call_over(rt, &stack, words)
}

fn call_over(rt: &HostRuntime, stack: &Stack<'_>, words: &[String]) -> Result<(), Fail> {
    let asked = word(words, 2);
    match word(words, 0) {
        "difference_at" => ends::difference(rt, stack),
        "goal_end" => ends::goal(rt, stack, asked, word(words, 3)),
        "Live::new" => boxes::whole(rt, stack, asked),
        "Live::half" => boxes::half(rt, stack, asked),
        _ => themes::applied(rt, stack, asked, word(words, 3)),
    }
}
