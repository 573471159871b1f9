//! Stacks of tables that lie in memory.

use overlay_map::{IdMap, Stack, Table};
use std::alloc::Global;

/// An id map in which entry 0 stands for entry 0.
pub(crate) const SAME: &[u8] = br#"[["0x7f010000","0x7f010000"]]"#;

/// Puts a base over the layers of a stack; None where it is refused.
pub(crate) fn push_base<'a>(alloc: Global, stack: &mut Stack<'a>, bytes: &'a [u8]) -> Option<()> {
    let table = Table::open(alloc, bytes).ok()?;
    stack.push_base(table).ok()
}

/// Puts an overlay over the layers of a stack; None where it is refused.
pub(crate) fn push_overlay<'a>(
    alloc: Global,
    stack: &mut Stack<'a>,
    bytes: &'a [u8],
    map: &[u8],
) -> Option<()> {
    let map = IdMap::read(alloc, map).ok()?;
    let table = Table::open(alloc, bytes).ok()?;
    stack.push_overlay(table, map).ok()
}

/// The stack of a base.
pub(crate) fn stack_of_base(alloc: Global, bytes: &[u8]) -> Option<Stack<'_>> {
    let mut stack = Stack::new(alloc);
    push_base(alloc, &mut stack, bytes)?;
    Some(stack)
}
