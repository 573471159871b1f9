//! The pushes of layers over as many as there can be, which take no memory and hand back what was not pushed.

use crate::layers::{Malformed, SAME, push_base};
use crate::marked::{begin, bytes_of, end, tell};
use bags_themes::{IdMap, MOST_LAYERS, ResId, Stack, Table};
use std::alloc::Global;
use std::test::Fail;

/// The resource of entry 0.
const FIRST: ResId = ResId(0x7f01_0000);

fn full_stack(alloc: Global, bytes: &[u8]) -> Option<Stack<'_>> {
    let mut stack = Stack::new(alloc);
    for _ in 0..MOST_LAYERS {
        push_base(alloc, &mut stack, bytes)?;
    }
    Some(stack)
}

/// Puts a base over them, and tells the fault, how many layers there are then, and whether the table is handed back.
pub fn base(rt: &HostRuntime, word: &str) -> Result<(), Fail> {
    let bytes = bytes_of(rt.alloc(), word)?;
    base_of(rt, &bytes)
}

fn base_of(rt: &HostRuntime, bytes: &[u8]) -> Result<(), Fail> {
    let mut stack = full_stack(rt.alloc(), bytes).ok_or(Malformed)?;
    let table = Table::open(rt.alloc(), bytes)?;
    begin(rt);
    let pushed = stack.push_base(table);
    end(rt);
    if let Err((fault, table)) = pushed {
        tell(rt, (fault, stack.len(), has_row(&table)));
    }
    Ok(())
}

/// Puts an overlay over them, and tells the same, and what the map says that is handed back.
pub fn overlay(rt: &HostRuntime, word: &str) -> Result<(), Fail> {
    let bytes = bytes_of(rt.alloc(), word)?;
    overlay_of(rt, &bytes)
}

fn overlay_of(rt: &HostRuntime, bytes: &[u8]) -> Result<(), Fail> {
    let stack = full_stack(rt.alloc(), bytes).ok_or(Malformed)?;
    let table = Table::open(rt.alloc(), bytes)?;
    let map = IdMap::read(rt.alloc(), SAME)?;
    push_overlay(rt, stack, table, map);
    Ok(())
}

fn push_overlay<'a>(rt: &HostRuntime, mut stack: Stack<'a>, table: Table<'a>, map: IdMap) {
    begin(rt);
    let pushed = stack.push_overlay(table, map);
    end(rt);
    if let Err((fault, table, map)) = pushed {
        tell(rt, (fault, stack.len(), has_row(&table)));
        tell(rt, map.look(FIRST));
    }
}

fn has_row(table: &Table<'_>) -> bool {
    table.rows(FIRST).next().is_some()
}
