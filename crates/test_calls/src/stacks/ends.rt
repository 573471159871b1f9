//! What a device makes of resources.

use crate::layers::{Malformed, device_of};
use crate::marked::{begin, end, tell, tell_end};
use cert_checker::{Goal, OutOfMemory, ResId, Stack, goal_end};
use stack_diff::{Difference, NamedStack, RowDifference, difference_at};
use std::test::Fail;

/// The resources of the entries 0 and 1.
const FIRST: ResId = ResId(0x7f01_0000);

const SECOND: ResId = ResId(0x7f01_0001);

/// Where the goal of a word ends, at the device of these qualifiers.
pub fn goal(rt: &HostRuntime, stack: &Stack<'_>, asked: &str, device: &str) -> Result<(), Fail> {
    let device = device_of(device).ok_or(Malformed)?;
    let goal = Goal::read(rt.alloc(), asked)?;
    begin(rt);
    let found = goal_end(rt.alloc(), stack, &goal, &device);
    end(rt);
    match found {
        Ok(end) => tell_end(rt, end),
        Err(fault) => tell(rt, fault),
    }
    Ok(())
}

/// How what entry 1 says differs from what entry 0 says: for each row of a bag that differs a word.
pub fn difference(rt: &HostRuntime, stack: &Stack<'_>) -> Result<(), Fail> {
    let device = device_of("").ok_or(Malformed)?;
    let named = NamedStack::of(rt.alloc(), stack)?;
    begin(rt);
    let found = difference_at(rt.alloc(), &named, FIRST, &named, SECOND, &device);
    end(rt);
    tell_found(rt, &found);
    drop(found);
    Ok(())
}

fn tell_found(rt: &HostRuntime, found: &Result<Option<Difference<'_>>, OutOfMemory>) {
    match found {
        Ok(Some(difference)) => tell_difference(rt, difference),
        Ok(None) => tell(rt, "none"),
        Err(fault) => tell(rt, fault),
    }
}

fn tell_difference(rt: &HostRuntime, difference: &Difference<'_>) {
    match difference {
        Difference::Rows(rows) => {
            for row in rows {
                tell(rt, kind_of(row));
            }
        }
        Difference::Contents { .. } | Difference::FromNothing(_) => tell(rt, "contents"),
    }
}

fn kind_of(row: &RowDifference<'_>) -> &'static str {
    match row {
        RowDifference::Removed(_) => "removed",
        RowDifference::Added(_) => "added",
        RowDifference::Changed { .. } => "changed",
    }
}
