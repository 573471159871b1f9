//! The candidates that some member of a box matches.

use crate::marked::{begin, end, tell};
use cert_checker::{
    Choice, ConfigBox, Coord, Live, Locale, OutOfMemory, ResId, Split, Stack, Test,
};
use res_value::Cell;
use std::test::Fail;

/// The resource of entry 0.
const FIRST: ResId = ResId(0x7f01_0000);

/// Tells the candidates of the members of a box, each with its mark.
pub fn whole(rt: &HostRuntime, stack: &Stack<'_>, json: &str) -> Result<(), Fail> {
    let members = ConfigBox::read(rt.alloc(), json.as_bytes())?;
    begin(rt);
    let found = Live::new(rt.alloc(), stack, FIRST, &members);
    end(rt);
    tell_live(rt, found);
    Ok(())
}

/// The same of those whose locale is de, where others are there too.
pub fn half(rt: &HostRuntime, stack: &Stack<'_>, json: &str) -> Result<(), Fail> {
    let members = ConfigBox::read(rt.alloc(), json.as_bytes())?;
    german_half(rt, stack, &members)
}

fn german_half(rt: &HostRuntime, stack: &Stack<'_>, members: &ConfigBox) -> Result<(), Fail> {
    let languages = vec![in rt.alloc(); Locale::read("de")?]?;
    let is_german = Test::Among(Coord::Locale, Choice::Locales(languages));
    half_with(rt, stack, members, &is_german)
}

// Tells the candidates of the members for which the answer is yes.
fn half_with(
    rt: &HostRuntime,
    stack: &Stack<'_>,
    members: &ConfigBox,
    test: &Test,
) -> Result<(), Fail> {
    let whole = Live::new(rt.alloc(), stack, FIRST, members)?;
    if let Split::Halves(german, _) = members.split(rt.alloc(), test)? {
        begin(rt);
        let found = whole.half(rt.alloc(), &german);
        end(rt);
        tell_live(rt, found);
    }
    Ok(())
}

fn tell_live(rt: &HostRuntime, found: Result<Live<'_>, OutOfMemory>) {
    match found {
        Ok(live) => {
            for (candidate, is_marked) in live.list() {
                if let Cell::Plain(value) = candidate.row.cell {
                    tell(rt, (value, *is_marked));
                }
            }
        }
        Err(fault) => tell(rt, fault),
    }
}
