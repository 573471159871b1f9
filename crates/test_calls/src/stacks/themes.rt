//! Themes of two styles, the bags of entries 0 and 1.

use crate::layers::{Malformed, device_of};
use crate::marked::{begin, end, tell, tell_end};
use bags_themes::{Device, ResId, Stack, Theme};
use std::test::Fail;

const STYLES: [ResId; 2] = [ResId(0x7f01_0000), ResId(0x7f01_0001)];

const ATTRS: [ResId; 4] = [
    ResId(0x0101_0001),
    ResId(0x0101_0002),
    ResId(0x0101_0003),
    ResId(0x0101_0004),
];

/// Applies the second style, to an empty theme or after the first, with force or without: which a word says by being
/// there.
pub fn applied(rt: &HostRuntime, stack: &Stack<'_>, first: &str, forced: &str) -> Result<(), Fail> {
    let device = device_of("").ok_or(Malformed)?;
    let mut theme = Theme::new(rt.alloc());
    if !first.is_empty() {
        theme.apply(stack, STYLES[0], true, &device)?;
    }
    apply(rt, stack, &mut theme, !forced.is_empty(), &device)
}

// Applies the second style. Where that is refused, it is applied again.
fn apply(
    rt: &HostRuntime,
    stack: &Stack<'_>,
    theme: &mut Theme,
    force: bool,
    device: &Device,
) -> Result<(), Fail> {
    begin(rt);
    let applied = theme.apply(stack, STYLES[1], force, device);
    end(rt);
    if let Err(fault) = applied {
        tell(rt, fault);
        tell_theme(rt, stack, theme, device);
        theme.apply(stack, STYLES[1], force, device)?;
    }
    tell_theme(rt, stack, theme, device);
    Ok(())
}

// Tells where the attributes of a theme end.
fn tell_theme(rt: &HostRuntime, stack: &Stack<'_>, theme: &Theme, device: &Device) {
    for attr in ATTRS {
        tell_end(rt, theme.attribute(stack, attr, device));
    }
}
