//! Where ids end, with the row that is selected last.

ghost use Rattle.std.specs.Prelude.{◌≡◌};
ghost use Rattle.std.specs.Option.{option_map};
ghost use Rattle.reference_resolver.specs.config_precedence.config_record.DeviceSeen.{device_numbers};
ghost use Rattle.answer_text.specs.overlay_map.Candidates.{cand_of};
ghost use Rattle.reference_resolver.specs.Ends.{end_of};
ghost use Rattle.resource_text.specs.EndNotation.{last_selected};

use bags_themes::{Cand, Device, End, Next, ResId, Stack};
use reference_resolver::select;

/// Where an id ends, and the row that is selected last.
#[derive(Clone, Copy)]
pub(crate) struct Last<'a> {
    pub end: End,
    pub selected: Option<Cand<'a>>,
}

/// The same of an id, where at most so many references are followed.
pub(crate) fn last_within<'a>(stack: &Stack<'a>, id: ResId, device: &Device, most: u8) -> Last<'a>
    ensures end { result.end ≡ end_of stack.now most id.0 (device_numbers device.now) }
    ensures selected { option_map cand_of result.selected ≡ last_selected stack.now most id.0 (device_numbers device.now) }
{
    let mut id = id;
    let mut left = most;
    'chain: loop {
        let selected = select(stack, id, device);
        match Next::of(id, &selected).cut_off(left) {
            Next::EndsAt(end) => return Last { end, selected },
            Next::LookUp(target) => id = target,
        }
        left -= 1;
    }
}
