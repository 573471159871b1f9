//! Where the references of an id lead.

ghost use Rattle.std.specs.Prelude.{◌≡◌};
ghost use Rattle.config_precedence.specs.config_record.DeviceSeen.{device_numbers};
ghost use Rattle.reference_resolver.specs.Ends.{references_followed, next_within, end_of, IsTheEnd};

use crate::end::End;
use crate::next::Next;
use crate::selection::select;
use config_precedence::Device;
use overlay_map::{ResId, Stack};

/// How many references are followed, at most.
pub const REFERENCES_FOLLOWED: u8 = 20;

/// Where the references of an id end at a device if at most twenty are followed.
pub fn resolve(stack: &Stack<'_>, id: ResId, device: &Device) -> End
    ensures value { result ≡
        end_of stack.now references_followed id.0 (device_numbers device.now) }
    ensures chain { IsTheEnd
        stack.now id.0 (device_numbers device.now) references_followed result }
{
    resolve_within(stack, id, device, REFERENCES_FOLLOWED)
}

/// Where the references of an id end at a device if at most so many are followed (AOSP:
/// `ResTable::resolveReference`). An id that selects nothing or a bag is the end, and so is a value that
/// is no reference. A reference that is met after the last that may be followed is too long.
pub fn resolve_within(stack: &Stack<'_>, id: ResId, device: &Device, most: u8) -> End
    ensures value { result ≡ end_of stack.now most id.0 (device_numbers device.now) }
    ensures chain { IsTheEnd stack.now id.0 (device_numbers device.now) most result }
{
    let mut id = id;
    let mut left = most;
    'chain: loop {
        match next_within(stack, id, device, left) {
            Next::EndsAt(end) => return end,
            Next::LookUp(target) => id = target,
        }
        left -= 1;
    }
}

// Where the look-up of an id leads if at most `left` references may still be followed.
fn next_within(stack: &Stack<'_>, id: ResId, device: &Device, left: u8) -> Next
    ensures { result ≡ next_within stack.now left id.0 (device_numbers device.now) }
{
    Next::of(id, &select(stack, id, device)).cut_off(left)
}
