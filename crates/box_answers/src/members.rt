//! The members of a box.

ghost use Rattle.std.specs.Prelude.{◌≡◌, ◌↔◌, IsTrue, length};
ghost use Rattle.config_precedence.specs.config_record.declared.coord.Coord as coord;
ghost use Rattle.config_precedence.specs.config_record.Coord.{all_coords, number_at};
ghost use Rattle.config_precedence.specs.config_record.ComparedNumber.{device_number};
ghost use Rattle.config_precedence.specs.config_record.DeviceSeen.{device_numbers};
ghost use Rattle.box_answers.specs.NumberSet.{set_of, IsIn, IsLeastIn};
ghost use Rattle.box_answers.specs.Members.{sets_of, set_at, IsMember, IsBox, IsCorner};

use crate::number_set::NumberSet;
use config_precedence::{COORD_COUNT, Coord, Device};

/// The set at a coordinate.
pub fn set_at(sets: &[NumberSet], at: Coord) -> &NumberSet
    requires { length sets.now ≡ 25 }
    ensures { set_of result.now ≡ set_at (sets_of sets.now) at }
{
    &sets[at.place()]
}

/// Whether each number of a device is one of the set at its coordinate.
#[tactic(auto, unfolding(crate::specs::Members::IsMember, crate::specs::Unfolded::all_coords))]
pub fn is_member(sets: &[NumberSet], device: &Device) -> bool
    requires { length sets.now ≡ 25 }
    ensures { IsTrue result ↔ IsMember (sets_of sets.now) (device_numbers device.now) }
{
    is_member_at(sets, device, &Coord::ALL)
}

fn is_member_at(sets: &[NumberSet], device: &Device, coords: &[Coord]) -> bool
    requires count { length sets.now ≡ 25 }
    requires coords { coords.now ≡ all_coords }
    ensures { IsTrue result ↔ IsMember (sets_of sets.now) (device_numbers device.now) }
{
    for coord in coords {
        if !set_at(sets, *coord).contains(device.compared_number(*coord)) {
            return false;
        }
    }
    true
}

/// The member that has the least number of each set.
#[tactic(auto, unfolding(crate::specs::Unfolded::all_coords))]
pub fn corner(sets: &[NumberSet]) -> Device
    requires { IsBox (sets_of sets.now) }
    ensures { IsCorner (sets_of sets.now) (device_numbers result) }
{
    let mut numbers = [0; COORD_COUNT];
    fill_least(sets, &Coord::ALL, &mut numbers);
    Device::of_numbers(numbers)
}

fn fill_least(sets: &[NumberSet], coords: &[Coord], numbers: &mut [u64])
    requires sets { IsBox (sets_of sets.now) }
    requires coords { coords.now ≡ all_coords }
    requires count { length numbers.old ≡ 25 }
    ensures { (c : coord.Coord) → IsLeastIn (set_at (sets_of sets.now) c) (number_at numbers.new c) }
{
    for coord in coords {
        numbers[coord.place()] = set_at(sets, *coord).least();
    }
}
