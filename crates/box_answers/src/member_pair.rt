//! Two members side by side.

use config_precedence::{Coord, Device};

/// Two members of a box that differ in one coordinate alone, and by one where the box holds it as a range. A
/// question tells them apart: `yes` answers yes, and `no` answers no.
#[derive(Clone, Copy)]
pub struct MemberPair {
    pub yes: Device,
    pub no: Device,
    pub coord: Coord,
}
