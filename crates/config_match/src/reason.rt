//! Why a record does not match.

use config_record::Coord;

/// What fails first where a record does not match.
#[derive(Clone, Copy)]
pub enum Mismatch {
    /// The record has a script or a variant.
    SetAside,
    /// The condition at this coordinate.
    At(Coord),
}
