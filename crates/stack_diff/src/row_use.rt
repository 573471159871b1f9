//! What becomes of a row.

/// What becomes of a row on the devices of a box.
#[derive(Clone, Copy)]
pub enum RowUse {
    /// It is of an overlay, whose map brings it in for no id.
    Unmapped,
    /// No device loads it.
    Unused,
    /// No device loads it, but some would if the overlays were not there.
    Overlaid,
    /// Some device loads it.
    Loaded,
}
