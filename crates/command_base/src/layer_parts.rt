//! What a layer is made of.

/// The table of a layer and, at an overlay, its id map: the paths of both, or their bytes.
pub type LayerParts<T> = (T, Option<T>);
