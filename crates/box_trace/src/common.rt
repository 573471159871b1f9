//! What all members of a box have in common, or where they part.

use crate::parting::Parting;
use bags_themes::{Cand, End};

/// What the traces of all members of a box have in common.
#[derive(Clone, Copy)]
pub enum CommonTrace<'a> {
    /// All members have one trace, and this is its end.
    One(End),
    /// The first question that members answer differently, and two whose traces it tells apart. The questions are, of
    /// each candidate in turn, whether it matches, and, where it matches all, whether it takes over.
    Mixed(Parting<'a>),
}

/// What one candidate does at all members of a box.
#[derive(Clone, Copy)]
pub(crate) enum CommonStep<'a> {
    /// The same, and this is the best after it.
    One(Option<Cand<'a>>),
    /// Where they part, as above.
    Mixed(Parting<'a>),
}
