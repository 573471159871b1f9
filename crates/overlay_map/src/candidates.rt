//! The candidates of an id, one after the other.

ghost use Rattle.std.specs.Prelude.{◌≡◌, ◌+◌, ◌≤◌, length};
ghost use Rattle.std.specs.Slice.Iter.{iter_rest};
ghost use Rattle.overlay_map.specs.Layer.{most_layers};
ghost use Rattle.overlay_map.specs.Candidates.{candidates_from};

use crate::candidate::Cand;
use crate::indexed_rows::IndexedRows;
use crate::layer::Layer;
use std::marker::Model;
use std::slice::Iter;
use type_chunks::ResId;

// The candidates of one layer that are left, in the order of the file.
#[derive(Drop)]
struct LayerCands<'s, 'a> {
    layer: usize,
    overlay: bool,
    rows: IndexedRows<'s, 'a>,
}

impl<'s, 'a> Model for LayerCands<'s, 'a> {
    ghost use Rattle.std.specs.Prelude.{List};
    ghost use Rattle.overlay_map.specs.Candidates.{CandOf, candidates_at};

    ghost Value = { List CandOf };

    ghost view = { λ s. candidates_at s.layer s.overlay s.rows };
}

impl<'s, 'a> Iterator for LayerCands<'s, 'a> {
    ghost use Rattle.std.specs.Iterator.{YieldsFirstBy, item_count};
    ghost use Rattle.overlay_map.specs.Candidates.{cand_of};

    type Item = Cand<'a>;

    ghost next_gives = { YieldsFirstBy cand_of (λ s. s) };

    ghost remaining = { item_count (λ s. s) };

    fn next(&mut self) -> Option<Cand<'a>> {
        let Some(row) = self.rows.next() else {
            return None;
        };
        Some(Cand {
            layer: self.layer,
            overlay: self.overlay,
            row,
        })
    }
}

/// The candidates of an id that are left, layer by layer and in the order of each file.
#[derive(Drop)]
pub struct Cands<'s, 'a> {
    /// Those of the layer that stands before `layers`; none before the first.
    left: LayerCands<'s, 'a>,
    layers: Iter<'s, Layer<'a>>,
    /// The index of the first of `layers`.
    index: usize,
    id: ResId,
    ghost few: { index + length (iter_rest layers) ≤ most_layers },
}

impl<'s, 'a> Model for Cands<'s, 'a> {
    ghost use Rattle.std.specs.Prelude.{List, ◌++◌};
    ghost use Rattle.std.specs.Slice.Iter.{iter_rest};
    ghost use Rattle.overlay_map.specs.Candidates.{CandOf, candidates_from};

    ghost Value = { List CandOf };

    ghost view = { λ s. s.left ++ candidates_from s.index (iter_rest s.layers) s.id.0 };
}

impl<'s, 'a> Cands<'s, 'a> {
    pub(crate) fn new(layers: &'s [Layer<'a>], id: ResId) -> Self
        requires { length layers.now ≤ most_layers }
        ensures { result ≡ candidates_from 0 layers.now id.0 }
    {
        Cands {
            left: LayerCands {
                layer: 0,
                overlay: false,
                rows: IndexedRows::none(),
            },
            layers: layers.iter(),
            index: 0,
            id,
        }
    }
}

impl<'s, 'a> Iterator for Cands<'s, 'a> {
    ghost use Rattle.std.specs.Iterator.{YieldsFirstBy, item_count};
    ghost use Rattle.overlay_map.specs.Candidates.{cand_of};

    type Item = Cand<'a>;

    ghost next_gives = { YieldsFirstBy cand_of (λ s. s) };

    ghost remaining = { item_count (λ s. s) };

    fn next(&mut self) -> Option<Cand<'a>> {
        'layers: loop {
            if let Some(candidate) = self.left.next() {
                return Some(candidate);
            }
            let Some(layer) = self.layers.next() else {
                return None;
            };
            self.left = LayerCands {
                layer: self.index,
                overlay: layer.is_overlay(),
                rows: layer.rows_for(self.id),
            };
            self.index += 1;
        }
    }
}
