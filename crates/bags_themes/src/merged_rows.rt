//! The rows of a bag, with those that it inherits.

ghost use Rattle.std.specs.Prelude.{◌≡◌};

use bag_rows::BagRow;
use std::marker::Model;

/// The rows of a bag, merged into those of its parents. Contracts see them as a list.
#[derive(Drop)]
pub struct BagRows {
    pub(crate) rows: Vec<BagRow>,
}

impl Model for BagRows {
    ghost use Rattle.std.specs.Prelude.{List};
    ghost use Rattle.bag_rows.specs.declared.bag_row.BagRow.{BagRow};

    ghost Value = { List BagRow };

    ghost view = { λ s. s.rows.items };
}

impl BagRows {
    /// The rows, as they were merged.
    pub fn as_slice(&self) -> &[BagRow]
        ensures { result.now ≡ self.now }
    {
        &self.rows
    }
}
