//! The rows of a bag, merged into those that it inherits.

ghost use Rattle.std.specs.Prelude.{◌≡◌, IfOk};
ghost use Rattle.res_value.specs.MapRows.{map_rows_of};
ghost use Rattle.bag_rows.specs.Merge.{merge, rows_in, MergesRow};

use crate::bag_row::BagRow;
use res_value::MapRows;
use std::alloc::{AllocError, Global};
use std::cmp::Ordering;

/// The rows of a bag of the layer of this index, merged into those that it inherits, in one pass over both.
pub fn merge(
    alloc: Global,
    inherited: &[BagRow],
    layer: usize,
    own: MapRows<'_>,
) -> Result<Vec<BagRow>, AllocError>
    ensures { IfOk result (λ rows. rows.items ≡ merge inherited.now (rows_in layer (map_rows_of own.entry))) }
{
    let mut rows = Vec::new(alloc);
    let mut left = inherited;
    for (name, value) in own {
        let row = BagRow { name, layer, value };
        left = merge_row(&mut rows, left, row)?;
    }
    rows.extend_from_slice(left)?;
    Ok(rows)
}

// Merges one row: it goes over inherited rows of a smaller name, and over one of the same name, in whose
// place the row stands. Gives the inherited rows that are left.
fn merge_row<'r>(
    rows: &mut Vec<BagRow>,
    inherited: &'r [BagRow],
    own: BagRow,
) -> Result<&'r [BagRow], AllocError>
    ensures { IfOk result (λ left. MergesRow rows.old.items rows.new.items inherited.now left.now own) }
{
    let mut left = inherited;
    'smaller: while let Some((first, others)) = left.split_first() {
        match first.name.cmp(&own.name) {
            Ordering::Less => rows.push(*first)?,
            Ordering::Equal => {
                rows.push(own)?;
                return Ok(others);
            }
            Ordering::Greater => break,
        }
        left = others;
    }
    rows.push(own)?;
    Ok(left)
}
