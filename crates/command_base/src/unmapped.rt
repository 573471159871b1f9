//! Ids of an overlay that stand for no target.

ghost use Rattle.std.specs.Prelude.{◌≡◌, map, IfOk};
ghost use Rattle.command_base.specs.overlay_map.IdMap.{pairs_of};
ghost use Rattle.command_base.specs.answer_text.type_chunks.Row.{row_of};
ghost use Rattle.command_base.specs.MadeMap.{unmapped};

use crate::first_rows::FirstRows;
use crate::mapped_ids::MappedIds;
use answer_text::Row;
use std::alloc::{AllocError, Global};

/// The first row of each id of an overlay that stands for no target, in the order of the ids.
pub(crate) fn unmapped_rows<'a>(
    alloc: Global,
    first: &FirstRows<'_, 'a>,
    mapped: &MappedIds<'_>,
) -> Result<Vec<Row<'a>>, AllocError>
    ensures { IfOk result (λ rows. map row_of rows.items ≡ unmapped first.now.table.now (pairs_of mapped.now.pairs.now)) }
{
    let rows = first.in_order(alloc)?;
    let mut left = Vec::new(alloc);
    for row in &rows {
        if !mapped.carries(row.id) {
            left.push(*row)?;
        }
    }
    Ok(left)
}
