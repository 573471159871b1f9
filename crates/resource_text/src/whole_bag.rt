//! The rows of a bag with those that it inherits.

ghost use Rattle.std.specs.Prelude.{◌≡◌, IfOk};
ghost use Rattle.std.specs.List.{flat_map, enumerate_from};
ghost use Rattle.contract_words.specs.Writes.{Writes};
ghost use Rattle.resource_text.specs.BagNotation.{row_told, rows_told};

use crate::naming::Naming;
use answer_text::{BagRow, Keys, ResId};
use std::alloc::AllocError;
use std::io::{self, Write};

/// A line for each row of the bag that an id selects, in their order.
pub fn bag_text(
    naming: &Naming<'_, '_, '_>,
    id: ResId,
    rows: &[BagRow],
) -> Result<Vec<u8>, AllocError>
    ensures { IfOk result (λ text. text.items ≡ rows_told naming.now id.0 rows.now) }
{
    let keys = Keys::of(naming.stack(), id);
    let mut text = Vec::new(naming.alloc());
    match write_rows(naming, keys, rows, &mut text) {
        Ok(()) => Ok(text),
        // To a `Vec` only a want of memory is a fault.
        Err(_) => Err(AllocError),
    }
}

#[tactic(auto, using(answer_text::proofs::ItemSteps::item_steps))]
fn write_rows<W: Write + Drop>(
    naming: &Naming<'_, '_, '_>,
    keys: Keys,
    rows: &[BagRow],
    out: &mut W,
) -> io::Result<()>
    ensures { Writes W.contents out.old out.new result (flat_map (row_told naming.now keys) (enumerate_from 0 rows.now)) }
{
    for (place, row) in rows.iter().enumerate() {
        naming.write_row(keys, place, *row, out)?;
        out.write_all(b" from ")?;
        naming.write_layer(row.layer, out)?;
        out.write_all(b"\n")?;
    }
    Ok(())
}
