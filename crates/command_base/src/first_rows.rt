//! The first row of each id.

ghost use Rattle.std.specs.Prelude.{◌≡◌, ℕ, map, IfOk, OnOk};
ghost use Rattle.std.specs.BTreeMap.{keys, IsOrdered};
ghost use Rattle.std.specs.BTreeSet.{insert_key};
ghost use Rattle.std.specs.Option.{option_map, option_or};
ghost use Rattle.std.specs.Ordering.{nat_cmp};
ghost use Rattle.command_base.specs.answer_text.overlay_map.Table.{rows_of};
ghost use Rattle.command_base.specs.answer_text.type_chunks.Row.{row_of};
ghost use Rattle.command_base.specs.FirstRows.{first_row, first_rows};
ghost use Rattle.command_base.specs.FirstRowsSeen.{AreFirstOf, AreIdsOf, row_at, row_for};

use answer_text::{ResId, Row, Table};
use std::alloc::{AllocError, Global};
use std::collections::BTreeMap;

/// The first row of each id of a table.
#[derive(Drop)]
pub struct FirstRows<'t, 'a> {
    pub table: &'t Table<'a>,
    /// By the number of the id.
    rows: BTreeMap<u32, Row<'a>>,
    ghost ids: { AreIdsOf (rows_of table.now) rows },
    ghost first: { AreFirstOf (rows_of table.now) rows },
}

impl<'t, 'a> FirstRows<'t, 'a> {
    pub fn new(alloc: Global, table: &'t Table<'a>) -> Result<FirstRows<'t, 'a>, AllocError>
        ensures { IfOk result (λ first. first.table ≡ table.entry) }
    {
        let rows = first_rows(alloc, table)?;
        Ok(FirstRows { table, rows })
    }

    /// The first row of an id.
    pub fn get(&self, id: ResId) -> Option<Row<'a>>
        ensures { option_map row_of result ≡ first_row (rows_of self.now.table.now) id.0 }
    {
        self.rows.get(&id.0).copied()
    }

    /// The first rows in the order of their ids.
    pub fn in_order(&self, alloc: Global) -> Result<Vec<Row<'a>>, AllocError>
        ensures { IfOk result (λ rows. map row_of rows.items ≡ first_rows (rows_of self.now.table.now)) }
    {
        self.rows.values().copied().collect(alloc)
    }
}

#[tactic(auto, using(crate::proofs::FirstRowSteps::first_steps))]
fn first_rows<'a>(alloc: Global, table: &Table<'a>) -> Result<BTreeMap<u32, Row<'a>>, AllocError>
    ensures { IfOk result (λ rows. AreIdsOf (rows_of table.now) rows × AreFirstOf (rows_of table.now) rows) }
{
    let mut rows = BTreeMap::new(alloc);
    for row in table.all_rows() {
        keep_first(row, &mut rows)?;
    }
    Ok(rows)
}

// Puts a row where there is none of its id.
fn keep_first<'a>(row: Row<'a>, rows: &mut BTreeMap<u32, Row<'a>>) -> Result<(), AllocError>
    requires { IsOrdered nat_cmp rows.old }
    ensures { OnOk result ((keys rows.new ≡ insert_key nat_cmp (keys rows.old) row.entry.id.0)
        × ((id : ℕ) → row_at rows.new id ≡ option_or (row_at rows.old id) (row_for (row_of row.entry) id))
        × IsOrdered nat_cmp rows.new) }
{
    if !rows.contains_key(&row.id.0) {
        rows.insert(row.id.0, row)?;
    }
    Ok(())
}
