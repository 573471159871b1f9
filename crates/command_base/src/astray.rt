//! References of an overlay that go astray.

ghost use Rattle.std.specs.Prelude.{◌≡◌, ◌++◌, map, IfOk, OnOk};
ghost use Rattle.std.specs.List.{flat_map};
ghost use Rattle.command_base.specs.overlay_map.IdMap.{pairs_of};
ghost use Rattle.command_base.specs.answer_text.res_value.MapRows.{map_rows_of};
ghost use Rattle.command_base.specs.answer_text.type_chunks.Row.{row_of};
ghost use Rattle.command_base.specs.MadeMap.{astray_to, astray_by, astray_by_bag_row, astray_in, astray};
ghost use Rattle.command_base.specs.AstraySeen.{astray_of, map_of, overlay_of};

use crate::first_rows::FirstRows;
use crate::mapped_ids::MappedIds;
use answer_text::{Cell, MapRows, ResId, Row, Value, kind};
use std::alloc::{AllocError, Global};

/// A row of an overlay that refers to an id of the overlay which the map does not keep.
#[derive(Clone, Copy)]
pub struct Astray<'a> {
    pub from: Row<'a>,
    /// The first row of that id.
    pub to: Row<'a>,
}

/// The references of an overlay that go astray, in the order of the file.
pub(crate) fn astray_references<'a>(
    alloc: Global,
    first: &FirstRows<'_, 'a>,
    mapped: &MappedIds<'_>,
) -> Result<Vec<Astray<'a>>, AllocError>
    ensures { IfOk result (λ found. map astray_of found.items ≡ astray first.now.table.now (pairs_of mapped.now.pairs.now)) }
{
    let search = AstraySearch { first, mapped };
    let mut found = Vec::new(alloc);
    for row in first.table.all_rows() {
        search.push_row(&row, &mut found)?;
    }
    Ok(found)
}

/// By what a reference of an overlay goes astray. Each call pushes the references that do, in their order.
#[derive(Clone, Copy)]
struct AstraySearch<'s, 'p, 't, 'a> {
    first: &'s FirstRows<'t, 'a>,
    mapped: &'s MappedIds<'p>,
}

impl<'s, 'p, 't, 'a> AstraySearch<'s, 'p, 't, 'a> {
    // Those of a row, if its id stands for some target.
    #[tactic(auto, unfolding(crate::specs::MadeMap::astray_in, crate::specs::MadeMap::astray_by_cell))]
    fn push_row(&self, row: &Row<'a>, found: &mut Vec<Astray<'a>>) -> Result<(), AllocError>
        ensures { OnOk result (map astray_of found.new.items
            ≡ map astray_of found.old.items ++ astray_in (overlay_of self.now) (map_of self.now) (row_of row.now)) }
    {
        if !self.mapped.carries(row.id) {
            return Ok(());
        }
        match row.cell {
            Cell::Plain(value) => self.push_value(row, value, found),
            Cell::Bag { parent, rows } => {
                self.push_id(row, parent, found)?;
                self.push_bag_rows(row, rows, found)
            }
        }
    }

    // Those of the rows of its bag.
    fn push_bag_rows(
        &self,
        row: &Row<'a>,
        bag_rows: MapRows<'a>,
        found: &mut Vec<Astray<'a>>,
    ) -> Result<(), AllocError>
        ensures { OnOk result (map astray_of found.new.items
            ≡ map astray_of found.old.items ++ flat_map (astray_by_bag_row (overlay_of self.now) (map_of self.now) (row_of row.now)) (map_rows_of bag_rows.entry)) }
    {
        for (name, value) in bag_rows {
            self.push_id(row, name, found)?;
            self.push_value(row, value, found)?;
        }
        Ok(())
    }

    // What a value refers to, if it goes astray.
    #[tactic(auto, unfolding(crate::specs::MadeMap::astray_by))]
    fn push_value(
        &self,
        row: &Row<'a>,
        value: Value,
        found: &mut Vec<Astray<'a>>,
    ) -> Result<(), AllocError>
        ensures { OnOk result (map astray_of found.new.items
            ≡ map astray_of found.old.items ++ astray_by (overlay_of self.now) (map_of self.now) (row_of row.now) value) }
    {
        if value.kind == kind::REFERENCE || value.kind == kind::ATTRIBUTE {
            return self.push_id(row, ResId(value.word), found);
        }
        Ok(())
    }

    // A row that refers to an id, if that goes astray.
    #[tactic(auto, unfolding(crate::specs::MadeMap::astray_to))]
    fn push_id(
        &self,
        row: &Row<'a>,
        id: ResId,
        found: &mut Vec<Astray<'a>>,
    ) -> Result<(), AllocError>
        ensures { OnOk result (map astray_of found.new.items
            ≡ map astray_of found.old.items ++ astray_to (overlay_of self.now) (map_of self.now) (row_of row.now) id.0) }
    {
        if self.mapped.keeps(id) {
            return Ok(());
        }
        let Some(to) = self.first.get(id) else {
            return Ok(());
        };
        let from = *row;
        found.push(Astray { from, to })?;
        Ok(())
    }
}
