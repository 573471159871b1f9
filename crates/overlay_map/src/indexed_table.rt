//! A table that gives the rows of an id at once.

ghost use Rattle.std.specs.Prelude.{◌≡◌, ◌<◌, ◌^◌, ◌++◌, OnOk, IfOk, IfErr, length};
ghost use Rattle.type_chunks.specs.Row.{with_id};
ghost use Rattle.overlay_map.specs.Package.{package_of, packages_of, rows_of_packages};
ghost use Rattle.overlay_map.specs.Table.{rows_of};
ghost use Rattle.type_chunks.specs.TypeRows.{rows_of_types};
ghost use Rattle.overlay_map.specs.Places.{ArePlacesOf};

use crate::indexed_rows::IndexedRows;
use crate::package::Package;
use crate::row_places::RowPlaces;
use crate::table::Table;
use std::alloc::{AllocError, Global};
use std::marker::Model;
use type_chunks::{CheckedType, ResId};

/// A table with the places of its rows by id. Contracts see it as the table.
#[derive(Drop)]
pub struct IndexedTable<'a> {
    table: Table<'a>,
    /// All types of the table, in the order of the file.
    types: Vec<CheckedType<'a>>,
    places: RowPlaces,
    ghost whole: { rows_of_types types.items ≡ rows_of table },
    ghost all: { ArePlacesOf (rows_of table) types.items places },
}

impl<'a> Model for IndexedTable<'a> {
    ghost use Rattle.overlay_map.specs.Table.{TableOf};

    ghost Value = { TableOf };

    ghost view = { λ s. s.table };
}

impl<'a> IndexedTable<'a> {
    /// Notes where the rows of a table stand, which takes memory in proportion to their number. Where
    /// memory runs out, the table is handed back.
    pub fn new(alloc: Global, table: Table<'a>) -> Result<IndexedTable<'a>, Table<'a>>
        ensures made { IfOk result (λ indexed. indexed ≡ table.entry) }
        ensures few { IfOk result (λ indexed. length (rows_of indexed) < 2 ^ 92) }
        ensures back { IfErr result (λ back. back ≡ table.entry) }
    {
        let Ok(types) = types_of(alloc, table.packages()) else {
            return Err(table);
        };
        match RowPlaces::of_types(alloc, &types) {
            Ok(places) => Ok(IndexedTable {
                table,
                types,
                places,
            }),
            Err(_) => Err(table),
        }
    }

    /// The table itself.
    pub fn table(&self) -> &Table<'a>
        ensures { result.now ≡ self.now }
    {
        &self.table
    }

    /// All types of the table, in the order of the file.
    pub fn types(&self) -> &[CheckedType<'a>]
        ensures { rows_of_types result.now ≡ rows_of self.now }
    {
        &self.types
    }

    /// The rows of an id, in the order of the file: what `Table::rows` gives, without a walk over the
    /// other rows.
    #[tactic(auto, using(crate::proofs::StandSteps::stand_steps))]
    pub fn rows(&self, id: ResId) -> IndexedRows<'_, 'a>
        ensures { result ≡ with_id id.0 (rows_of self.now) }
    {
        let next = self.places.heads.get(id);
        IndexedRows::new(&self.types, id.entry(), &self.places.links, next)
    }
}

// The types of packages, one package after the other.
fn types_of<'a>(alloc: Global, packages: &[Package<'a>]) -> Result<Vec<CheckedType<'a>>, AllocError>
    ensures { IfOk result (λ types. rows_of_types types.items ≡ rows_of_packages (packages_of packages.now)) }
{
    let mut types = Vec::new(alloc);
    for package in packages {
        push_types(package, &mut types)?;
    }
    Ok(types)
}

// Pushes the types of a package.
fn push_types<'a>(owner: &Package<'a>, types: &mut Vec<CheckedType<'a>>) -> Result<(), AllocError>
    ensures { OnOk result (rows_of_types types.new.items ≡ rows_of_types types.old.items ++ (package_of owner.now).rows) }
{
    for checked in owner.types() {
        types.push(checked)?;
    }
    Ok(())
}
