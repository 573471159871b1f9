//! The ids of the rows of a type.

ghost use Rattle.std.specs.Prelude.{◌≡◌, map, IfOk, OnOk};
ghost use Rattle.std.specs.List.{flat_map};
ghost use Rattle.std.specs.Option.{option_map};
ghost use Rattle.overlay_map.specs.type_chunks.Row.{row_of};
ghost use Rattle.overlay_map.specs.Table.{rows_of};
ghost use Rattle.names.specs.IdsOfType.{is_of_type, numbers_of_type, put_each, id_of_number, ids_of_type};

use crate::sought::is_text;
use overlay_map::{ResId, Row, Table};
use std::alloc::{AllocError, Global};
use std::collections::BTreeSet;

/// The ids of all rows of some tables whose type has a name, each once, in rising order; those of all rows where no
/// name is asked for. It walks once over the rows of each table.
///
/// ```text
/// let dimens = ids_of_type(alloc, &[&table], Some("dimen"))?; // [ResId(0x7f030000), ResId(0x7f030001)]
/// ```
pub fn ids_of_type(
    alloc: Global,
    tables: &[&Table<'_>],
    type_name: Option<&str>,
) -> Result<Vec<ResId>, AllocError>
    ensures { IfOk result (λ ids. ids.items ≡ ids_of_type (option_map (λ name. name.now) type_name.entry) (map (λ table. table.now) tables.now)) }
{
    let mut numbers = BTreeSet::new(alloc);
    for table in tables {
        put_numbers(alloc, table, type_name, &mut numbers)?;
    }
    ids_in(alloc, &numbers)
}

// The ids of these numbers.
fn ids_in(alloc: Global, numbers: &BTreeSet<u32>) -> Result<Vec<ResId>, AllocError>
    ensures { IfOk result (λ ids. ids.items ≡ map id_of_number numbers.now.keys) }
{
    let mut ids = Vec::with_capacity(alloc, numbers.len())?;
    for number in numbers {
        ids.push(ResId(*number))?;
    }
    Ok(ids)
}

// Puts the ids of the rows of a table among others.
fn put_numbers(
    alloc: Global,
    table: &Table<'_>,
    type_name: Option<&str>,
    numbers: &mut BTreeSet<u32>,
) -> Result<(), AllocError>
    ensures { OnOk result (numbers.new.keys ≡ put_each numbers.old.keys (numbers_of_type (option_map (λ name. name.now) type_name.entry) table.now (rows_of table.now))) }
{
    for row in table.all_rows() {
        let of_type = is_of_type(alloc, table, &row, type_name)?;
        if of_type {
            numbers.insert(row.id.0)?;
        }
    }
    Ok(())
}

// Whether the type of a row has a name, where one is asked for.
fn is_of_type(
    alloc: Global,
    table: &Table<'_>,
    row: &Row<'_>,
    type_name: Option<&str>,
) -> Result<bool, AllocError>
    ensures { IfOk result (λ of_type. of_type ≡ is_of_type (option_map (λ name. name.now) type_name.entry) table.now (row_of row.now)) }
{
    match type_name {
        Some(type_name) => is_text(alloc, table.type_name(row), type_name),
        None => Ok(true),
    }
}
