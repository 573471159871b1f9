//! The search for names in tables.

ghost use Rattle.std.specs.Prelude.{◌≡◌, map, IfOk, OnOk};
ghost use Rattle.std.specs.Option.{option_map};
ghost use Rattle.overlay_map.specs.type_chunks.Row.{row_of};
ghost use Rattle.overlay_map.specs.Table.{rows_of};
ghost use Rattle.names.specs.Found.{found_among};
ghost use Rattle.names.specs.FoundSoFar.{first_of};
ghost use Rattle.names.specs.Names.{name_of, wanted_of, in_any_package, found_in_tables, ids_with};
ghost use Rattle.names.specs.Packages.{package_name_of};
ghost use Rattle.names.specs.Sought.{AreSought};
ghost use Rattle.names.specs.Sought.{unfound, noted, noted_each, noted_in, entry_names, ArePlacesOf, IsNotedAt};

use crate::found::Found;
use crate::name::Name;
use crate::packages::Packages;
use crate::passed::Passed;
use crate::places::Places;
use crate::sought::Sought;
use crate::text::name_text;
use crate::wanted::Wanted;
use overlay_map::{ResId, Row, Table};
use std::alloc::{AllocError, Global};

/// The resource of each name: that of the first row which has it, in the first of the tables that has one. It walks
/// once over the rows of each table, however many names there are, and takes memory in proportion to the names and four
/// bytes for each name of an entry in a package.
///
/// ```text
/// let margin = Name { type_name: "dimen", entry_name: "margin" };
/// let found = find_names(alloc, &[&table], &[margin])?; // [Some(ResId(0x7f030000))]
/// ```
pub fn find_names(
    alloc: Global,
    tables: &[&Table<'_>],
    names: &[Name<'_>],
) -> Result<Vec<Option<ResId>>, AllocError>
    ensures { IfOk result (λ found. map (option_map (λ id. id.0)) found.items ≡ map (λ name. found_in_tables (map (λ table. table.now) tables.now) (name_of name)) names.now) }
{
    let wanted = in_any_package(alloc, names)?;
    let found = find_each(alloc, Packages { all: &[] }, tables, &wanted)?;
    first_of_each(alloc, &found)
}

fn in_any_package<'n>(alloc: Global, names: &[Name<'n>]) -> Result<Vec<Wanted<'n>>, AllocError>
    ensures { IfOk result (λ wanted. wanted.items ≡ map in_any_package names.now) }
{
    let mut wanted = Vec::with_capacity(alloc, names.len())?;
    for name in names {
        wanted.push(Wanted {
            package: None,
            name: *name,
        })?;
    }
    Ok(wanted)
}

fn first_of_each(alloc: Global, found: &[Found]) -> Result<Vec<Option<ResId>>, AllocError>
    ensures { IfOk result (λ first. first.items ≡ map first_of found.now) }
{
    let mut first = Vec::with_capacity(alloc, found.len())?;
    for one in found {
        first.push(one.first())?;
    }
    Ok(first)
}

/// What each name stands for: of the rows that have it, in the order of the tables, the first, and the first behind it that is
/// of another package. `packages` are those of the tables. It takes time and memory as `find_names` does.
pub(crate) fn find_each<'n>(
    alloc: Global,
    packages: Packages<'n>,
    tables: &[&Table<'_>],
    wanted: &[Wanted<'n>],
) -> Result<Vec<Found>, AllocError>
    ensures { IfOk result (λ found. found.items ≡ map (λ one. found_among (ids_with (map package_name_of packages.entry.all.now) (map (λ table. table.now) tables.now) (wanted_of one))) wanted.now) }
{
    if wanted.is_empty() {
        return Ok(Vec::new(alloc));
    }
    let places = places_of(alloc, wanted)?;
    let mut sought = unfound(alloc, packages, wanted)?;
    look_in_each(alloc, tables, &places, &mut sought)?;
    found(alloc, &sought)
}

// The names, before a table was looked at.
fn unfound<'n>(
    alloc: Global,
    packages: Packages<'n>,
    wanted: &[Wanted<'n>],
) -> Result<Vec<Sought<'n>>, AllocError>
    ensures { IfOk result (λ sought. sought.items ≡ map (unfound packages.entry) wanted.now) }
{
    let mut sought = Vec::with_capacity(alloc, wanted.len())?;
    for one in wanted {
        sought.push(Sought {
            packages,
            wanted: *one,
            found: Found::Nothing,
        })?;
    }
    Ok(sought)
}

// What was found.
fn found(alloc: Global, sought: &[Sought<'_>]) -> Result<Vec<Found>, AllocError>
    ensures { IfOk result (λ found. found.items ≡ map (λ one. one.found) sought.now) }
{
    let mut found = Vec::with_capacity(alloc, sought.len())?;
    for one in sought {
        found.push(one.found)?;
    }
    Ok(found)
}

// The places of names, by their entries' names.
fn places_of<'n>(alloc: Global, wanted: &[Wanted<'n>]) -> Result<Places<'n>, AllocError>
    ensures { IfOk result (λ places. ArePlacesOf places (map (λ one. one.name.entry_name.now) wanted.now)) }
{
    let mut places = Places::new(alloc);
    for (place, one) in wanted.iter().enumerate() {
        places.push(alloc, one.name.entry_name.as_bytes(), place)?;
    }
    Ok(places)
}

// Looks for names in tables, one after the other.
fn look_in_each(
    alloc: Global,
    tables: &[&Table<'_>],
    places: &Places<'_>,
    sought: &mut [Sought<'_>],
) -> Result<(), AllocError>
    requires { ArePlacesOf places.now (entry_names sought.old) }
    ensures { OnOk result (sought.new ≡ map (noted_in (map (λ table. table.now) tables.now)) sought.old) }
{
    for table in tables {
        look_in(alloc, table, places, sought)?;
    }
    Ok(())
}

// Looks for names in a table.
fn look_in(
    alloc: Global,
    table: &Table<'_>,
    places: &Places<'_>,
    sought: &mut [Sought<'_>],
) -> Result<(), AllocError>
    requires { ArePlacesOf places.now (entry_names sought.old) }
    ensures { OnOk result (sought.new ≡ map (noted_each table.now (rows_of table.now)) sought.old) }
{
    let mut passed = Passed::new(alloc);
    for row in table.all_rows() {
        pass_row(alloc, table, &row, places, &mut passed, sought)?;
    }
    Ok(())
}

// Notes a row for each name that it has. Where a row of the same names was noted before, there is nothing to note.
fn pass_row(
    alloc: Global,
    table: &Table<'_>,
    row: &Row<'_>,
    places: &Places<'_>,
    passed: &mut Passed,
    sought: &mut [Sought<'_>],
) -> Result<(), AllocError>
    requires places { ArePlacesOf places.now (entry_names sought.old) }
    requires passed { AreSought table.now passed.old sought.old }
    ensures { OnOk result ((sought.new ≡ map (noted table.now (row_of row.now)) sought.old) × AreSought table.now passed.new sought.new) }
{
    if passed.has(row) {
        return Ok(());
    }
    let Some(entry_name) = name_text(alloc, table.key_name(row))? else {
        return Ok(());
    };
    let at = places.get(entry_name.as_str().as_bytes());
    note_at(alloc, table, row, at, sought)?;
    passed.put(row)
}

// Notes a row for the names of these places that it has.
fn note_at(
    alloc: Global,
    table: &Table<'_>,
    row: &Row<'_>,
    places: &[usize],
    sought: &mut [Sought<'_>],
) -> Result<(), AllocError>
    ensures { OnOk result (IsNotedAt table.now (row_of row.now) places.now sought.old sought.new) }
{
    for place in places {
        if *place < sought.len() {
            sought[*place].note(alloc, table, row)?;
        }
    }
    Ok(())
}
