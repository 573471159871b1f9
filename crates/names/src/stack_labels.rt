//! The names of rows.

ghost use Rattle.std.specs.Prelude.{◌≡◌, [], ◌∷◌, None, map, IfOk, OnOk};
ghost use Rattle.std.specs.List.{flat_map};
ghost use Rattle.std.specs.Option.{option_map};
ghost use Rattle.overlay_map.specs.Table.{rows_of};
ghost use Rattle.overlay_map.specs.type_chunks.Row.{row_of};
ghost use Rattle.names.specs.IdsOfType.{numbers_in, numbers_of_type};
ghost use Rattle.names.specs.Label.{label_of};
ghost use Rattle.names.specs.Noted.{AreNoted, Notes};
ghost use Rattle.names.specs.StackLabels.{name_of_row, named, named_rows};

use crate::label::Label;
use crate::noted::Noted;
use crate::passed::Passed;
use crate::text::name_text;
use overlay_map::{Row, Table};
use std::alloc::{AllocError, Global};

/// Notes the rows of tables, one after the other.
#[tactic(auto, using(crate::proofs::NotesSteps::notes))]
pub(crate) fn note_tables<'a>(
    alloc: Global,
    tables: &[&Table<'a>],
    noted: &mut Noted<'a>,
) -> Result<(), AllocError>
    ensures { OnOk result (Notes (numbers_in None (map (λ table. table.now) tables.now)) (flat_map named_rows (map (λ table. table.now) tables.now)) noted.old noted.new) }
{
    for table in tables {
        note_rows(alloc, table, noted)?;
    }
    Ok(())
}

#[tactic(auto, using(crate::proofs::NotesSteps::notes))]
fn note_rows<'a>(alloc: Global, table: &Table<'a>, noted: &mut Noted<'a>) -> Result<(), AllocError>
    ensures { OnOk result (Notes (numbers_of_type None table.now (rows_of table.now)) (named_rows table.now) noted.old noted.new) }
{
    let mut passed = Passed::new(alloc);
    for row in table.all_rows() {
        pass_row(alloc, table, &row, &mut passed, noted)?;
    }
    Ok(())
}

// Notes a row. Where one of the same id and the same names was noted before, there is nothing to note.
fn pass_row<'a>(
    alloc: Global,
    table: &Table<'a>,
    row: &Row<'_>,
    passed: &mut Passed,
    noted: &mut Noted<'a>,
) -> Result<(), AllocError>
    requires { AreNoted table.now passed.old noted.old }
    ensures { OnOk result (Notes (row.now.id.0 ∷ []) (named (row_of row.now) (name_of_row table.now (row_of row.now))) noted.old noted.new
        × AreNoted table.now passed.new noted.new) }
{
    if passed.has(row) {
        return Ok(());
    }
    let Some(label) = name_of_row(alloc, table, row)? else {
        return noted.note_id(row.id);
    };
    noted.note(label, row.id)?;
    passed.put(row)
}

/// The name of a row of a table, where both its parts are text. What is UTF-8 in the table is lent, and not copied.
#[tactic(auto, unfolding(crate::specs::StackLabels::name_of_row))]
pub(crate) fn name_of_row<'a>(
    alloc: Global,
    table: &Table<'a>,
    row: &Row<'_>,
) -> Result<Option<Label<'a>>, AllocError>
    ensures { IfOk result (λ label. option_map label_of label ≡ name_of_row table.now (row_of row.now)) }
{
    let Some(type_name) = name_text(alloc, table.type_name(row))? else {
        return Ok(None);
    };
    let Some(entry_name) = name_text(alloc, table.key_name(row))? else {
        return Ok(None);
    };
    Ok(Some(Label::Name {
        package: row.id.package(),
        type_name,
        entry_name,
    }))
}
