//! The packages of a table and their rows.

ghost use Rattle.std.specs.Prelude.{◌≡◌, [], IfOk};
ghost use Rattle.std.specs.List.{flat_map};
ghost use Rattle.contract_words.specs.Writes.{Writes};
ghost use Rattle.answer_text.specs.type_chunks.Row.{row_of};
ghost use Rattle.answer_text.specs.overlay_map.Package.{package_of};
ghost use Rattle.resource_text.specs.TableNotation.{dump_row_notation, package_notation, dump_in, dump_notation};

use crate::lone_table::{lone_table, stack_of};
use crate::naming::Naming;
use crate::table_row::write_row_end;
use answer_text::{
    Row, Stack, StackNames, Table, write_flags, write_id, write_its_name, write_package_line,
};
use bags_themes::{Package, PackageRows};
use std::alloc::{AllocError, Global};
use std::io::{self, Write};

/// A line for each package of a table, in the order of the file, and behind it one for each of its rows, with the lines of its
/// bag.
pub fn dump_in_notation(alloc: Global, table: Table<'_>) -> Result<Vec<u8>, AllocError>
    ensures { IfOk result (λ text. text.items ≡ dump_notation table.entry) }
{
    let stack = stack_of(alloc, table)?;
    let text = text_in(alloc, &stack, lone_table(&stack));
    drop(stack);
    text
}

// The text of a table in a stack.
fn text_in(alloc: Global, stack: &Stack<'_>, table: &Table<'_>) -> Result<Vec<u8>, AllocError>
    ensures { IfOk result (λ text. text.items ≡ dump_in (record { stack = stack.now; paths = [] }) table.now) }
{
    let naming = Naming::of(alloc, stack, &[])?;
    let text = named_text(&naming, table);
    drop(naming);
    text
}

fn named_text(naming: &Naming<'_, '_, '_>, table: &Table<'_>) -> Result<Vec<u8>, AllocError>
    ensures { IfOk result (λ text. text.items ≡ dump_in naming.now table.now) }
{
    let names = StackNames::of(naming.alloc(), naming.stack())?;
    let text = text_with(naming, &names, table);
    drop(names);
    text
}

fn text_with(
    naming: &Naming<'_, '_, '_>,
    names: &StackNames<'_, '_>,
    table: &Table<'_>,
) -> Result<Vec<u8>, AllocError>
    requires { names.now ≡ naming.now.stack }
    ensures { IfOk result (λ text. text.items ≡ dump_in naming.now table.now) }
{
    let mut text = Vec::new(naming.alloc());
    match write_packages(naming, names, table, &mut text) {
        Ok(()) => Ok(text),
        // To a `Vec` only a want of memory is a fault.
        Err(_) => Err(AllocError),
    }
}

#[tactic(auto, using(contract_words::proofs::TextSteps::puts_slice), unfolding(crate::specs::TableNotation::dump_in))]
fn write_packages<W: Write + Drop>(
    naming: &Naming<'_, '_, '_>,
    names: &StackNames<'_, '_>,
    table: &Table<'_>,
    out: &mut W,
) -> io::Result<()>
    requires { names.now ≡ naming.now.stack }
    ensures { Writes W.contents out.old out.new result (dump_in naming.now table.now) }
{
    let packages = table.packages();
    for package in packages {
        write_package(naming, names, package, out)?;
    }
    Ok(())
}

#[tactic(auto, unfolding(crate::specs::TableNotation::package_notation))]
fn write_package<W: Write + Drop>(
    naming: &Naming<'_, '_, '_>,
    names: &StackNames<'_, '_>,
    owner: &Package<'_>,
    out: &mut W,
) -> io::Result<()>
    requires { names.now ≡ naming.now.stack }
    ensures { Writes W.contents out.old out.new result (package_notation naming.now (package_of owner.now)) }
{
    write_package_line(owner, out)?;
    write_package_rows(naming, names, owner.rows(), out)
}

#[tactic(auto, using(contract_words::proofs::TextSteps::puts))]
fn write_package_rows<W: Write + Drop>(
    naming: &Naming<'_, '_, '_>,
    names: &StackNames<'_, '_>,
    rows: PackageRows<'_, '_>,
    out: &mut W,
) -> io::Result<()>
    requires { names.now ≡ naming.now.stack }
    ensures { Writes W.contents out.old out.new result (flat_map (dump_row_notation naming.now) rows.entry) }
{
    for row in rows {
        write_row(naming, names, &row, out)?;
    }
    Ok(())
}

#[tactic(auto, unfolding(crate::specs::TableNotation::dump_row_notation))]
fn write_row<W: Write + Drop>(
    naming: &Naming<'_, '_, '_>,
    names: &StackNames<'_, '_>,
    row: &Row<'_>,
    out: &mut W,
) -> io::Result<()>
    requires { names.now ≡ naming.now.stack }
    ensures { Writes W.contents out.old out.new result (dump_row_notation naming.now (row_of row.now)) }
{
    out.write_all(b"  ")?;
    write_id(row.id, out)?;
    write_its_name(names, row.id, out)?;
    write_flags(row.flags, out)?;
    out.write_all(b" ")?;
    write_row_end(naming, b"    ", row, out)
}
