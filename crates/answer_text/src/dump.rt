//! The packages of a table and their rows, written with names.

ghost use Rattle.std.specs.List.{flat_map};
ghost use Rattle.contract_words.specs.Writes.{Writes};
ghost use Rattle.bags_themes.specs.type_chunks.Row.{row_of};
ghost use Rattle.bags_themes.specs.overlay_map.Package.{package_of};
ghost use Rattle.answer_text.specs.DumpText.{package_line, names_text, flags_text, row_text, package_text, dump_text};

use crate::cell::{RowFormat, write_row_end};
use crate::last_record::LastRecord;
use crate::last_type_name::LastTypeName;
use crate::line::Line;
use bags_themes::{Package, PackageRows, Row, Table};
use res_value::{write_hex, write_id, write_word};
use std::io::{self, Write};
use string_pool::write_string;

/// Writes a line for each package of a table, in the order of the file, and behind it one for each of
/// its rows with the names of its type and entry, with the lines of its bag. A string value is
/// followed by its string.
#[tactic(auto, using(contract_words::proofs::TextSteps::puts_slice), unfolding(crate::specs::DumpText::dump_text))]
pub fn dump_text<W: Write + Drop>(table: &Table<'_>, out: &mut W) -> io::Result<()>
    ensures { Writes W.contents out.old out.new result (dump_text table.now) }
{
    let mut records = LastRecord::none();
    let mut type_name = LastTypeName::none();
    let packages = table.packages();
    for package in packages {
        write_package(table, package, &mut records, &mut type_name, out)?;
    }
    Ok(())
}

#[tactic(auto, unfolding(crate::specs::DumpText::package_text))]
fn write_package<'a, W: Write + Drop>(
    table: &Table<'a>,
    owner: &Package<'a>,
    records: &mut LastRecord<'a>,
    type_name: &mut LastTypeName<'a>,
    out: &mut W,
) -> io::Result<()>
    ensures { Writes W.contents out.old out.new result (package_text table.now (package_of owner.now)) }
{
    write_package_line(owner, out)?;
    write_rows(table, owner.rows(), records, type_name, out)
}

/// Writes the line of a package.
#[tactic(auto, unfolding(crate::specs::DumpText::package_line))]
pub fn write_package_line<W: Write + Drop>(owner: &Package<'_>, out: &mut W) -> io::Result<()>
    ensures { Writes W.contents out.old out.new result (package_line (package_of owner.now)) }
{
    out.write_all(b"package 0x")?;
    write_hex(&[owner.id()], out)?;
    out.write_all(b" ")?;
    owner.name().write_shown(out)?;
    out.write_all(b"\n")
}

#[tactic(auto, using(contract_words::proofs::TextSteps::puts))]
fn write_rows<'a, W: Write + Drop>(
    table: &Table<'a>,
    rows: PackageRows<'_, 'a>,
    records: &mut LastRecord<'a>,
    type_name: &mut LastTypeName<'a>,
    out: &mut W,
) -> io::Result<()>
    ensures { Writes W.contents out.old out.new result (flat_map (row_text table.now) rows.entry) }
{
    let mut line = Line::new();
    for row in rows {
        write_in_one_piece(table, &row, records, type_name, &mut line, out)?;
    }
    Ok(())
}

// Writes a row and its bag. What is short is put together in `line` first, since a writer takes one piece faster
// than many.
fn write_in_one_piece<'a, W: Write + Drop>(
    table: &Table<'a>,
    row: &Row<'a>,
    records: &mut LastRecord<'a>,
    type_name: &mut LastTypeName<'a>,
    line: &mut Line,
    out: &mut W,
) -> io::Result<()>
    ensures { Writes W.contents out.old out.new result (row_text table.now (row_of row.now)) }
{
    line.clear();
    match write_row(table, row, records, type_name, line) {
        Ok(()) => out.write_all(line.text()),
        Err(_) => write_row(table, row, records, type_name, out),
    }
}

#[tactic(auto, unfolding(crate::specs::DumpText::row_text, crate::specs::DumpText::dump_format))]
fn write_row<'a, W: Write + Drop>(
    table: &Table<'a>,
    row: &Row<'a>,
    records: &mut LastRecord<'a>,
    type_name: &mut LastTypeName<'a>,
    out: &mut W,
) -> io::Result<()>
    ensures { Writes W.contents out.old out.new result (row_text table.now (row_of row.now)) }
{
    let format = RowFormat {
        indent: "    ",
        strings: Some(table.strings()),
    };
    out.write_all(b"  ")?;
    write_id(row.id, out)?;
    out.write_all(b" ")?;
    write_names(table, row, type_name, out)?;
    write_flags(row.flags, out)?;
    out.write_all(b" ")?;
    write_row_end(format, row, records, out)
}

/// Writes the flags of a row, behind what stands before them.
#[tactic(auto, unfolding(crate::specs::DumpText::flags_text))]
pub fn write_flags<W: Write + Drop>(flags: u32, out: &mut W) -> io::Result<()>
    ensures { Writes W.contents out.old out.new result (flags_text flags) }
{
    out.write_all(b" flags ")?;
    write_word(flags, out)
}

#[tactic(auto, unfolding(crate::specs::DumpText::names_text))]
fn write_names<'a, W: Write + Drop>(
    table: &Table<'a>,
    row: &Row<'_>,
    type_name: &mut LastTypeName<'a>,
    out: &mut W,
) -> io::Result<()>
    ensures { Writes W.contents out.old out.new result (names_text table.now (row_of row.now)) }
{
    type_name.write(table.type_name(row), out)?;
    out.write_all(b"/")?;
    write_string(table.key_name(row), out)
}
