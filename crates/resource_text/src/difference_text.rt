//! How two resources differ, written.

ghost use Rattle.std.specs.Prelude.{◌≡◌, map};
ghost use Rattle.std.specs.List.{flat_map};
ghost use Rattle.contract_words.specs.Writes.{Writes};
ghost use Rattle.answer_text.specs.ContentSeen.{row_content_of, content_of};
ghost use Rattle.stack_diff.specs.DifferenceSeen.{row_difference_of, difference_of};
ghost use Rattle.resource_text.specs.DifferenceText.{row_line, rows_in, before_and_after, row_lines, difference_text};

use crate::content_text::{write_content, write_content_behind};
use crate::devices_text::write_devices_in;
use crate::rows_behind::{write_row_behind, write_rows_behind};
use answer_text::{Content, Form, RowContent, write_key_in, write_row_value_in};
use stack_diff::{ConfigBox, Difference, PackageNames, RowDifference};
use std::io::{self, Write};

/// Writes how a resource differs on the devices of a part of the whole box, as it stands behind its label: what it says
/// before and after, and a line for each row of a bag that differs; from nothing all that it says, with all rows of a bag.
///
/// ```text
/// // "Cancel" -> "Cancel!" on de-rAT,de-rCH
/// write_difference(Form::Android, &packages, &difference, &phones, &german, &mut out)?;
/// ```
#[tactic(auto, unfolding(crate::specs::DifferenceText::difference_text))]
pub fn write_difference<W: Write + Drop>(
    form: Form,
    packages: &PackageNames<'_>,
    difference: &Difference<'_>,
    whole: &ConfigBox,
    part: &ConfigBox,
    out: &mut W,
) -> io::Result<()>
    ensures { Writes W.contents out.old out.new result (difference_text form packages.now (difference_of difference.now) whole.now part.now) }
{
    write_before_and_after(form, packages, difference, out)?;
    write_devices_in(form, whole, part, out)?;
    out.write_all(b"\n")?;
    write_row_lines(form, packages, difference, out)
}

#[tactic(auto, unfolding(crate::specs::DifferenceText::before_and_after))]
fn write_before_and_after<W: Write + Drop>(
    form: Form,
    packages: &PackageNames<'_>,
    difference: &Difference<'_>,
    out: &mut W,
) -> io::Result<()>
    ensures { Writes W.contents out.old out.new result (before_and_after form packages.now (difference_of difference.now)) }
{
    match difference {
        Difference::Rows(_) => Ok(()),
        Difference::Contents { before, after } => {
            out.write_all(b" ")?;
            write_content(form, packages, before, out)?;
            out.write_all(b" -> ")?;
            write_content(form, packages, after, out)
        }
        Difference::FromNothing(content) => write_content_behind(form, packages, content, out),
    }
}

#[tactic(auto, unfolding(crate::specs::DifferenceText::row_lines))]
fn write_row_lines<W: Write + Drop>(
    form: Form,
    packages: &PackageNames<'_>,
    difference: &Difference<'_>,
    out: &mut W,
) -> io::Result<()>
    ensures { Writes W.contents out.old out.new result (row_lines form packages.now (difference_of difference.now)) }
{
    match difference {
        Difference::Rows(rows) => write_rows(form, packages, rows, out),
        Difference::Contents { before, after } => {
            write_rows_behind(b"  removed ", form, packages, rows_in(before), out)?;
            write_rows_behind(b"  added ", form, packages, rows_in(after), out)
        }
        Difference::FromNothing(content) => {
            write_rows_behind(b"  ", form, packages, rows_in(content), out)
        }
    }
}

#[tactic(auto, using(contract_words::proofs::TextSteps::puts_slice))]
fn write_rows<W: Write + Drop>(
    form: Form,
    packages: &PackageNames<'_>,
    rows: &[RowDifference<'_>],
    out: &mut W,
) -> io::Result<()>
    ensures { Writes W.contents out.old out.new result (flat_map (row_line form packages.now) (map row_difference_of rows.now)) }
{
    for row in rows {
        write_row(form, packages, row, out)?;
    }
    Ok(())
}

#[tactic(auto, unfolding(crate::specs::DifferenceText::row_line))]
fn write_row<W: Write + Drop>(
    form: Form,
    packages: &PackageNames<'_>,
    row: &RowDifference<'_>,
    out: &mut W,
) -> io::Result<()>
    ensures { Writes W.contents out.old out.new result (row_line form packages.now (row_difference_of row.now)) }
{
    match row {
        RowDifference::Removed(row) => write_row_behind(b"  removed ", form, packages, row, out),
        RowDifference::Added(row) => write_row_behind(b"  added ", form, packages, row, out),
        RowDifference::Changed { key, before, after } => {
            out.write_all(b"  ")?;
            write_key_in(form, packages, key, out)?;
            out.write_all(b" ")?;
            write_row_value_in(form, packages, key, before, out)?;
            out.write_all(b" -> ")?;
            write_row_value_in(form, packages, key, after, out)?;
            out.write_all(b"\n")
        }
    }
}

// The rows of a bag; none of another content.
fn rows_in<'c, 'a>(content: &'c Content<'a>) -> &'c [RowContent<'a>]
    ensures { map row_content_of result.now ≡ rows_in (content_of content.now) }
{
    match content {
        Content::Bag(rows) => rows,
        _ => &[],
    }
}
