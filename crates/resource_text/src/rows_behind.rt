//! The rows of a bag, written.

ghost use Rattle.std.specs.Prelude.{map};
ghost use Rattle.std.specs.List.{flat_map};
ghost use Rattle.contract_words.specs.Writes.{Writes};
ghost use Rattle.answer_text.specs.ContentSeen.{row_content_of};
ghost use Rattle.resource_text.specs.BagRows.{row_behind};

use answer_text::{Form, RowContent, write_key_in, write_row_value_in};
use stack_diff::PackageNames;
use std::io::{self, Write};

/// Writes the line of each row, behind these words.
#[tactic(auto, using(contract_words::proofs::TextSteps::puts_slice))]
pub(crate) fn write_rows_behind<W: Write + Drop>(
    words: &[u8],
    form: Form,
    packages: &PackageNames<'_>,
    rows: &[RowContent<'_>],
    out: &mut W,
) -> io::Result<()>
    ensures { Writes W.contents out.old out.new result (flat_map (row_behind words.now form packages.now) (map row_content_of rows.now)) }
{
    for row in rows {
        write_row_behind(words, form, packages, row, out)?;
    }
    Ok(())
}

/// Writes the line of a row, behind these words.
#[tactic(auto, unfolding(crate::specs::BagRows::row_behind))]
pub(crate) fn write_row_behind<W: Write + Drop>(
    words: &[u8],
    form: Form,
    packages: &PackageNames<'_>,
    row: &RowContent<'_>,
    out: &mut W,
) -> io::Result<()>
    ensures { Writes W.contents out.old out.new result (row_behind words.now form packages.now (row_content_of row.now)) }
{
    out.write_all(words)?;
    write_key_in(form, packages, &row.key, out)?;
    out.write_all(b" ")?;
    write_row_value_in(form, packages, &row.key, &row.value, out)?;
    out.write_all(b"\n")
}
