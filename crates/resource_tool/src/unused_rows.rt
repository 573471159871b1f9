//! The rows that no device loads, written and counted.

ghost use Rattle.std.specs.Prelude.{◌≡◌, ℕ, ◌+◌, ◌<◌, ◌*◌, ◌^◌, ◌++◌, fold, length, map, option_map, string_bytes, zip, OnOk, IfOk};
ghost use Rattle.std.specs.Io.KnownBytes.{Appends};
ghost use Rattle.std.specs.List.{enumerate_from, flat_map};
ghost use Rattle.contract_words.specs.Writes.{Writes};
ghost use Rattle.answer_text.specs.overlay_map.Table.{rows_of};
ghost use Rattle.answer_text.specs.type_chunks.Row.{row_of};
ghost use Rattle.res_value.specs.Cell.{cell_of};
ghost use Rattle.res_value.specs.MapRows.{map_rows_of};
ghost use Rattle.answer_text.specs.overlay_map.Layer.{LayerOf, by_itself};
ghost use Rattle.resource_tool.specs.UnusedOutput.{entry_size, is_overlay, layer_lines, row_line, totals_line, totals_of, use_lines, used_rows, with_row, word_of};
ghost use Rattle.resource_tool.specs.UnusedTotals.{IsWithin};

use answer_text::{Cell, MapRows, Row, Table, write_layer};
use resource_text::{LineForm, Naming, write_row_end, write_row_json};
use stack_diff::{RowUse, Stack};
use std::alloc::{AllocError, Global};
use std::io::{self, Write};

/// How many rows become what, and the bytes of the entries of those that are unused.
#[derive(Clone, Copy)]
pub(crate) struct Totals {
    pub(crate) loaded: u128,
    pub(crate) overlaid: u128,
    pub(crate) unused: u128,
    pub(crate) unmapped: u128,
    pub(crate) bytes: u128,
}

impl Totals {
    ghost use Rattle.resource_tool.specs.UnusedOutput.{no_rows};

    /// Of no rows.
    pub(crate) fn new() -> Totals
        ensures { result ≡ no_rows }
    {
        Totals {
            loaded: 0,
            overlaid: 0,
            unused: 0,
            unmapped: 0,
            bytes: 0,
        }
    }

    // Counts a row, of which this becomes.
    #[tactic(auto, unfolding(crate::specs::UnusedOutput::with_row))]
    fn add(&mut self, row: &Row<'_>, row_use: Option<RowUse>)
        requires { IsWithin (2 ^ 80) self.old }
        ensures counted { self.new ≡ with_row self.old (row_of row.now, row_use) }
        ensures within { (most : ℕ) → IsWithin most self.old → IsWithin (most + 1) self.new }
    {
        match row_use {
            Some(RowUse::Loaded) => self.loaded += 1,
            Some(RowUse::Overlaid) => self.overlaid += 1,
            Some(RowUse::Unused) => {
                self.unused += 1;
                self.bytes += entry_size(row.cell);
            }
            Some(RowUse::Unmapped) => self.unmapped += 1,
            None => {}
        }
    }

    /// Writes the last line.
    #[tactic(auto, unfolding(crate::specs::UnusedOutput::totals_line))]
    pub(crate) fn write<W: Write + Drop>(self, form: LineForm, out: &mut W) -> io::Result<()>
        requires { IsWithin (2 ^ 80) self }
        ensures { Writes W.contents out.old out.new result (totals_line form self) }
    {
        let Totals {
            loaded,
            overlaid,
            unused,
            unmapped,
            bytes,
        } = self;
        let rows = loaded + unused + overlaid + unmapped;
        match form {
            LineForm::Text(_) => writeln!(
                out,
                "rows {rows} unused {unused} overlaid {overlaid} unmapped {unmapped} bytes {bytes}"
            ),
            LineForm::Json => writeln!(
                out,
                "{{\"bytes\":{bytes},\"count\":{rows},\"line\":\"rows\",\"overlaid\":{overlaid},\"unmapped\":{unmapped},\"unused\":{unused}}}"
            ),
        }
    }
}

/// A layer of which rows are told, and in which form.
#[derive(Clone, Copy)]
pub(crate) struct ToldLayer {
    form: LineForm,
    place: usize,
    overlay: bool,
}

// The bytes of an entry.
fn entry_size(cell: Cell<'_>) -> u128
    ensures value { result ≡ entry_size (cell_of cell.entry) }
    ensures few { result < 2 ^ 36 }
{
    match cell {
        Cell::Plain(_) => 16,
        Cell::Bag { rows, .. } => bag_size(rows),
    }
}

fn bag_size(rows: MapRows<'_>) -> u128
    ensures value { result ≡ 16 + 12 * length (map_rows_of rows.entry) }
    ensures few { result < 2 ^ 36 }
{
    16 + 12 * rows.len() as u128
}

/// Pushes the lines of the rows of a stack that are told, layer by layer, whose tables lie at these paths, and counts all rows that
/// are asked for.
pub(crate) fn push_layers(
    alloc: Global,
    form: LineForm,
    paths: &[String],
    stack: Stack<'_>,
    uses: &[Vec<Option<RowUse>>],
    text: &mut Vec<u8>,
) -> Result<Totals, AllocError>
    ensures { IfOk result (λ totals. (text.new.items ≡ text.old.items ++ flat_map (layer_lines form (map string_bytes paths.now)) (enumerate_from 0 (zip stack.entry (map (λ of_layer. of_layer.items) uses.now))))
        × (totals ≡ totals_of stack.entry (map (λ of_layer. of_layer.items) uses.now))
        × IsWithin (2 ^ 80) totals) }
{
    let mut totals = Totals::new();
    let mut place = 0;
    let overlays = overlays(alloc, &stack)?;
    let layers = stack.apart(alloc)?;
    for of_layer in uses {
        let Some(layer) = layers.get(place) else {
            return Ok(totals);
        };
        let told = ToldLayer {
            form,
            place,
            overlay: overlays.get(place).copied().unwrap_or(false),
        };
        push_layer(alloc, paths, told, layer, of_layer, &mut totals, text)?;
        place += 1;
    }
    Ok(totals)
}

// Which layers are overlays.
fn overlays(alloc: Global, stack: &Stack<'_>) -> Result<Vec<bool>, AllocError>
    ensures { IfOk result (λ overlays. overlays.items ≡ map is_overlay stack.now) }
{
    let mut overlays = Vec::with_capacity(alloc, stack.len())?;
    for place in 0..stack.len() {
        overlays.push(stack.layer_map(place).is_some())?;
    }
    Ok(overlays)
}

// Pushes the lines of the rows of a layer that are told, which is a stack by itself.
fn push_layer(
    alloc: Global,
    paths: &[String],
    told: ToldLayer,
    stack: &Stack<'_>,
    uses: &[Option<RowUse>],
    totals: &mut Totals,
    text: &mut Vec<u8>,
) -> Result<(), AllocError>
    requires few { told.place < 64 }
    requires within { IsWithin (told.place * 2 ^ 64) totals.old }
    ensures text { (layer : LayerOf) → stack.now ≡ by_itself layer → told.overlay ≡ is_overlay layer
        → OnOk result (text.new.items ≡ text.old.items ++ layer_lines told.form (map string_bytes paths.now) (told.place, (layer, uses.now))) }
    ensures counted { (layer : LayerOf) → stack.now ≡ by_itself layer → OnOk result (totals.new ≡ fold with_row totals.old (used_rows (layer, uses.now))) }
    ensures within { OnOk result (IsWithin ((told.place + 1) * 2 ^ 64) totals.new) }
{
    let Some(table) = stack.layer_table(0) else {
        return Ok(());
    };
    let naming = Naming::of(alloc, stack, paths)?;
    match write_rows(&naming, told, table, uses, totals, text) {
        Ok(()) => Ok(()),
        // To a `Vec` only a want of memory is a fault.
        Err(_) => Err(AllocError),
    }
}

// Writes the lines of the rows of a table that are told, and counts all rows that are asked for.
#[tactic(auto, using(contract_words::proofs::TextSteps::puts))]
fn write_rows<W: Write + Drop>(
    naming: &Naming<'_, '_, '_>,
    told: ToldLayer,
    table: &Table<'_>,
    uses: &[Option<RowUse>],
    totals: &mut Totals,
    out: &mut W,
) -> io::Result<()>
    requires few { told.place < 64 }
    requires within { IsWithin (told.place * 2 ^ 64) totals.old }
    ensures { OnOk result (Appends (W.contents out.old) (W.contents out.new) (flat_map (use_lines naming.now told) (zip (rows_of table.now) uses.now))
        × (totals.new ≡ fold with_row totals.old (zip (rows_of table.now) uses.now))
        × IsWithin ((told.place + 1) * 2 ^ 64) totals.new) }
{
    let mut rows = table.all_rows();
    for row_use in uses {
        let Some(row) = rows.next() else {
            return Ok(());
        };
        write_use(naming, told, &row, *row_use, out)?;
        totals.add(&row, *row_use);
    }
    Ok(())
}

// The word for what becomes of a row, none where it is loaded or not asked for.
fn word_of(row_use: Option<RowUse>) -> Option<&'static str>
    ensures { option_map (λ word. word.now) result ≡ word_of row_use }
{
    match row_use {
        Some(RowUse::Overlaid) => Some("overlaid"),
        Some(RowUse::Unused) => Some("unused"),
        Some(RowUse::Unmapped) => Some("unmapped"),
        Some(RowUse::Loaded) | None => None,
    }
}

// Writes the lines of a row that has such a word.
#[tactic(auto, unfolding(crate::specs::UnusedOutput::use_lines))]
fn write_use<W: Write + Drop>(
    naming: &Naming<'_, '_, '_>,
    told: ToldLayer,
    row: &Row<'_>,
    row_use: Option<RowUse>,
    out: &mut W,
) -> io::Result<()>
    ensures { Writes W.contents out.old out.new result (use_lines naming.now told (row_of row.now, row_use)) }
{
    let Some(word) = word_of(row_use) else {
        return Ok(());
    };
    match told.form {
        LineForm::Text(_) => write_row_line(naming, told.place, word, row, out),
        LineForm::Json => write_row_json(naming, told.place, told.overlay, word, row, out),
    }
}

#[tactic(auto, unfolding(crate::specs::UnusedOutput::row_line))]
fn write_row_line<W: Write + Drop>(
    naming: &Naming<'_, '_, '_>,
    place: usize,
    word: &str,
    row: &Row<'_>,
    out: &mut W,
) -> io::Result<()>
    ensures { Writes W.contents out.old out.new result (row_line naming.now place word.now (row_of row.now)) }
{
    out.write_all(word.as_bytes())?;
    out.write_all(b" ")?;
    write_layer(place, out)?;
    out.write_all(b" ")?;
    naming.write_id(row.id, out)?;
    out.write_all(b" ")?;
    write_row_end(naming, b"  ", row, out)
}
