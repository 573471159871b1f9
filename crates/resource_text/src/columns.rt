//! Candidates in columns.

ghost use Rattle.std.specs.Prelude.{◌≡◌, ◌-◌, map, codes};
ghost use Rattle.std.specs.List.{flat_map, repeat};
ghost use Rattle.contract_words.specs.Writes.{Writes};
ghost use Rattle.resource_text.specs.Columns.{width_of, wider, widths_of, column_text, line_text, columns_text};
ghost use Rattle.resource_text.specs.ColumnsSeen.{line_of, widths_seen};

use std::alloc::Global;
use std::io::{self, Write};
use std::str;
use unicode_width::UnicodeWidthStr;

/// The texts of a line.
#[derive(Drop)]
pub(crate) struct Line {
    pub layer: Vec<u8>,
    pub config: Vec<u8>,
    pub value: Vec<u8>,
    pub decision: Vec<u8>,
}

impl Line {
    ghost use Rattle.std.specs.Prelude.{◌≡◌, []};
    ghost use Rattle.resource_text.specs.ColumnsSeen.{line_of};

    /// A line whose texts are to be written.
    pub fn new(alloc: Global) -> Line
        ensures { line_of result ≡ record { layer = []; config = []; value = []; decision = [] } }
    {
        Line {
            layer: Vec::new(alloc),
            config: Vec::new(alloc),
            value: Vec::new(alloc),
            decision: Vec::new(alloc),
        }
    }
}

/// How wide the first three texts of lines are at most.
#[derive(Clone, Copy)]
struct Widths {
    layer: usize,
    config: usize,
    value: usize,
}

impl Widths {
    ghost use Rattle.std.specs.Prelude.{◌≡◌};
    ghost use Rattle.resource_text.specs.Columns.{widths_with};
    ghost use Rattle.resource_text.specs.ColumnsSeen.{line_of, widths_seen};

    /// Those with another line.
    #[tactic(auto, unfolding(crate::specs::Columns::widths_with))]
    fn with(self, line: &Line) -> Widths
        ensures { widths_seen result ≡ widths_with (widths_seen self) (line_of line.now) }
    {
        Widths {
            layer: wider(self.layer, &line.layer),
            config: wider(self.config, &line.config),
            value: wider(self.value, &line.value),
        }
    }
}

/// Writes lines whose columns stand below one another.
#[tactic(auto, unfolding(crate::specs::Columns::columns_text))]
pub(crate) fn write_columns<W: Write + Drop>(lines: &[Line], out: &mut W) -> io::Result<()>
    ensures { Writes W.contents out.old out.new result (columns_text (map line_of lines.now)) }
{
    write_lines(widths_of(lines), lines, out)
}

fn widths_of(lines: &[Line]) -> Widths
    ensures { widths_seen result ≡ widths_of (map line_of lines.now) }
{
    let mut widths = Widths {
        layer: 0,
        config: 0,
        value: 0,
    };
    for line in lines {
        widths = widths.with(line);
    }
    widths
}

fn wider(width: usize, text: &[u8]) -> usize
    ensures { result ≡ wider width text.now }
{
    let own = width_of(text);
    if width < own { own } else { width }
}

// How many columns of a terminal a text takes; of what is no UTF-8, its bytes.
#[tactic(auto, unfolding(crate::specs::Columns::width_of))]
fn width_of(text: &[u8]) -> usize
    ensures { result ≡ width_of text.now }
{
    match str::from_utf8(text) {
        Ok(text) => text.width(),
        Err(_) => text.len(),
    }
}

#[tactic(auto, using(contract_words::proofs::TextSteps::puts_slice))]
fn write_lines<W: Write + Drop>(widths: Widths, lines: &[Line], out: &mut W) -> io::Result<()>
    ensures { Writes W.contents out.old out.new result (flat_map (line_text (widths_seen widths)) (map line_of lines.now)) }
{
    for line in lines {
        write_line(widths, line, out)?;
    }
    Ok(())
}

#[tactic(auto, unfolding(crate::specs::Columns::line_text))]
fn write_line<W: Write + Drop>(widths: Widths, line: &Line, out: &mut W) -> io::Result<()>
    ensures { Writes W.contents out.old out.new result (line_text (widths_seen widths) (line_of line.now)) }
{
    out.write_all(b"  ")?;
    write_column(widths.layer, &line.layer, out)?;
    write_column(widths.config, &line.config, out)?;
    write_column(widths.value, &line.value, out)?;
    out.write_all(&line.decision)?;
    out.write_all(b"\n")
}

#[tactic(auto, unfolding(crate::specs::Columns::column_text))]
fn write_column<W: Write + Drop>(width: usize, text: &[u8], out: &mut W) -> io::Result<()>
    ensures { Writes W.contents out.old out.new result (column_text width text.now) }
{
    out.write_all(text)?;
    write_spaces(width.saturating_sub(width_of(text)), out)?;
    out.write_all(b"  ")
}

fn write_spaces<W: Write + Drop>(count: usize, out: &mut W) -> io::Result<()>
    ensures { Writes W.contents out.old out.new result (repeat count (codes " ")) }
{
    'spaces: for _ in 0..count {
        out.write_all(b" ")?;
    }
    Ok(())
}
