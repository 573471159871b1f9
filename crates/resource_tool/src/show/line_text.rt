//! The lines of a tree, written.

ghost use Rattle.std.specs.List.{flat_map};
ghost use Rattle.std.specs.Prelude.{map};
ghost use Rattle.contract_words.specs.Writes.{Writes};
ghost use Rattle.resource_tool.specs.TreeLinesSeen.{line_of};
ghost use Rattle.resource_tool.specs.LineParts.{front_text, shown_text};
ghost use Rattle.resource_tool.specs.TreeText.{else_text, behind_text, path_text, line_text};

use crate::show::node_text::{write_if, write_node_label};
use crate::show::path_end::{LastAnswer, MOST_DEPTH, PathEnd};
use crate::show::tree_lines::TreeLine;
use answer_text::{Form, StackNames};
use std::io::{self, Write};

/// Two spaces for each answer yes.
const SPACES: &[u8; 64] = b"                                                                ";

/// Writes the lines of a tree.
#[tactic(auto, using(contract_words::proofs::TextSteps::puts_slice))]
pub(crate) fn write_lines<W: Write + Drop>(
    form: Form,
    stack: &StackNames<'_, '_>,
    lines: &[TreeLine<'_>],
    out: &mut W,
) -> io::Result<()>
    ensures { Writes W.contents out.old out.new result (flat_map (line_text form stack.now) (map line_of lines.now)) }
{
    for line in lines {
        write_line(form, stack, line, out)?;
    }
    Ok(())
}

fn write_line<W: Write + Drop>(
    form: Form,
    stack: &StackNames<'_, '_>,
    line: &TreeLine<'_>,
    out: &mut W,
) -> io::Result<()>
    ensures { Writes W.contents out.old out.new result (line_text form stack.now (line_of line.now)) }
{
    write_front(line, out)?;
    write_shown(form, stack, line, out)?;
    out.write_all(b"\n")
}

// Writes what stands before the node of a line.
#[tactic(auto, unfolding(crate::specs::LineParts::front_text))]
fn write_front<W: Write + Drop>(line: &TreeLine<'_>, out: &mut W) -> io::Result<()>
    ensures { Writes W.contents out.old out.new result (front_text (line_of line.now)) }
{
    match line {
        TreeLine::NodeAt { number, path, node } => {
            write!(out, "{number}\t")?;
            write_path(*path, out)?;
            write_if(node, out)
        }
        TreeLine::Unreached { number, node } => {
            write!(out, "{number}\tnot reached: ")?;
            write_if(node, out)
        }
        TreeLine::Missing { path } => {
            out.write_all(b"\t")?;
            write_path(*path, out)
        }
    }
}

// Writes the node of a line, or that there is none.
#[tactic(auto, unfolding(crate::specs::LineParts::shown_text))]
fn write_shown<W: Write + Drop>(
    form: Form,
    stack: &StackNames<'_, '_>,
    line: &TreeLine<'_>,
    out: &mut W,
) -> io::Result<()>
    ensures { Writes W.contents out.old out.new result (shown_text form stack.now (line_of line.now)) }
{
    match line {
        TreeLine::NodeAt { node, .. } | TreeLine::Unreached { node, .. } => {
            write_node_label(form, stack, node, out)
        }
        TreeLine::Missing { .. } => out.write_all(b"ends early"),
    }
}

// How a line begins at the end of a path.
#[tactic(auto, unfolding(crate::specs::TreeText::path_text))]
fn write_path<W: Write + Drop>(path: PathEnd, out: &mut W) -> io::Result<()>
    ensures { Writes W.contents out.old out.new result (path_text path) }
{
    let width = SPACES.len().min(2 * usize::from(path.depth));
    out.write_all(&SPACES[..width])?;
    if path.depth < MOST_DEPTH {
        write_else(path.last, out)
    } else {
        write_behind(path.last, out)
    }
}

#[tactic(auto, unfolding(crate::specs::TreeText::else_text))]
fn write_else<W: Write + Drop>(answer: LastAnswer, out: &mut W) -> io::Result<()>
    ensures { Writes W.contents out.old out.new result (else_text answer) }
{
    match answer {
        LastAnswer::No(_) => out.write_all(b"else "),
        _ => Ok(()),
    }
}

#[tactic(auto, unfolding(crate::specs::TreeText::behind_text))]
fn write_behind<W: Write + Drop>(answer: LastAnswer, out: &mut W) -> io::Result<()>
    ensures { Writes W.contents out.old out.new result (behind_text answer) }
{
    match answer {
        LastAnswer::Nothing => Ok(()),
        LastAnswer::Yes(test) => write!(out, "then of {test}: "),
        LastAnswer::No(test) => write!(out, "else of {test}: "),
    }
}
