//! The tree of a goal as a picture, written in the language DOT.

ghost use Rattle.std.specs.Prelude.{◌≡◌, ◌++◌, codes, map, OnOk, IfOk};
ghost use Rattle.std.specs.Fmt.{decimal};
ghost use Rattle.std.specs.List.{flat_map};
ghost use Rattle.contract_words.specs.Writes.{Writes};
ghost use Rattle.command_base.specs.answer_text.OnLine.{on_line};
ghost use Rattle.command_base.specs.cert_tree.Certificate.{goal_of};
ghost use Rattle.command_base.specs.cert_tree.res_value.Goal.{goal_seen};
ghost use Rattle.resource_tool.specs.TreeLinesSeen.{line_of};
ghost use Rattle.resource_tool.specs.TreeText.{goal_head};
ghost use Rattle.resource_tool.specs.DotText.{escaped, is_inside, character_end, dots_for, cut_label, line_label, missing_name, line_name, arrow_to, arrow_text, statements_with, statements_text, head_with, dot_text};

use crate::show::goal_text::write_goal_head;
use crate::show::node_text::write_node_label;
use crate::show::path_end::LastAnswer;
use crate::show::tree_lines::{TreeLine, tree_lines};
use answer_text::{Form, StackNames, write_on_line};
use command_base::{CertGoal, Goal};
use std::alloc::{AllocError, Global};
use std::io::{self, Write};

/// How many bytes of a label are shown at most. Graphviz reads no longer texts than 16,384 bytes.
const MOST_OF_A_LABEL: usize = 2000;

/// The picture of the tree of a goal, by its number.
#[tactic(auto, unfolding(crate::specs::DotText::dot_text))]
pub(crate) fn dot_text(
    alloc: Global,
    form: Form,
    stack: &StackNames<'_, '_>,
    number: usize,
    goal: &CertGoal,
) -> Result<Vec<u8>, AllocError>
    ensures { IfOk result (λ text. text.items ≡ dot_text form stack.now number (goal_of goal.now)) }
{
    let lines = tree_lines(alloc, goal.nodes.as_slice())?;
    let mut text = head_of(alloc, stack, number, &goal.goal)?;
    push_lines(alloc, form, stack, &lines, &mut text)?;
    text.extend_from_slice(b"}\n")?;
    Ok(text)
}

fn head_of(
    alloc: Global,
    stack: &StackNames<'_, '_>,
    number: usize,
    goal: &Goal,
) -> Result<Vec<u8>, AllocError>
    ensures { IfOk result (λ text. text.items ≡ head_with (on_line (goal_head stack.now number (goal_seen goal.now)))) }
{
    let label = goal_label(alloc, stack, number, goal)?;
    let mut text = Vec::new(alloc);
    match write_head(&label, &mut text) {
        Ok(()) => Ok(text),
        // To a `Vec` only a want of memory is a fault.
        Err(_) => Err(AllocError),
    }
}

fn on_line(alloc: Global, text: &[u8]) -> Result<Vec<u8>, AllocError>
    ensures { IfOk result (λ line. line.items ≡ on_line text.now) }
{
    let mut line = Vec::new(alloc);
    match write_on_line(text, &mut line) {
        Ok(()) => Ok(line),
        // To a `Vec` only a want of memory is a fault.
        Err(_) => Err(AllocError),
    }
}

// The first line of a goal.
fn goal_label(
    alloc: Global,
    stack: &StackNames<'_, '_>,
    number: usize,
    goal: &Goal,
) -> Result<Vec<u8>, AllocError>
    ensures { IfOk result (λ label. label.items ≡ on_line (goal_head stack.now number (goal_seen goal.now))) }
{
    let mut label = Vec::new(alloc);
    match write_goal_head(stack, number, goal, &mut label) {
        Ok(()) => on_line(alloc, &label),
        // To a `Vec` only a want of memory is a fault.
        Err(_) => Err(AllocError),
    }
}

// Writes what stands before the lines of the tree.
#[tactic(auto, unfolding(crate::specs::DotText::head_with))]
fn write_head<W: Write + Drop>(label: &[u8], out: &mut W) -> io::Result<()>
    ensures { Writes W.contents out.old out.new result (head_with label.now) }
{
    out.write_all(b"digraph {\n  label=\"")?;
    write_cut_label(label, out)?;
    out.write_all(b"\";\n  node [shape=box];\n")
}

// Pushes what is shown of each line.
#[tactic(auto, using(contract_words::proofs::TextSteps::puts_slice))]
fn push_lines(
    alloc: Global,
    form: Form,
    stack: &StackNames<'_, '_>,
    lines: &[TreeLine<'_>],
    text: &mut Vec<u8>,
) -> Result<(), AllocError>
    ensures { OnOk result (text.new.items ≡ text.old.items ++ flat_map (statements_text form stack.now) (map line_of lines.now)) }
{
    for line in lines {
        push_line(alloc, form, stack, line, text)?;
    }
    Ok(())
}

// The label is put together first, since characters of it are written otherwise between quotation marks.
fn push_line(
    alloc: Global,
    form: Form,
    stack: &StackNames<'_, '_>,
    line: &TreeLine<'_>,
    text: &mut Vec<u8>,
) -> Result<(), AllocError>
    ensures { OnOk result (text.new.items ≡ text.old.items ++ statements_text form stack.now (line_of line.now)) }
{
    let label = label_of(alloc, form, stack, line)?;
    match write_statements(line, &label, text) {
        Ok(()) => Ok(()),
        // To a `Vec` only a want of memory is a fault.
        Err(_) => Err(AllocError),
    }
}

fn label_of(
    alloc: Global,
    form: Form,
    stack: &StackNames<'_, '_>,
    line: &TreeLine<'_>,
) -> Result<Vec<u8>, AllocError>
    ensures { IfOk result (λ label. label.items ≡ on_line (line_label form stack.now (line_of line.now))) }
{
    let mut label = Vec::new(alloc);
    match write_line_label(form, stack, line, &mut label) {
        Ok(()) => on_line(alloc, &label),
        // To a `Vec` only a want of memory is a fault.
        Err(_) => Err(AllocError),
    }
}

#[tactic(auto, unfolding(crate::specs::DotText::line_label, crate::specs::DotText::unreached_label))]
fn write_line_label<W: Write + Drop>(
    form: Form,
    stack: &StackNames<'_, '_>,
    line: &TreeLine<'_>,
    out: &mut W,
) -> io::Result<()>
    ensures { Writes W.contents out.old out.new result (line_label form stack.now (line_of line.now)) }
{
    match line {
        TreeLine::NodeAt { node, .. } => write_node_label(form, stack, node, out),
        TreeLine::Unreached { node, .. } => {
            out.write_all(b"not reached: ")?;
            write_node_label(form, stack, node, out)
        }
        TreeLine::Missing { .. } => out.write_all(b"ends early"),
    }
}

#[tactic(auto, unfolding(crate::specs::DotText::statements_with))]
fn write_statements<W: Write + Drop>(
    line: &TreeLine<'_>,
    label: &[u8],
    out: &mut W,
) -> io::Result<()>
    ensures { Writes W.contents out.old out.new result (statements_with label.now (line_of line.now)) }
{
    out.write_all(b"  ")?;
    write_name(line, out)?;
    out.write_all(b" [label=\"")?;
    write_cut_label(label, out)?;
    out.write_all(b"\"];\n")?;
    write_arrow(line, out)
}

#[tactic(auto, unfolding(crate::specs::DotText::cut_label))]
fn write_cut_label<W: Write + Drop>(text: &[u8], out: &mut W) -> io::Result<()>
    ensures { Writes W.contents out.old out.new result (cut_label text.now) }
{
    let end = character_end(text, MOST_OF_A_LABEL).min(text.len());
    write_each_escaped(&text[..end], out)?;
    write_dots_for(&text[end..], out)
}

fn write_dots_for<W: Write + Drop>(left: &[u8], out: &mut W) -> io::Result<()>
    ensures { Writes W.contents out.old out.new result (dots_for left.now) }
{
    if left.is_empty() {
        return Ok(());
    }
    out.write_all(b"..")
}

/// The last place up to one that is not inside a character.
#[tactic(auto, unfolding(crate::specs::DotText::character_end))]
fn character_end(text: &[u8], most: usize) -> usize
    ensures { result ≡ character_end text.now most }
{
    let mut end = most;
    'inside: while end > 0 && is_inside(text.get(end).copied()) {
        end -= 1;
    }
    end
}

/// Whether a byte is one of a character behind its first.
fn is_inside(byte: Option<u8>) -> bool
    ensures { result ≡ is_inside byte }
{
    match byte {
        Some(byte) => byte / 64 == 2,
        None => false,
    }
}

#[tactic(auto, using(contract_words::proofs::TextSteps::puts))]
fn write_each_escaped<W: Write + Drop>(text: &[u8], out: &mut W) -> io::Result<()>
    ensures { Writes W.contents out.old out.new result (flat_map escaped text.now) }
{
    for byte in text {
        write_escaped(*byte, out)?;
    }
    Ok(())
}

#[tactic(auto, unfolding(crate::specs::DotText::escaped))]
fn write_escaped<W: Write + Drop>(byte: u8, out: &mut W) -> io::Result<()>
    ensures { Writes W.contents out.old out.new result (escaped byte) }
{
    if byte == b'"' || byte == b'\\' {
        out.write_all(&[b'\\', byte])
    } else if byte == b'&' {
        out.write_all(b"&amp;")
    } else {
        out.write_all(&[byte])
    }
}

#[tactic(auto, unfolding(crate::specs::DotText::line_name))]
fn write_name<W: Write + Drop>(line: &TreeLine<'_>, out: &mut W) -> io::Result<()>
    ensures { Writes W.contents out.old out.new result (line_name (line_of line.now)) }
{
    match line {
        TreeLine::NodeAt { number, .. } | TreeLine::Unreached { number, .. } => {
            write!(out, "n{number}")
        }
        TreeLine::Missing { path } => write_missing_name(path.last, out),
    }
}

#[tactic(auto, unfolding(crate::specs::DotText::missing_name))]
fn write_missing_name<W: Write + Drop>(answer: LastAnswer, out: &mut W) -> io::Result<()>
    ensures { Writes W.contents out.old out.new result (missing_name answer) }
{
    match answer {
        LastAnswer::Nothing => out.write_all(b"n0"),
        LastAnswer::Yes(test) => write!(out, "n{test}yes"),
        LastAnswer::No(test) => write!(out, "n{test}no"),
    }
}

#[tactic(auto, unfolding(crate::specs::DotText::arrow_text))]
fn write_arrow<W: Write + Drop>(line: &TreeLine<'_>, out: &mut W) -> io::Result<()>
    ensures { Writes W.contents out.old out.new result (arrow_text (line_of line.now)) }
{
    match line {
        TreeLine::NodeAt { path, .. } | TreeLine::Missing { path } => {
            write_arrow_to(path.last, line, out)
        }
        TreeLine::Unreached { .. } => Ok(()),
    }
}

#[tactic(auto, unfolding(crate::specs::DotText::arrow_to, crate::specs::DotText::labeled_arrow))]
fn write_arrow_to<W: Write + Drop>(
    answer: LastAnswer,
    line: &TreeLine<'_>,
    out: &mut W,
) -> io::Result<()>
    ensures { Writes W.contents out.old out.new result (arrow_to answer (line_name (line_of line.now))) }
{
    match answer {
        LastAnswer::Nothing => Ok(()),
        LastAnswer::Yes(test) => write_labeled_arrow(test, line, b" [label=yes];\n", out),
        LastAnswer::No(test) => write_labeled_arrow(test, line, b" [label=no];\n", out),
    }
}

// An arrow from a test to a line, and behind it its label.
fn write_labeled_arrow<W: Write + Drop>(
    test: usize,
    line: &TreeLine<'_>,
    label: &[u8],
    out: &mut W,
) -> io::Result<()>
    ensures { Writes W.contents out.old out.new result (codes "  n" ++ decimal test ++ codes " -> " ++ line_name (line_of line.now) ++ label.now) }
{
    write!(out, "  n{test} -> ")?;
    write_name(line, out)?;
    out.write_all(label)
}
