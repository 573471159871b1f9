//! The goals of a certificate, written.

ghost use Rattle.std.specs.List.{flat_map};
ghost use Rattle.contract_words.specs.Writes.{Writes};
ghost use Rattle.command_base.specs.cert_tree.res_value.Goal.{goal_seen};
ghost use Rattle.resource_tool.specs.TreeText.{style_text, goal_head, goal_line};

use answer_text::{StackNames, write_id, write_its_name};
use command_base::{Goal, ResId};
use std::io::{self, Write};

/// Writes the line of a goal: its number, what it asks and how many nodes it has.
#[tactic(auto, unfolding(crate::specs::TreeText::goal_line))]
pub(crate) fn write_goal_line<W: Write + Drop>(
    stack: &StackNames<'_, '_>,
    number: usize,
    goal: &Goal,
    nodes: usize,
    out: &mut W,
) -> io::Result<()>
    ensures { Writes W.contents out.old out.new result (goal_line stack.now number (goal_seen goal.now) nodes) }
{
    write_goal_head(stack, number, goal, out)?;
    writeln!(out, " nodes {nodes}")
}

/// Writes the number of a goal and what it asks.
#[tactic(auto, unfolding(crate::specs::TreeText::goal_head, crate::specs::TreeText::asked_text))]
pub(crate) fn write_goal_head<W: Write + Drop>(
    stack: &StackNames<'_, '_>,
    number: usize,
    goal: &Goal,
    out: &mut W,
) -> io::Result<()>
    ensures { Writes W.contents out.old out.new result (goal_head stack.now number (goal_seen goal.now)) }
{
    write!(out, "goal {number} ")?;
    match goal {
        Goal::Id(id) => {
            write_id(*id, out)?;
            write_its_name(stack, *id, out)
        }
        Goal::Attr { attr, styles } => {
            write_id(*attr, out)?;
            write_its_name(stack, *attr, out)?;
            out.write_all(b" under")?;
            write_styles(stack, styles.as_slice(), out)
        }
    }
}

#[tactic(auto, using(contract_words::proofs::TextSteps::puts))]
fn write_styles<W: Write + Drop>(
    stack: &StackNames<'_, '_>,
    styles: &[ResId],
    out: &mut W,
) -> io::Result<()>
    ensures { Writes W.contents out.old out.new result (flat_map (style_text stack.now) styles.now) }
{
    for style in styles {
        write_style(stack, *style, out)?;
    }
    Ok(())
}

#[tactic(auto, unfolding(crate::specs::TreeText::style_text))]
fn write_style<W: Write + Drop>(
    stack: &StackNames<'_, '_>,
    style: ResId,
    out: &mut W,
) -> io::Result<()>
    ensures { Writes W.contents out.old out.new result (style_text stack.now style) }
{
    out.write_all(b" ")?;
    write_id(style, out)?;
    write_its_name(stack, style, out)
}
