//! Goals, written.

ghost use Rattle.std.specs.List.{flat_map};
ghost use Rattle.contract_words.specs.Writes.{Writes};
ghost use Rattle.answer_text.specs.GoalText.{next_style, under_styles, goal_word, style_names, goal_words};

use crate::name::write_its_name;
use bags_themes::ResId;
use names::StackNames;
use res_value::write_id;
use std::io::{self, Write};

/// Writes the word for which the command line takes a goal: an id, or an attribute with the styles that it is asked
/// under. The names of its ids stand behind it.
#[tactic(auto, unfolding(crate::specs::GoalText::goal_words))]
pub fn write_goal_words<W: Write + Drop>(
    stack: &StackNames<'_, '_>,
    id: ResId,
    styles: &[ResId],
    out: &mut W,
) -> io::Result<()>
    ensures { Writes W.contents out.old out.new result (goal_words stack.now id.0 styles.now) }
{
    write_goal_word(id, styles, out)?;
    write_its_name(stack, id, out)?;
    write_style_names(stack, styles, out)
}

#[tactic(auto, unfolding(crate::specs::GoalText::goal_word))]
fn write_goal_word<W: Write + Drop>(id: ResId, styles: &[ResId], out: &mut W) -> io::Result<()>
    ensures { Writes W.contents out.old out.new result (goal_word id.0 styles.now) }
{
    write_id(id, out)?;
    write_under_styles(styles, out)
}

#[tactic(auto, unfolding(crate::specs::GoalText::under_styles))]
fn write_under_styles<W: Write + Drop>(styles: &[ResId], out: &mut W) -> io::Result<()>
    ensures { Writes W.contents out.old out.new result (under_styles styles.now) }
{
    let Some((first, others)) = styles.split_first() else {
        return Ok(());
    };
    out.write_all(b"@")?;
    write_id(*first, out)?;
    write_next_styles(others, out)
}

#[tactic(auto, using(crate::proofs::ItemSteps::item_steps))]
fn write_next_styles<W: Write + Drop>(styles: &[ResId], out: &mut W) -> io::Result<()>
    ensures { Writes W.contents out.old out.new result (flat_map next_style styles.now) }
{
    for style in styles {
        write_next_style(*style, out)?;
    }
    Ok(())
}

#[tactic(auto, unfolding(crate::specs::GoalText::next_style))]
fn write_next_style<W: Write + Drop>(style: ResId, out: &mut W) -> io::Result<()>
    ensures { Writes W.contents out.old out.new result (next_style style) }
{
    out.write_all(b",")?;
    write_id(style, out)
}

#[tactic(auto, using(crate::proofs::ItemSteps::item_steps))]
fn write_style_names<W: Write + Drop>(
    stack: &StackNames<'_, '_>,
    styles: &[ResId],
    out: &mut W,
) -> io::Result<()>
    ensures { Writes W.contents out.old out.new result (style_names stack.now styles.now) }
{
    for style in styles {
        write_its_name(stack, *style, out)?;
    }
    Ok(())
}
