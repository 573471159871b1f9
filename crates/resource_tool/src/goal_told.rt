//! The goal that an answer is about, written.

ghost use Rattle.std.specs.Prelude.{◌≡◌, false, map};
ghost use Rattle.contract_words.specs.Writes.{Writes};
ghost use Rattle.resource_text.specs.cert_maker.res_value.Goal.{goal_seen};
ghost use Rattle.resource_tool.specs.GoalTold.{named_words, goal_line, line_about, goal_told};

use answer_text::{NamesBeside, StackNames, write_goal_words};
use resource_text::Goal;
use std::io::{self, Write};

/// Where names are asked for, writes the goal that an answer is about, by its place in the list, with the names of its
/// ids. Nothing is written where the answer is about none, or the list has no such place.
#[tactic(auto, unfolding(crate::specs::GoalTold::goal_told))]
pub(crate) fn write_goal_told<W: Write + Drop>(
    names: &NamesBeside<'_, '_>,
    goals: &[Goal],
    about: Option<usize>,
    out: &mut W,
) -> io::Result<()>
    ensures text { Writes W.contents out.old out.new result (goal_told names.now.stack (map goal_seen goals.now) names.now.asked about) }
    ensures quiet { names.now.asked ≡ false → out.new ≡ out.old }
{
    match names.names() {
        Some(names) => write_line_about(names, goals, about, out),
        None => Ok(()),
    }
}

/// The same of any answer.
#[tactic(auto, unfolding(crate::specs::GoalTold::line_about, crate::specs::GoalTold::line_of))]
pub(crate) fn write_line_about<W: Write + Drop>(
    stack: &StackNames<'_, '_>,
    goals: &[Goal],
    about: Option<usize>,
    out: &mut W,
) -> io::Result<()>
    ensures { Writes W.contents out.old out.new result (line_about stack.now (map goal_seen goals.now) about) }
{
    let Some(place) = about else {
        return Ok(());
    };
    match goals.get(place) {
        Some(goal) => write_goal_line(stack, place, goal, out),
        None => Ok(()),
    }
}

#[tactic(auto, unfolding(crate::specs::GoalTold::goal_line))]
fn write_goal_line<W: Write + Drop>(
    stack: &StackNames<'_, '_>,
    place: usize,
    goal: &Goal,
    out: &mut W,
) -> io::Result<()>
    ensures { Writes W.contents out.old out.new result (goal_line stack.now place (goal_seen goal.now)) }
{
    write!(out, "goal {place} ")?;
    write_named_words(stack, goal, out)?;
    out.write_all(b"\n")
}

/// Writes a goal as words ask for it, with the names of its ids.
#[tactic(auto, unfolding(crate::specs::GoalTold::named_words))]
pub fn write_named_words<W: Write + Drop>(
    stack: &StackNames<'_, '_>,
    goal: &Goal,
    out: &mut W,
) -> io::Result<()>
    ensures { Writes W.contents out.old out.new result (named_words stack.now (goal_seen goal.now)) }
{
    match goal {
        Goal::Id(id) => write_goal_words(stack, *id, &[], out),
        Goal::Attr { attr, styles } => write_goal_words(stack, *attr, styles, out),
    }
}
