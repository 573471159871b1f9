//! Rejections as people read them.

ghost use Rattle.std.specs.Prelude.{◌≡◌, map, slice_get};
ghost use Rattle.contract_words.specs.Writes.{Writes};
ghost use Rattle.cert_maker.specs.res_value.Goal.{goal_seen};
ghost use Rattle.resource_text.specs.RejectionNotation.{claimed_line, fault_words, goal_or_place, rejected_notation, rejection_notation, rule_words, shown_notation, shown_of};

use crate::devices::{write_device, write_two_devices};
use crate::goal::{write_claimed_end, write_goal};
use crate::naming::Naming;
use cert_maker::{Goal, Rule, Shown, Verdict};
use command_base::End;
use std::io::{self, Write};

/// Writes a rejection by the names of the goal and of what it has, with the devices that show it, where the node says this end.
#[tactic(auto, unfolding(crate::specs::RejectionNotation::rejection_notation))]
pub(crate) fn write_rejection_notation<W: Write + Drop>(
    naming: &Naming<'_, '_, '_>,
    goals: &[Goal],
    claimed: Option<End>,
    verdict: &Verdict,
    out: &mut W,
) -> io::Result<()>
    ensures { Writes W.contents out.old out.new result (rejection_notation naming.now (map goal_seen goals.now) claimed verdict.now) }
{
    match verdict {
        Verdict::Accepted => Ok(()),
        Verdict::Rejected {
            goal,
            node,
            rule,
            shown,
        } => {
            write_rejected(naming, goals, *goal, *node, *rule, out)?;
            write_shown(naming, goals, *goal, claimed, shown, out)
        }
    }
}

#[tactic(auto, unfolding(crate::specs::RejectionNotation::rejected_notation))]
fn write_rejected<W: Write + Drop>(
    naming: &Naming<'_, '_, '_>,
    goals: &[Goal],
    goal: usize,
    node: usize,
    rule: Rule,
    out: &mut W,
) -> io::Result<()>
    ensures { Writes W.contents out.old out.new result (rejected_notation naming.now (slice_get (map goal_seen goals.now) goal) goal node rule) }
{
    out.write_all(b"rejected ")?;
    write_goal_or_place(naming, goals, goal, out)?;
    write_fault(node, rule.number(), rule.name(), rule_words(rule), out)
}

#[tactic(auto, unfolding(crate::specs::RejectionNotation::fault_words))]
fn write_fault<W: Write + Drop>(
    node: usize,
    rule: u8,
    name: &str,
    words: &str,
    out: &mut W,
) -> io::Result<()>
    ensures { Writes W.contents out.old out.new result (fault_words node rule name.now words.now) }
{
    writeln!(out, " node {node} N{rule} {name}: {words}")
}

fn write_goal_or_place<W: Write + Drop>(
    naming: &Naming<'_, '_, '_>,
    goals: &[Goal],
    place: usize,
    out: &mut W,
) -> io::Result<()>
    ensures { Writes W.contents out.old out.new result (goal_or_place naming.now place (slice_get (map goal_seen goals.now) place)) }
{
    match goals.get(place) {
        Some(goal) => write_goal(naming, goal, out),
        None => write!(out, "goal {place}"),
    }
}

// What is wrong where a rule fails.
#[tactic(auto, unfolding(crate::specs::RejectionNotation::rule_words))]
fn rule_words(rule: Rule) -> &'static str
    ensures { result.now ≡ rule_words rule }
{
    match rule {
        Rule::GoalList => "the certificate is for other goals",
        Rule::EndsEarly => "the list of nodes ends before the tree",
        Rule::LeftOver => "the tree ends before this node",
        Rule::TestKind => "the box cannot be tested like this",
        Rule::EmptyHalf => "all devices there answer alike",
        Rule::MixedTrace => "devices there come to it by different decisions",
        Rule::NoValue => "it has no value there",
        Rule::OtherValue => "it has another value there",
    }
}

fn write_shown<W: Write + Drop>(
    naming: &Naming<'_, '_, '_>,
    goals: &[Goal],
    place: usize,
    claimed: Option<End>,
    shown: &Shown,
    out: &mut W,
) -> io::Result<()>
    ensures { Writes W.contents out.old out.new result (shown_of naming.now claimed (slice_get (map goal_seen goals.now) place) shown.now) }
{
    match goals.get(place) {
        Some(goal) => write_shown_of(naming, goal, claimed, shown, out),
        None => Ok(()),
    }
}

#[tactic(auto, unfolding(crate::specs::RejectionNotation::shown_notation))]
fn write_shown_of<W: Write + Drop>(
    naming: &Naming<'_, '_, '_>,
    goal: &Goal,
    claimed: Option<End>,
    shown: &Shown,
    out: &mut W,
) -> io::Result<()>
    ensures { Writes W.contents out.old out.new result (shown_notation naming.now claimed (goal_seen goal.now) shown.now) }
{
    match shown {
        Shown::Nothing => Ok(()),
        Shown::Two(first, second) => {
            write_claimed(naming, claimed, out)?;
            write_two_devices(naming, goal, first, second, out)
        }
        Shown::One(device, _) => {
            write_claimed(naming, claimed, out)?;
            write_device(naming, goal, device, out)
        }
    }
}

#[tactic(auto, unfolding(crate::specs::RejectionNotation::claimed_line))]
fn write_claimed<W: Write + Drop>(
    naming: &Naming<'_, '_, '_>,
    claimed: Option<End>,
    out: &mut W,
) -> io::Result<()>
    ensures { Writes W.contents out.old out.new result (claimed_line naming.now claimed) }
{
    let Some(end) = claimed else {
        return Ok(());
    };
    out.write_all(b"  claimed ")?;
    write_claimed_end(naming, end, out)?;
    out.write_all(b"\n")
}
