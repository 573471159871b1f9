//! What candidates do, written.

ghost use Rattle.std.specs.Prelude.{◌++◌};
ghost use Rattle.contract_words.specs.Writes.{Writes};
ghost use Rattle.answer_text.specs.ExplainText.{rule_text, decision_text};

use crate::named::write_named_coord;
use bags_themes::Decision;
use std::io::{self, Write};

/// Writes what a candidate does, and the rule that decided.
#[tactic(auto, unfolding(crate::specs::ExplainText::decision_text))]
pub(crate) fn write_decision<W: Write + Drop>(decision: Decision, out: &mut W) -> io::Result<()>
    ensures { Writes W.contents out.old out.new result (decision_text decision) }
{
    match decision {
        Decision::SetAside => out.write_all(b"set aside"),
        Decision::NoMatch(coord) => write_named_coord("no match", coord, out),
        Decision::First => out.write_all(b"first"),
        Decision::TookOver(rule) => write_with_rule(b"took over", rule, out),
        Decision::TookOverEqual => out.write_all(b"took over equal"),
        Decision::KeptOut(rule) => write_with_rule(b"kept out", rule, out),
    }
}

// Writes the name of a decision, and the number of the rule, where one decided.
fn write_with_rule<W: Write + Drop>(name: &[u8], rule: Option<u8>, out: &mut W) -> io::Result<()>
    ensures { Writes W.contents out.old out.new result (name.now ++ rule_text rule) }
{
    out.write_all(name)?;
    write_rule(rule, out)
}

#[tactic(auto, unfolding(crate::specs::ExplainText::rule_text))]
fn write_rule<W: Write + Drop>(rule: Option<u8>, out: &mut W) -> io::Result<()>
    ensures { Writes W.contents out.old out.new result (rule_text rule) }
{
    match rule {
        Some(rule) => write!(out, " P{rule}"),
        None => Ok(()),
    }
}
