//! What candidates do, in words.

ghost use Rattle.std.specs.Prelude.{◌≡◌};
ghost use Rattle.contract_words.specs.Writes.{Writes};
ghost use Rattle.resource_text.specs.DecisionWords.{rule_words, rule_notation, by_rule, decision_notation};

use answer_text::write_named_coord;
use bags_themes::Decision;
use std::io::{self, Write};

/// Writes what a candidate does, and the rule that decided.
#[tactic(auto, unfolding(crate::specs::DecisionWords::decision_notation))]
pub(crate) fn write_decision<W: Write + Drop>(decision: Decision, out: &mut W) -> io::Result<()>
    ensures { Writes W.contents out.old out.new result (decision_notation decision) }
{
    match decision {
        Decision::SetAside => out.write_all(b"no match: script or variant"),
        Decision::NoMatch(coord) => write_named_coord("no match:", coord, out),
        Decision::First => out.write_all(b"first"),
        Decision::TookOver(rule) => write_by_rule("took over", "", rule, out),
        Decision::TookOverEqual => out.write_all(b"took over: same configuration, of an overlay"),
        Decision::KeptOut(rule) => write_by_rule("kept out", ": not better", rule, out),
    }
}

#[tactic(auto, unfolding(crate::specs::DecisionWords::rule_notation))]
fn write_by_rule<W: Write + Drop>(
    what: &str,
    otherwise: &str,
    rule: Option<u8>,
    out: &mut W,
) -> io::Result<()>
    ensures { Writes W.contents out.old out.new result (by_rule what.now otherwise.now rule) }
{
    match rule {
        Some(rule) => {
            let words = rule_words(rule);
            write!(out, "{what}: {words} (P{rule})")
        }
        None => write!(out, "{what}{otherwise}"),
    }
}

// What the rule of a number compares.
#[tactic(auto, unfolding(crate::specs::DecisionWords::rule_words))]
fn rule_words(rule: u8) -> &'static str
    ensures { result.now ≡ rule_words rule }
{
    match rule {
        1 => "mobile country code",
        2 => "mobile network code",
        3 => "locale",
        4 => "layout direction",
        5 => "smallest width",
        6 => "available width and height",
        7 => "screen size",
        8 => "long screen",
        9 => "round screen",
        10 => "wide colors",
        11 => "dynamic range",
        12 => "orientation",
        13 => "UI mode",
        14 => "night mode",
        15 => "density",
        16 => "touchscreen",
        17 => "hidden keys",
        18 => "hidden navigation",
        19 => "keyboard",
        20 => "navigation",
        21 => "width and height in pixels",
        22 => "platform version",
        23 => "minor version",
        _ => "",
    }
}
