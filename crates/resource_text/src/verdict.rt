//! The verdict on a certificate, written.

ghost use Rattle.std.specs.Prelude.{◌≡◌};
ghost use Rattle.contract_words.specs.Writes.{Writes};
ghost use Rattle.command_base.specs.answer_text.config_record.DeviceSeen.{device_numbers};
ghost use Rattle.cert_maker.specs.cert_tree.Certificate.{goals_of, node_count};
ghost use Rattle.resource_text.specs.VerdictText.{accepted_line, accepted_text, rejected_line, named_device_line, device_with_end, failed_line, rejection_text, shown_text, verdict_text};

use answer_text::write_end_line;
use cert_maker::{Cert, Shown, Verdict};
use command_base::{Device, End};
use std::io::{self, Write};

/// Writes whether a certificate is accepted, with the number of its goals and nodes; or the first node that
/// fails with its rule, and the devices that show it.
pub fn verdict_text<W: Write + Drop>(
    verdict: &Verdict,
    certificate: &Cert,
    out: &mut W,
) -> io::Result<()>
    ensures { Writes W.contents out.old out.new result (verdict_text verdict.now (goals_of certificate.now)) }
{
    match verdict {
        Verdict::Accepted => write_accepted(certificate, out),
        Verdict::Rejected { .. } => write_rejection(verdict, out),
    }
}

/// Writes how many goals of a list are rejected.
#[tactic(auto, unfolding(crate::specs::VerdictText::failed_line))]
pub(crate) fn write_failed<W: Write + Drop>(
    failed: usize,
    goals: usize,
    out: &mut W,
) -> io::Result<()>
    ensures { Writes W.contents out.old out.new result (failed_line failed goals) }
{
    writeln!(out, "failed {failed} of {goals} goals")
}

/// Writes a rejection.
#[tactic(auto, unfolding(crate::specs::VerdictText::rejection_text))]
pub(crate) fn write_rejection<W: Write + Drop>(rejection: &Verdict, out: &mut W) -> io::Result<()>
    ensures { Writes W.contents out.old out.new result (rejection_text rejection.now) }
{
    match rejection {
        Verdict::Accepted => Ok(()),
        Verdict::Rejected {
            goal,
            node,
            rule,
            shown,
        } => {
            write_rejected(*goal, *node, rule.number(), rule.name(), out)?;
            write_shown(shown, out)
        }
    }
}

/// Writes how many goals and nodes a certificate has that is accepted.
pub(crate) fn write_accepted<W: Write + Drop>(certificate: &Cert, out: &mut W) -> io::Result<()>
    ensures { Writes W.contents out.old out.new result (accepted_text (goals_of certificate.now)) }
{
    write_counts(certificate.goals.len(), node_count(certificate), out)
}

#[tactic(auto, unfolding(crate::specs::VerdictText::accepted_line))]
fn write_counts<W: Write + Drop>(goals: usize, nodes: u128, out: &mut W) -> io::Result<()>
    ensures { Writes W.contents out.old out.new result (accepted_line goals nodes) }
{
    writeln!(out, "accepted goals {goals} nodes {nodes}")
}

/// How many nodes all goals have.
pub(crate) fn node_count(certificate: &Cert) -> u128
    ensures { result ≡ node_count (goals_of certificate.now) }
{
    let mut count = 0;
    for goal in &certificate.goals {
        count += goal.nodes.len() as u128;
    }
    count
}

#[tactic(auto, unfolding(crate::specs::VerdictText::rejected_line))]
fn write_rejected<W: Write + Drop>(
    goal: usize,
    node: usize,
    rule: u8,
    name: &str,
    out: &mut W,
) -> io::Result<()>
    ensures { Writes W.contents out.old out.new result (rejected_line goal node rule name.now) }
{
    writeln!(out, "rejected goal {goal} node {node} N{rule} {name}")
}

#[tactic(auto, unfolding(crate::specs::VerdictText::shown_text))]
fn write_shown<W: Write + Drop>(shown: &Shown, out: &mut W) -> io::Result<()>
    ensures { Writes W.contents out.old out.new result (shown_text shown.now) }
{
    match shown {
        Shown::Nothing => Ok(()),
        Shown::Two(first, second) => {
            write_named_device("first", first, out)?;
            write_named_device("second", second, out)
        }
        Shown::One(device, end) => device_with_end(device, *end, out),
    }
}

/// Writes a line of a device and one of where a goal ends for it.
#[tactic(auto, unfolding(crate::specs::VerdictText::device_with_end))]
pub fn device_with_end<W: Write + Drop>(device: &Device, end: End, out: &mut W) -> io::Result<()>
    ensures { Writes W.contents out.old out.new result (device_with_end (device_numbers device.now) end) }
{
    write_named_device("device", device, out)?;
    write_end_line(end, out)
}

#[tactic(auto, unfolding(crate::specs::VerdictText::named_device_line))]
fn write_named_device<W: Write + Drop>(name: &str, device: &Device, out: &mut W) -> io::Result<()>
    ensures { Writes W.contents out.old out.new result (named_device_line name.now (device_numbers device.now)) }
{
    out.write_all(name.as_bytes())?;
    out.write_all(b" ")?;
    device.write_qualifiers(out)?;
    out.write_all(b"\n")
}
