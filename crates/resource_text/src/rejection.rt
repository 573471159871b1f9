//! Verdicts and rejections, in the form that is asked for.

ghost use Rattle.std.specs.Prelude.{◌≡◌, map};
ghost use Rattle.std.specs.List.{flat_map};
ghost use Rattle.std.specs.Option.{option_copied, option_map};
ghost use Rattle.contract_words.specs.Writes.{Writes};
ghost use Rattle.cert_maker.specs.cert_tree.Certificate.{goal_of, goals_of};
ghost use Rattle.cert_maker.specs.res_value.Goal.{goal_seen};
ghost use Rattle.resource_text.specs.VerdictForms.{accepted_in, claim_at, claim_in, failed_in, rejection_in, rejections_in, set_aside_in, verdict_in};

use crate::line_form::LineForm;
use crate::line_json::write_set_aside_json;
use crate::naming::Naming;
use crate::rejection_notation::write_rejection_notation;
use crate::verdict::{node_count, write_accepted, write_failed, write_rejection};
use crate::verdict_json::{write_accepted_json, write_failed_json, write_rejection_json};
use answer_text::set_aside_line;
use cert_maker::{Cert, Goal, Verdict};
use cert_tree::{CertGoal, Node};
use command_base::End;
use std::io::{self, Write};

/// A rejection, and where the node says that its goal ends at which it is, if that is a leaf.
#[derive(Clone, Copy)]
pub struct Rejection {
    pub verdict: Verdict,
    pub claimed: Option<End>,
}

impl Rejection {
    ghost use Rattle.std.specs.Prelude.{◌≡◌};
    ghost use Rattle.cert_maker.specs.cert_tree.Certificate.{goals_of};
    ghost use Rattle.resource_text.specs.VerdictForms.{rejection_of};

    /// By this verdict on a certificate.
    pub fn of(verdict: Verdict, certificate: &Cert) -> Rejection
        ensures { result ≡ rejection_of (goals_of certificate.now) verdict }
    {
        Rejection {
            verdict,
            claimed: claim_at(certificate, &verdict),
        }
    }
}

/// Writes a verdict on a certificate in a form; without the names of the stack as `verdict_text` does.
pub fn write_verdict_in<W: Write + Drop>(
    naming: Option<&Naming<'_, '_, '_>>,
    form: LineForm,
    goals: &[Goal],
    certificate: &Cert,
    verdict: &Verdict,
    out: &mut W,
) -> io::Result<()>
    ensures { Writes W.contents out.old out.new result (verdict_in (option_copied naming.entry) form (map goal_seen goals.now)
        (goals_of certificate.now) verdict.now) }
{
    match verdict {
        Verdict::Accepted => write_accepted_in(form, certificate, out),
        Verdict::Rejected { .. } => {
            let rejection = Rejection::of(*verdict, certificate);
            write_rejection_in(naming, form, goals, &rejection, out)
        }
    }
}

/// Writes rejections in the same form, one after the other, and how many goals of a list these are.
#[tactic(auto, unfolding(crate::specs::VerdictForms::rejections_in))]
pub fn write_rejections_in<W: Write + Drop>(
    naming: Option<&Naming<'_, '_, '_>>,
    form: LineForm,
    goals: &[Goal],
    rejections: &[Rejection],
    of: usize,
    out: &mut W,
) -> io::Result<()>
    ensures { Writes W.contents out.old out.new result (rejections_in (option_copied naming.entry) form (map goal_seen goals.now)
        rejections.now of) }
{
    write_each(naming, form, goals, rejections, out)?;
    write_failed_in(form, rejections.len(), of, out)
}

/// Writes how many rows are set aside.
#[tactic(auto, unfolding(crate::specs::VerdictForms::set_aside_in))]
pub fn write_set_aside_in<W: Write + Drop>(
    form: LineForm,
    count: u128,
    out: &mut W,
) -> io::Result<()>
    ensures { Writes W.contents out.old out.new result (set_aside_in form count) }
{
    match form {
        LineForm::Text(_) => set_aside_line(count, out),
        LineForm::Json => write_set_aside_json(count, out),
    }
}

fn write_accepted_in<W: Write + Drop>(
    form: LineForm,
    certificate: &Cert,
    out: &mut W,
) -> io::Result<()>
    ensures { Writes W.contents out.old out.new result (accepted_in form (goals_of certificate.now)) }
{
    match form {
        LineForm::Text(_) => write_accepted(certificate, out),
        LineForm::Json => {
            write_accepted_json(certificate.goals.len(), node_count(certificate), out)
        }
    }
}

#[tactic(auto, unfolding(crate::specs::VerdictForms::failed_in))]
fn write_failed_in<W: Write + Drop>(
    form: LineForm,
    failed: usize,
    goals: usize,
    out: &mut W,
) -> io::Result<()>
    ensures { Writes W.contents out.old out.new result (failed_in form failed goals) }
{
    match form {
        LineForm::Text(_) => write_failed(failed, goals, out),
        LineForm::Json => write_failed_json(failed, goals, out),
    }
}

#[tactic(auto, using(contract_words::proofs::TextSteps::puts))]
fn write_each<W: Write + Drop>(
    naming: Option<&Naming<'_, '_, '_>>,
    form: LineForm,
    goals: &[Goal],
    rejections: &[Rejection],
    out: &mut W,
) -> io::Result<()>
    ensures { Writes W.contents out.old out.new result
        (flat_map (rejection_in (option_copied naming.entry) form (map goal_seen goals.now)) rejections.now) }
{
    for rejection in rejections {
        write_rejection_in(naming, form, goals, rejection, out)?;
    }
    Ok(())
}

fn write_rejection_in<W: Write + Drop>(
    naming: Option<&Naming<'_, '_, '_>>,
    form: LineForm,
    goals: &[Goal],
    rejection: &Rejection,
    out: &mut W,
) -> io::Result<()>
    ensures { Writes W.contents out.old out.new result
        (rejection_in (option_copied naming.entry) form (map goal_seen goals.now) rejection.now) }
{
    let Some(naming) = naming else {
        return write_rejection(&rejection.verdict, out);
    };
    let (claimed, verdict) = (rejection.claimed, &rejection.verdict);
    match form {
        LineForm::Text(_) => write_rejection_notation(naming, goals, claimed, verdict, out),
        LineForm::Json => write_rejection_json(naming, goals, claimed, verdict, out),
    }
}

// Where the node says that its goal ends at which a certificate is rejected, if it is a leaf.
fn claim_at(certificate: &Cert, verdict: &Verdict) -> Option<End>
    ensures { result ≡ claim_at (goals_of certificate.now) verdict.now }
{
    match verdict {
        Verdict::Accepted => None,
        Verdict::Rejected { goal, node, .. } => claim_in(certificate.goals.get(*goal), *node),
    }
}

fn claim_in(tree: Option<&CertGoal>, node: usize) -> Option<End>
    ensures { result ≡ claim_in (option_map (λ tree. goal_of tree.now) tree.entry) node }
{
    let tree = tree?;
    match tree.nodes.get(node)? {
        Node::Test(_) => None,
        Node::Value { layer, value } => Some(End::Value {
            layer: *layer,
            value: *value,
        }),
        Node::Bag { id } => Some(End::Bag { id: *id }),
    }
}
