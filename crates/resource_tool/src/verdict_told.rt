//! What `check` tells of a verdict.

ghost use Rattle.std.specs.Prelude.{◌≡◌, ◌++◌, true, None, Some, map, string_bytes, IfOk};
ghost use Rattle.std.specs.List.{flat_map};
ghost use Rattle.std.specs.Option.{option_copied};
ghost use Rattle.contract_words.specs.Writes.{Writes};
ghost use Rattle.resource_text.specs.VerdictForms.{rejections_in, set_aside_in};
ghost use Rattle.resource_text.specs.cert_maker.cert_checker.Verdict.{IsVerdict};
ghost use Rattle.resource_text.specs.cert_maker.cert_tree.Certificate.{goals_of};
ghost use Rattle.resource_text.specs.cert_maker.res_value.Goal.{goal_seen};
ghost use Rattle.resource_tool.specs.Check.{telling_of};
ghost use Rattle.resource_tool.specs.CheckOutput.{Tells, TellsAll, check_text, goal_of_verdict, goal_told_of, naming_of, told_text};
ghost use Rattle.resource_tool.specs.EachGoal.{goes_on};
ghost use Rattle.resource_tool.specs.OpenedSeen.{opened_cert};

use crate::check::{Check, OpenedCert};
use crate::each_goal::{all_rejections, goes_on};
use crate::goal_told::write_goal_told;
use answer_text::{NamesBeside, set_aside_line};
use command_base::{Stack, rows_set_aside};
use resource_text::{
    Form, Goal, LineForm, Naming, Rejection, Verdict, verdict_text, write_rejections_in,
    write_set_aside_in, write_verdict_in,
};
use std::alloc::{AllocError, Global};
use std::io::{self, Write};

/// What is printed, and what is said beside it.
#[derive(Drop)]
pub(crate) struct Told {
    pub text: Vec<u8>,
    pub lines: Vec<u8>,
}

impl OpenedCert<'_> {
    /// What is told of a verdict on it.
    pub(crate) fn told(
        self,
        alloc: Global,
        goals: &[Goal],
        asked: &Check<'_>,
        paths: &[String],
        verdict: Verdict,
    ) -> io::Result<Told>
        requires { IsVerdict self.stack self.members (map goal_seen goals.now) (goals_of self.certificate) verdict }
        ensures { IfOk result (λ told. Tells (map goal_seen goals.now) (telling_of asked.now (map string_bytes paths.now)) (opened_cert self.entry)
            verdict (goes_on asked.now.all verdict) told.text.items told.lines.items) }
    {
        match goes_on(asked.all, &verdict) {
            Some(goal) => self.all_told(alloc, goals, asked, paths, verdict, goal),
            None => self.verdict_told(alloc, goals, asked, paths, &verdict),
        }
    }

    fn all_told(
        self,
        alloc: Global,
        goals: &[Goal],
        asked: &Check<'_>,
        paths: &[String],
        verdict: Verdict,
        goal: usize,
    ) -> io::Result<Told>
        requires right { IsVerdict self.stack self.members (map goal_seen goals.now) (goals_of self.certificate) verdict }
        requires at { goes_on true verdict ≡ Some goal }
        ensures { IfOk result (λ told. TellsAll (map goal_seen goals.now) (telling_of asked.now (map string_bytes paths.now)) (opened_cert self.entry)
            verdict told.text.items told.lines.items) }
    {
        let first = Rejection::of(verdict, &self.certificate);
        let OpenedCert {
            stack,
            members,
            certificate,
            rule,
        } = self;
        let trees = certificate.goals;
        let of = trees.len();
        let rejections = Rejections {
            all: all_rejections(alloc, &stack, &members, trees, goal, first)?,
            of,
            set_aside: rows_set_aside(&stack, rule),
        };
        rejections.told(alloc, &stack, goals, asked, paths)
    }

    fn verdict_told(
        &self,
        alloc: Global,
        goals: &[Goal],
        asked: &Check<'_>,
        paths: &[String],
        verdict: &Verdict,
    ) -> io::Result<Told>
        ensures { IfOk result (λ told. Tells (map goal_seen goals.now) (telling_of asked.now (map string_bytes paths.now)) (opened_cert self.now)
            verdict.now None told.text.items told.lines.items) }
    {
        let text = self.verdict_text(alloc, goals, asked, paths, verdict)?;
        let lines = lines_of_verdict(alloc, &self.stack, goals, asked.names, verdict)?;
        Ok(Told { text, lines })
    }

    #[tactic(auto, unfolding(crate::specs::CheckOutput::told_text))]
    fn verdict_text(
        &self,
        alloc: Global,
        goals: &[Goal],
        asked: &Check<'_>,
        paths: &[String],
        verdict: &Verdict,
    ) -> io::Result<Vec<u8>>
        ensures { IfOk result (λ text. text.items ≡ told_text (telling_of asked.now (map string_bytes paths.now)) (map goal_seen goals.now) (opened_cert self.now) verdict.now) }
    {
        let naming = naming_of(alloc, &self.stack, asked, paths)?;
        let mut text = Vec::new(alloc);
        let wrote = write_verdict_in(
            naming.as_ref(),
            asked.form,
            goals,
            &self.certificate,
            verdict,
            &mut text,
        );
        drop(naming);
        wrote?;
        write_set_aside_in(
            asked.form,
            rows_set_aside(&self.stack, self.rule),
            &mut text,
        )?;
        Ok(text)
    }
}

fn lines_of_verdict(
    alloc: Global,
    stack: &Stack<'_>,
    goals: &[Goal],
    names: bool,
    verdict: &Verdict,
) -> io::Result<Vec<u8>>
    ensures { IfOk result (λ lines. lines.items ≡ goal_told_of stack.now (map goal_seen goals.now) names verdict.now) }
{
    let names = NamesBeside::of(alloc, stack, names)?;
    let mut lines = Vec::new(alloc);
    write_goal_of(&names, goals, verdict, &mut lines)?;
    Ok(lines)
}

/// The rejections of goals.
#[derive(Drop)]
struct Rejections {
    all: Vec<Rejection>,
    /// How many goals the certificate has.
    of: usize,
    /// How many rows of the layers are set aside.
    set_aside: u128,
}

impl Rejections {
    fn told(
        &self,
        alloc: Global,
        stack: &Stack<'_>,
        goals: &[Goal],
        asked: &Check<'_>,
        paths: &[String],
    ) -> io::Result<Told>
        ensures printed { IfOk result (λ told. told.text.items ≡ rejections_in (naming_of (telling_of asked.now (map string_bytes paths.now)) stack.now)
            asked.now.form (map goal_seen goals.now) self.now.all.items self.now.of ++ set_aside_in asked.now.form self.now.set_aside) }
        ensures said { IfOk result (λ told. told.lines.items ≡ flat_map
            (λ rejection. goal_told_of stack.now (map goal_seen goals.now) asked.now.names rejection.verdict) self.now.all.items) }
    {
        let text = self.text(alloc, stack, goals, asked, paths)?;
        let lines = self.lines(alloc, stack, goals, asked.names)?;
        Ok(Told { text, lines })
    }

    fn text(
        &self,
        alloc: Global,
        stack: &Stack<'_>,
        goals: &[Goal],
        asked: &Check<'_>,
        paths: &[String],
    ) -> io::Result<Vec<u8>>
        ensures { IfOk result (λ text. text.items ≡ rejections_in (naming_of (telling_of asked.now (map string_bytes paths.now)) stack.now)
            asked.now.form (map goal_seen goals.now) self.now.all.items self.now.of ++ set_aside_in asked.now.form self.now.set_aside) }
    {
        let naming = naming_of(alloc, stack, asked, paths)?;
        let mut text = Vec::new(alloc);
        let wrote = write_rejections_in(
            naming.as_ref(),
            asked.form,
            goals,
            &self.all,
            self.of,
            &mut text,
        );
        drop(naming);
        wrote?;
        write_set_aside_in(asked.form, self.set_aside, &mut text)?;
        Ok(text)
    }

    fn lines(
        &self,
        alloc: Global,
        stack: &Stack<'_>,
        goals: &[Goal],
        names: bool,
    ) -> io::Result<Vec<u8>>
        ensures { IfOk result (λ lines. lines.items ≡ flat_map
            (λ rejection. goal_told_of stack.now (map goal_seen goals.now) names rejection.verdict) self.now.all.items) }
    {
        let names = NamesBeside::of(alloc, stack, names)?;
        let mut lines = Vec::new(alloc);
        write_goals_told(&names, goals, &self.all, &mut lines)?;
        Ok(lines)
    }
}

// What the ids of a stack are called, where the form has them.
fn naming_of<'s, 'a, 'p>(
    alloc: Global,
    stack: &'s Stack<'a>,
    asked: &Check<'_>,
    paths: &'p [String],
) -> Result<Option<Naming<'s, 'a, 'p>>, AllocError>
    ensures { IfOk result (λ naming. naming ≡ naming_of (telling_of asked.now (map string_bytes paths.now)) stack.now) }
{
    if let LineForm::Text(Form::Raw) = asked.form {
        return Ok(None);
    }
    let naming = Naming::of(alloc, stack, paths)?;
    Ok(Some(naming))
}

/// Writes a verdict, and how many rows are set aside.
#[tactic(auto, unfolding(crate::specs::CheckOutput::check_text))]
pub(crate) fn write_verdict<W: Write + Drop>(
    verdict: &Verdict,
    checked: &OpenedCert<'_>,
    out: &mut W,
) -> io::Result<()>
    ensures { Writes W.contents out.old out.new result (check_text (opened_cert checked.now) verdict.now) }
{
    verdict_text(verdict, &checked.certificate, out)?;
    set_aside_line(rows_set_aside(&checked.stack, checked.rule), out)
}

#[tactic(auto, using(contract_words::proofs::TextSteps::puts))]
fn write_goals_told<W: Write + Drop>(
    names: &NamesBeside<'_, '_>,
    goals: &[Goal],
    rejections: &[Rejection],
    out: &mut W,
) -> io::Result<()>
    ensures { Writes W.contents out.old out.new result
        (flat_map (λ rejection. goal_told_of names.now.stack (map goal_seen goals.now) names.now.asked rejection.verdict) rejections.now) }
{
    for rejection in rejections {
        write_goal_of(names, goals, &rejection.verdict, out)?;
    }
    Ok(())
}

fn write_goal_of<W: Write + Drop>(
    names: &NamesBeside<'_, '_>,
    goals: &[Goal],
    verdict: &Verdict,
    out: &mut W,
) -> io::Result<()>
    ensures { Writes W.contents out.old out.new result (goal_told_of names.now.stack (map goal_seen goals.now) names.now.asked verdict.now) }
{
    write_goal_told(names, goals, goal_of_verdict(verdict), out)
}

fn goal_of_verdict(verdict: &Verdict) -> Option<usize>
    ensures { result ≡ goal_of_verdict verdict.now }
{
    match verdict {
        Verdict::Accepted => None,
        Verdict::Rejected { goal, .. } => Some(*goal),
    }
}
