//! The command `make` where goals are left out.

ghost use Rattle.std.specs.Prelude.{ℕ, map, Ok, IfOk};
ghost use Rattle.contract_words.specs.Writes.{Writes};
ghost use Rattle.resource_text.specs.cert_maker.Omitting.{IsOmitting};
ghost use Rattle.resource_text.specs.cert_maker.res_value.Goal.{goal_seen};
ghost use Rattle.resource_tool.specs.MapOutput.{PrintsBoth};
ghost use Rattle.resource_tool.specs.Answered.{PrintsBothOneOf};
ghost use Rattle.resource_tool.specs.OmitOutput.{IsOmitOutput, LinesFirst, ToldFirst, omitted_text, lines_of, omit_output};
ghost use Rattle.resource_tool.specs.LineReadsBack.{OmittingReadsBack, UnlessMemory};
ghost use Rattle.resource_tool.specs.OpenedSeen.{opened_box};

use crate::goal_told::write_line_about;
use crate::make::{certificate_text, write_line};
use crate::opened_box::OpenedBox;
use answer_text::StackNames;
use cert_maker::make_omitting;
use command_base::{Stack, Status, ToolFault};
use resource_text::{Goal, Omitted, Omitting, Progress, device_with_end};
use std::alloc::{AllocError, Global};
use std::io::{self, Write};

impl OpenedBox<'_> {
    /// A certificate of the goals that are kept, and what is left out, for `print_omitting`. `progress` comes to know
    /// after each goal how many are done.
    pub fn make_omitting<P: Progress>(
        &self,
        alloc: Global,
        goals: &[Goal],
        max_nodes: u32,
        progress: &mut P,
    ) -> Result<Omitting, AllocError>
        ensures { IfOk result (IsOmitting self.now.stack self.now.members (map goal_seen goals.now) max_nodes) }
    {
        make_omitting(
            alloc,
            &self.stack,
            &self.members,
            goals,
            max_nodes,
            progress,
        )
    }

    /// Prints what was made of some goals: a certificate of those that end at a value or a bag on all devices of the box, and to
    /// `errors` the others, before it.
    pub fn print_omitting<W: Write + Drop, E: Write + Drop>(
        &self,
        alloc: Global,
        goals: &[Goal],
        omitting: &Omitting,
        out: &mut W,
        errors: &mut E,
    ) -> Result<Status, ToolFault>
        ensures prints { (most : ℕ) → IsOmitting self.now.stack self.now.members (map goal_seen goals.now) most omitting.now
            → PrintsBothOneOf (IsOmitOutput (map goal_seen goals.now) most) W.contents E.contents out.old out.new errors.old errors.new result (Ok (opened_box self.now)) }
        ensures lines_first { (most : ℕ) → IsOmitting self.now.stack self.now.members (map goal_seen goals.now) most omitting.now
            → LinesFirst (IsOmitOutput (map goal_seen goals.now) most) E.contents out.old out.new errors.old errors.new (Ok (opened_box self.now)) }
    {
        print_kept(alloc, &self.stack, goals, omitting, out, errors)
    }
}

// What is printed of a certificate is read as the same.
#[tactic(auto, unfolding(crate::specs::MakeOutput::made_text, crate::specs::MakeOutput::certificate_line))]
fn print_kept<W: Write + Drop, E: Write + Drop>(
    alloc: Global,
    stack: &Stack<'_>,
    goals: &[Goal],
    omitting: &Omitting,
    out: &mut W,
    errors: &mut E,
) -> Result<Status, ToolFault>
    ensures output { PrintsBoth W.contents E.contents out.old out.new errors.old errors.new result (Ok (omit_output stack.now (map goal_seen goals.now) omitting.now)) }
    ensures told { ToldFirst E.contents out.old out.new errors.old errors.new (omit_output stack.now (map goal_seen goals.now) omitting.now).lines }
    ensures reads_back { UnlessMemory result (OmittingReadsBack omitting.now) }
{
    match omitting {
        Omitting::Cert {
            certificate,
            omitted,
        } => {
            let text = certificate_text(alloc, certificate)?;
            let names = StackNames::of(alloc, stack)?;
            write_omitted(&names, goals, omitted, errors)?;
            if certificate.goals.is_empty() {
                return Ok(Status::Negative);
            }
            write_line(text.as_slice(), out)?;
            Ok(Status::Done)
        }
        Omitting::NodeLimit => {
            out.write_all(b"node limit\n")?;
            Ok(Status::Negative)
        }
    }
}

#[tactic(auto, using(contract_words::proofs::TextSteps::puts))]
fn write_omitted<E: Write + Drop>(
    stack: &StackNames<'_, '_>,
    goals: &[Goal],
    omitted: &[Omitted],
    errors: &mut E,
) -> io::Result<()>
    ensures { Writes E.contents errors.old errors.new result (lines_of stack.now (map goal_seen goals.now) omitted.now) }
{
    for left_out in omitted {
        write_left_out(stack, goals, left_out, errors)?;
    }
    Ok(())
}

#[tactic(auto, unfolding(crate::specs::OmitOutput::omitted_text))]
fn write_left_out<E: Write + Drop>(
    stack: &StackNames<'_, '_>,
    goals: &[Goal],
    left_out: &Omitted,
    errors: &mut E,
) -> io::Result<()>
    ensures { Writes E.contents errors.old errors.new result (omitted_text stack.now (map goal_seen goals.now) left_out.now) }
{
    errors.write_all(b"omitted ")?;
    write_line_about(stack, goals, Some(left_out.goal), errors)?;
    device_with_end(&left_out.device, left_out.ending, errors)
}
