//! The command `show`.

ghost use Rattle.std.specs.Prelude.{◌≡◌, ◌++◌, map, Ok, IfOk, IfSome, OnOk};
ghost use Rattle.contract_words.specs.Exact.{GivesOr};
ghost use Rattle.contract_words.specs.Writes.{Writes};
ghost use Rattle.command_base.specs.declared.fault.ToolFault.TheVariants.{OutOfMemory, Write};
ghost use Rattle.command_base.specs.declared.status.Status.TheVariants.{Negative};
ghost use Rattle.command_base.specs.Output.{Prints, IsOfInput};
ghost use Rattle.command_base.specs.StackBytesSeen.{layer_bytes};
ghost use Rattle.command_base.specs.Stop.{GivesOrStops};
ghost use Rattle.resource_tool.specs.OpenedSeen.{opened_trees};
ghost use Rattle.command_base.specs.cert_tree.Certificate.{goal_of, node_of};
ghost use Rattle.resource_tool.specs.TreeLines.{tree_lines};
ghost use Rattle.resource_tool.specs.TreeLinesSeen.{line_of};
ghost use Rattle.resource_tool.specs.TreeText.{certificate_text, goal_text, goals_line};
ghost use Rattle.resource_tool.specs.DotText.{no_goal_line};
ghost use Rattle.resource_tool.specs.Show.{ShowsFiles, ShowsTrees, show_files, show_held, shown_output};
ghost use Rattle.resource_tool.specs.ShowOutput.{show_inputs, show_answer, show_dot_answer};
ghost use Rattle.command_base.specs.CarriesOut.{IsKept};

mod dot_text;
mod goal_text;
mod line_text;
mod node_text;
mod open_paths;
mod path_end;
mod test_text;
mod tree_lines;

use crate::show::dot_text::dot_text;
use crate::show::goal_text::write_goal_line;
use crate::show::line_text::write_lines;
use crate::show::tree_lines::{TreeLine, tree_lines};
use answer_text::{Form, StackNames, write_on_line};
use command_base::{
    Cert, CertGoal, Inputs, LayerFiles, LayerParts, LocaleRule, Stack, Status, Stop, ToolFault,
    file_bytes, open_stack, status_or_stop,
};
use std::alloc::{AllocError, Global};
use std::io::{self, Write};

/// What the words of `show` ask: the trees of a certificate.
#[derive(Drop)]
pub struct Show<'a> {
    /// Where the list of layers lies.
    pub layers: &'a str,
    /// Where the certificate lies.
    pub certificate: &'a str,
    /// How it is written.
    pub form: Form,
    /// The number of the goal that is shown as a picture; without one all goals are shown as text.
    pub pictured: Option<u32>,
}

impl<'a> Show<'a> {
    /// Reads what the words name, and answers them. Where it is not answered, nothing is written, unless a write fails.
    pub fn answer<I: Inputs, W: Write + Drop>(
        &self,
        alloc: Global,
        inputs: &I,
        out: &mut W,
    ) -> Result<Status, Stop<'a>>
        ensures answers { IfSome (I.places inputs.now) (λ places. ShowsTrees W.contents out.old out.new places self.now result) }
        ensures unwritten { IsKept out.old out.new result }
    {
        let files = ShowFiles::read(alloc, inputs, self.layers, self.certificate)?;
        self.answer_of(alloc, &files, out)
    }

    fn answer_of<W: Write + Drop>(
        &self,
        alloc: Global,
        files: &ShowFiles,
        out: &mut W,
    ) -> Result<Status, Stop<'static>>
        ensures { ShowsFiles W.contents out.old out.new self.now.form self.now.pictured (Ok (show_held files.now)) result
            × IsKept out.old out.new result }
    {
        let layers = files.layers.layers(alloc)?;
        status_or_stop(self.print(alloc, &layers, &files.certificate, out))
    }

    // Prints all trees, or the one that is pictured.
    #[tactic(auto, unfolding(crate::specs::ShowOutput::show_output))]
    fn print<W: Write + Drop>(
        &self,
        alloc: Global,
        layers: &[LayerParts<&[u8]>],
        certificate: &[u8],
        out: &mut W,
    ) -> Result<Status, ToolFault>
        ensures { Prints W.contents out.old out.new result
            (shown_output self.now.form self.now.pictured (record { layers = map layer_bytes layers.now; certificate = certificate.now })) }
    {
        let opened = OpenedTrees::read(alloc, layers, certificate)?;
        match self.pictured {
            None => opened.show(alloc, self.form, out),
            Some(goal) => opened.show_dot(alloc, self.form, goal as usize, out),
        }
    }
}

/// The bytes of layers, and of a certificate.
#[derive(Drop)]
struct ShowFiles {
    layers: LayerFiles,
    certificate: Vec<u8>,
}

impl ShowFiles {
    /// Reads a list of layers with the files that it names, and then the certificate.
    #[tactic(auto, unfolding(crate::specs::Show::show_files))]
    fn read<'a, I: Inputs>(
        alloc: Global,
        inputs: &I,
        layers_path: &'a str,
        certificate_path: &'a str,
    ) -> Result<ShowFiles, Stop<'a>>
        ensures { IfSome (I.places inputs.now) (λ places. GivesOrStops show_held result
            (show_files places layers_path.entry.now certificate_path.entry.now)) }
    {
        let layers = LayerFiles::read(alloc, inputs, layers_path)?;
        let certificate = file_bytes(inputs, certificate_path)?;
        Ok(ShowFiles {
            layers,
            certificate,
        })
    }
}

/// The layers and the certificate that `show` is asked of.
#[derive(Drop)]
struct OpenedTrees<'a> {
    stack: Stack<'a>,
    certificate: Cert,
}

impl<'a> OpenedTrees<'a> {
    /// Opens the layers, and then reads the certificate.
    #[tactic(auto, unfolding(crate::specs::ShowOutput::show_inputs))]
    fn read(
        alloc: Global,
        layers: &[LayerParts<&'a [u8]>],
        certificate: &[u8],
    ) -> Result<OpenedTrees<'a>, ToolFault>
        ensures value { GivesOr OutOfMemory opened_trees result (show_inputs (map layer_bytes layers.now) certificate.now) }
        ensures of_input { IsOfInput result }
    {
        let stack = open_stack(alloc, layers)?;
        let certificate = Cert::read_by(alloc, certificate, LocaleRule::Android)?;
        Ok(OpenedTrees { stack, certificate })
    }

    /// Prints the goals with their trees, a line for each node, and a line with the number of goals.
    fn show<W: Write + Drop>(
        &self,
        alloc: Global,
        form: Form,
        out: &mut W,
    ) -> Result<Status, ToolFault>
        ensures { Prints W.contents out.old out.new result (Ok (show_answer form (opened_trees self.now))) }
    {
        let names = StackNames::of(alloc, &self.stack)?;
        let text = certificate_text(alloc, form, &names, self.certificate.goals.as_slice())?;
        write_on_line(&text, out)?;
        Ok(Status::Done)
    }

    /// Prints the tree of the goal of this number, counted from 0, as a picture in the language DOT; or a line that says that
    /// there is no such goal, and then the status is Negative.
    fn show_dot<W: Write + Drop>(
        &self,
        alloc: Global,
        form: Form,
        goal: usize,
        out: &mut W,
    ) -> Result<Status, ToolFault>
        ensures { Prints W.contents out.old out.new result (Ok (show_dot_answer form (opened_trees self.now) goal)) }
    {
        match self.certificate.goals.as_slice().get(goal) {
            Some(tree) => {
                let names = StackNames::of(alloc, &self.stack)?;
                let text = dot_text(alloc, form, &names, goal, tree)?;
                out.write_all(&text)?;
                Ok(Status::Done)
            }
            None => print_no_goal(goal, out),
        }
    }
}

#[tactic(auto, unfolding(crate::specs::DotText::no_goal_line))]
fn print_no_goal<W: Write + Drop>(goal: usize, out: &mut W) -> Result<Status, ToolFault>
    ensures { Prints W.contents out.old out.new result (Ok (record { status = Negative; text = no_goal_line goal })) }
{
    writeln!(out, "no goal {goal}")?;
    Ok(Status::Negative)
}

// The goals with their trees, in memory: all of it is taken before the first line is written.
#[tactic(auto, unfolding(crate::specs::TreeText::certificate_text))]
fn certificate_text(
    alloc: Global,
    form: Form,
    stack: &StackNames<'_, '_>,
    goals: &[CertGoal],
) -> Result<Vec<u8>, AllocError>
    ensures { IfOk result (λ text. text.items ≡ certificate_text form stack.now (map goal_of goals.now)) }
{
    let mut text = Vec::new(alloc);
    for (number, goal) in goals.iter().enumerate() {
        push_goal(alloc, form, stack, number, goal, &mut text)?;
    }
    push_count(goals.len(), &mut text)?;
    Ok(text)
}

fn push_goal(
    alloc: Global,
    form: Form,
    stack: &StackNames<'_, '_>,
    number: usize,
    goal: &CertGoal,
    text: &mut Vec<u8>,
) -> Result<(), AllocError>
    ensures { OnOk result (text.new.items ≡ text.old.items ++ goal_text form stack.now (number, goal_of goal.now)) }
{
    let lines = tree_lines(alloc, goal.nodes.as_slice())?;
    match write_goal(form, stack, number, goal, &lines, text) {
        Ok(()) => Ok(()),
        // To a `Vec` only a want of memory is a fault.
        Err(_) => Err(AllocError),
    }
}

// Writes a goal, the lines of whose tree are these.
#[tactic(auto, unfolding(crate::specs::TreeText::goal_text))]
fn write_goal<W: Write + Drop>(
    form: Form,
    stack: &StackNames<'_, '_>,
    number: usize,
    goal: &CertGoal,
    lines: &[TreeLine<'_>],
    out: &mut W,
) -> io::Result<()>
    requires { map line_of lines.now ≡ tree_lines (map node_of goal.now.nodes.items) }
    ensures { Writes W.contents out.old out.new result (goal_text form stack.now (number, goal_of goal.now)) }
{
    write_goal_line(stack, number, &goal.goal, goal.nodes.len(), out)?;
    write_lines(form, stack, lines, out)
}

// Pushes the line that says how many goals there are.
#[tactic(auto, unfolding(crate::specs::TreeText::goals_line))]
fn push_count(count: usize, text: &mut Vec<u8>) -> Result<(), AllocError>
    ensures { OnOk result (text.new.items ≡ text.old.items ++ goals_line count) }
{
    match writeln!(text, "goals {count}") {
        Ok(()) => Ok(()),
        // To a `Vec` only a want of memory is a fault.
        Err(_) => Err(AllocError),
    }
}
