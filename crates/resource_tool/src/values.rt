//! The command `values`.

ghost use Rattle.std.specs.Prelude.{◌≡◌, map, Some, Ok, IfOk, IfSome};
ghost use Rattle.contract_words.specs.Exact.{GivesOr};
ghost use Rattle.command_base.specs.CarriesOut.{IsKept};
ghost use Rattle.command_base.specs.Output.{Prints, PrintsOneOf};
ghost use Rattle.command_base.specs.declared.fault.ToolFault.TheVariants.{OutOfMemory, Write};
ghost use Rattle.stack_diff.specs.names.NamedIds.{packages_of};
ghost use Rattle.stack_diff.specs.names.NamedSet.{named_set_of};
ghost use Rattle.stack_diff.specs.names.Pairs.{pair_of};
ghost use Rattle.stack_diff.specs.Stacks.{stacks_of};
ghost use Rattle.resource_tool.specs.AskedPairs.{AreOfStacks, asked_of};
ghost use Rattle.resource_tool.specs.BoxFiles.{asked_box_held};
ghost use Rattle.resource_tool.specs.Judged.{told_of};
ghost use Rattle.resource_tool.specs.Values.{TellsValues, TellsValuesOf, ValuesOpened, alone, opened_values, values_inputs_by};
ghost use Rattle.resource_tool.specs.ValuesOutput.{values_output, IsValuesOutput};

use crate::asked_pairs::asked_pairs;
use crate::box_files::AskedBoxFiles;
use crate::json_lines::{names_json, write_values_json};
use crate::judged::tell_all;
use crate::lines::print_node_limit;
use crate::told::Told;
use crate::value_lines::write_value_lines;
use command_base::{
    Inputs, LocaleRule, NamedSet, Progress, Status, Stop, ToolFault, asked_sets, open_stack,
    status_or_stop,
};
use resource_text::LineForm;
use stack_diff::{ConfigBox, NamePair, NamedStack, PackageNames, Stack, Stacks};
use std::alloc::{AllocError, Global};
use std::io::Write;

/// What the words of `values` ask: what some resources say, on which devices of a box.
#[derive(Drop)]
pub struct Values<'a> {
    /// Where the list of layers lies.
    pub layers: &'a str,
    /// Where the box lies.
    pub box_path: &'a str,
    /// By which rule locales are compared.
    pub locales: LocaleRule,
    /// How it is written.
    pub form: LineForm,
    /// How many nodes the trees that part the devices have together at most.
    pub max_nodes: u32,
    /// The words that ask for resources, or name a file of such words.
    pub words: Vec<&'a str>,
}

impl<'a> Values<'a> {
    /// Reads what the words name, and answers them; `progress` comes to know how many resources are told. Where it is not
    /// answered, nothing is written, unless a write fails.
    pub fn answer<I: Inputs, P: Progress, W: Write + Drop>(
        &self,
        alloc: Global,
        inputs: &I,
        progress: &mut P,
        out: &mut W,
    ) -> Result<Status, Stop<'a>>
        ensures answers { IfSome (I.places inputs.now) (λ places. TellsValues W.contents out.old out.new places self.now result) }
        ensures unwritten { IsKept out.old out.new result }
    {
        let files = AskedBoxFiles::read(alloc, inputs, self.layers, self.box_path, &self.words)?;
        self.answer_of(alloc, &files, progress, out)
    }

    // Reads the words, opens the layers, reads the box, finds what the words ask for, and then prints what that says.
    #[tactic(auto, unfolding(crate::specs::Diff::opened_asked))]
    fn answer_of<P: Progress, W: Write + Drop>(
        &self,
        alloc: Global,
        files: &AskedBoxFiles,
        progress: &mut P,
        out: &mut W,
    ) -> Result<Status, Stop<'static>>
        ensures { TellsValuesOf W.contents out.old out.new self.now (Ok (asked_box_held files.now)) result
            × IsKept out.old out.new result }
    {
        let sets = asked_sets(alloc, &files.words)?;
        let opened = OpenedValues::read(alloc, files, self.locales)?;
        opened.values_asked(alloc, self, &sets, progress, out)
    }
}

/// The layers and the box.
#[derive(Drop)]
pub(crate) struct OpenedValues<'a> {
    pub(crate) stack: Stack<'a>,
    pub(crate) members: ConfigBox,
    /// By which rule the locales of the box are compared.
    rule: LocaleRule,
}

impl<'a> OpenedValues<'a> {
    /// Opens the layers, and then reads the box, whose locales are read and compared by a rule.
    #[tactic(auto, unfolding(crate::specs::Values::values_inputs_by))]
    pub(crate) fn read(
        alloc: Global,
        files: &'a AskedBoxFiles,
        rule: LocaleRule,
    ) -> Result<OpenedValues<'a>, ToolFault>
        ensures { GivesOr OutOfMemory opened_values result (values_inputs_by rule (asked_box_held files.now).layers (asked_box_held files.now).box_json) }
    {
        let layers = files.layers.layers(alloc)?;
        let stack = open_stack(alloc, &layers)?;
        let members = ConfigBox::read_by(alloc, &files.box_json, rule)?;
        Ok(OpenedValues {
            stack,
            members,
            rule,
        })
    }

    // Finds what words ask for, and then prints what that says.
    fn values_asked<P: Progress, W: Write + Drop>(
        &self,
        alloc: Global,
        asked: &Values<'_>,
        sets: &[NamedSet<'_>],
        progress: &mut P,
        out: &mut W,
    ) -> Result<Status, Stop<'static>>
        ensures { ValuesOpened W.contents out.old out.new asked.now.form asked.now.max_nodes
            (asked_of (opened_values self.now) (map named_set_of sets.now)) result
            × IsKept out.old out.new result }
    {
        let stack = NamedStack::of(alloc, &self.stack)?;
        let packages = packages_of(alloc, &self.stack)?;
        let stacks = Stacks::beside_nothing(&stack, &packages);
        self.values_of(alloc, asked, stacks, sets, progress, out)
    }

    // The same, where this is the stack with its names.
    fn values_of<P: Progress, W: Write + Drop>(
        &self,
        alloc: Global,
        asked: &Values<'_>,
        stacks: Stacks<'_, 'a>,
        sets: &[NamedSet<'_>],
        progress: &mut P,
        out: &mut W,
    ) -> Result<Status, Stop<'static>>
        requires { stacks_of stacks ≡ alone self.now.stack }
        ensures { ValuesOpened W.contents out.old out.new asked.now.form asked.now.max_nodes
            (asked_of (opened_values self.now) (map named_set_of sets.now)) result
            × IsKept out.old out.new result }
    {
        let pairs = asked_pairs(alloc, stacks, sets)?;
        let (form, most) = (asked.form, asked.max_nodes);
        status_or_stop(self.values(alloc, form, stacks, &pairs, most, progress, out))
    }

    /// Prints what the resources of some labels say, on which devices of the box; or `node limit`, where the trees that part the
    /// devices can have more than `max_nodes` nodes together. All memory is taken before the first line is written.
    fn values<P: Progress, W: Write + Drop>(
        &self,
        alloc: Global,
        form: LineForm,
        stacks: Stacks<'_, 'a>,
        pairs: &[NamePair<'a>],
        max_nodes: u32,
        progress: &mut P,
        out: &mut W,
    ) -> Result<Status, ToolFault>
        requires stacks { stacks_of stacks ≡ alone self.now.stack }
        requires pairs { AreOfStacks (stacks_of stacks) (map pair_of pairs.now) }
        ensures { PrintsOneOf (IsValuesOutput form (map pair_of pairs.now) max_nodes) W.contents out.old out.new result (Ok (opened_values self.now)) }
    {
        let told = tell_all(
            alloc,
            form,
            stacks,
            pairs,
            &self.members,
            max_nodes,
            progress,
        )?;
        match told {
            Some(told) => print_values(alloc, form, self.rule, stacks, pairs, &told, out),
            None => print_node_limit(form, out),
        }
    }
}

fn packages_of<'a>(alloc: Global, stack: &Stack<'a>) -> Result<PackageNames<'a>, AllocError>
    ensures { IfOk result (λ packages. packages ≡ packages_of stack.now) }
{
    let tables = stack.base_tables(alloc)?;
    PackageNames::of(alloc, &tables)
}

// All memory is taken before the first line is written.
#[tactic(auto, unfolding(crate::specs::ValuesOutput::lines_of_values))]
fn print_values<W: Write + Drop>(
    alloc: Global,
    form: LineForm,
    rule: LocaleRule,
    stacks: Stacks<'_, '_>,
    pairs: &[NamePair<'_>],
    told: &[Told],
    out: &mut W,
) -> Result<Status, ToolFault>
    ensures { Prints W.contents out.old out.new result (Ok (values_output form rule (stacks_of stacks.entry) (map pair_of pairs.now) (Some (map told_of told.now)))) }
{
    match form {
        LineForm::Text(_) => write_value_lines(rule, stacks, pairs, told, out)?,
        LineForm::Json => {
            let names = names_json(alloc, stacks.packages(), pairs)?;
            write_values_json(rule, stacks, pairs, &names, told, out)?;
        }
    }
    Ok(Status::Done)
}
