//! The command `unused`.

ghost use Rattle.std.specs.Prelude.{map, option_map, string_bytes, Some, Ok, IfSome};
ghost use Rattle.command_base.specs.CarriesOut.{IsKept};
ghost use Rattle.command_base.specs.Output.{Prints, PrintsOneOf};
ghost use Rattle.command_base.specs.declared.fault.ToolFault.TheVariants.{OutOfMemory, Write};
ghost use Rattle.stack_diff.specs.names.NameFault.{GivesNamed};
ghost use Rattle.stack_diff.specs.names.NamedSet.{named_set_of};
ghost use Rattle.resource_tool.specs.BoxFiles.{asked_box_held};
ghost use Rattle.resource_tool.specs.Unused.{IsUnusedOutput, TellsUnused, TellsUnusedOf, ids_asked};
ghost use Rattle.resource_tool.specs.UnusedOutput.{unused_output};
ghost use Rattle.resource_tool.specs.Values.{opened_values};

use crate::box_files::AskedBoxFiles;
use crate::lines::print_node_limit;
use crate::unused_rows::push_layers;
use crate::values::OpenedValues;
use command_base::{
    Inputs, LocaleRule, NamedSet, Status, Stop, ToolFault, asked_sets, status_or_stop,
};
use names::{NameFault, ids_named};
use resource_text::LineForm;
use stack_diff::{ResId, RowUse, Stack, row_uses};
use std::alloc::Global;
use std::io::Write;

/// What the words of `unused` ask: which rows of some resources no device of a box loads.
#[derive(Drop)]
pub struct Unused<'a> {
    /// Where the list of layers lies.
    pub layers: &'a str,
    /// Where the box lies.
    pub box_path: &'a str,
    /// By which rule locales are compared.
    pub locales: LocaleRule,
    /// How it is written.
    pub form: LineForm,
    /// How many nodes the trees that part the devices have together at most.
    pub max_nodes: u32,
    /// The words that ask for resources, or name a file of such words.
    pub words: Vec<&'a str>,
}

impl<'a> Unused<'a> {
    /// Reads what the words name, and answers them. Where it is not answered, nothing is written, unless a write fails.
    pub fn answer<I: Inputs, W: Write + Drop>(
        &self,
        alloc: Global,
        inputs: &I,
        out: &mut W,
    ) -> Result<Status, Stop<'a>>
        ensures answers { IfSome (I.places inputs.now) (λ places. TellsUnused W.contents out.old out.new places self.now result) }
        ensures unwritten { IsKept out.old out.new result }
    {
        let files = AskedBoxFiles::read(alloc, inputs, self.layers, self.box_path, &self.words)?;
        self.answer_of(alloc, &files, out)
    }

    // Reads the words, opens the layers, reads the box, finds what the words ask for, and then prints which rows no device loads.
    #[tactic(auto, unfolding(crate::specs::Unused::unused_opened))]
    fn answer_of<W: Write + Drop>(
        &self,
        alloc: Global,
        files: &AskedBoxFiles,
        out: &mut W,
    ) -> Result<Status, Stop<'static>>
        ensures { TellsUnusedOf W.contents out.old out.new self.now (Ok (asked_box_held files.now)) result
            × IsKept out.old out.new result }
    {
        let sets = asked_sets(alloc, &files.words)?;
        let opened = OpenedValues::read(alloc, files, self.locales)?;
        let asked = asked_ids(alloc, &opened.stack, &sets)?;
        status_or_stop(self.tell(alloc, files.layers.paths(), opened, asked, out))
    }
    // Prints which of the rows that are asked for no device loads, where the tables lie at these paths; or that the trees which part
    // the devices can have more than `max_nodes` nodes together. All memory is taken before the first line is written.
    fn tell<W: Write + Drop>(
        &self,
        alloc: Global,
        paths: &[String],
        opened: OpenedValues<'_>,
        asked: Option<Vec<ResId>>,
        out: &mut W,
    ) -> Result<Status, ToolFault>
        ensures { PrintsOneOf (IsUnusedOutput self.now.form (map string_bytes paths.now) (option_map (λ ids. ids.items) asked) self.now.max_nodes)
            W.contents out.old out.new result (Ok (opened_values opened.entry)) }
    {
        let OpenedValues { stack, members, .. } = opened;
        let uses = row_uses(
            alloc,
            &stack,
            &members,
            asked.as_deref(),
            self.max_nodes as usize,
        )?;
        match uses {
            Some(uses) => print_unused(alloc, self.form, paths, stack, &uses, out),
            None => print_node_limit(self.form, out),
        }
    }
}

// The ids that words ask for, none without words.
fn asked_ids(
    alloc: Global,
    stack: &Stack<'_>,
    sets: &[NamedSet<'_>],
) -> Result<Option<Vec<ResId>>, NameFault>
    ensures { GivesNamed (option_map (λ ids. ids.items)) result (ids_asked stack.now (map named_set_of sets.now)) }
{
    if sets.is_empty() {
        return Ok(None);
    }
    let ids = ids_named(alloc, stack, sets)?;
    Ok(Some(ids))
}

fn print_unused<W: Write + Drop>(
    alloc: Global,
    form: LineForm,
    paths: &[String],
    stack: Stack<'_>,
    uses: &[Vec<Option<RowUse>>],
    out: &mut W,
) -> Result<Status, ToolFault>
    ensures { Prints W.contents out.old out.new result (Ok (unused_output form (map string_bytes paths.now) stack.entry
        (Some (map (λ of_layer. of_layer.items) uses.now)))) }
{
    let mut text = Vec::new(alloc);
    let totals = push_layers(alloc, form, paths, stack, uses, &mut text)?;
    out.write_all(&text)?;
    totals.write(form, out)?;
    Ok(Status::negative_if(totals.unused > 0))
}
